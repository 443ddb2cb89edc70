//! New threads and gates, which store labels beside their own.
ghost use Rattle.std.specs.Prelude.{◌≡◌, ◌≤◌, ◌+◌};
ghost use Rattle.label_lattice.specs.Label.{IsStored};
ghost use Rattle.kernel_rules.specs.Changes.{made, fresh_object};
ghost use Rattle.kernel_rules.specs.Fitting.{IsFitting};
ghost use Rattle.kernel_rules.specs.Step.{new_thread};
ghost use Rattle.kernel_rules.specs.declared.objects.Body.TheVariants as is;
ghost use Rattle.kernel_store.specs.Storing.{storing};
ghost use Rattle.arena_state.specs.Shown.{KeepsSlots};
ghost use Rattle.arena_state.specs.States.{state_of, labels_stored, Stands};

use crate::locations::Location;
use crate::making::placing::place;
use crate::making::uniform::uniform;
use crate::records::{Kept, KeptGate, fresh_record, kept_thread};
use crate::states::ArenaState;
use base::{Level, Meter, ObjectId};
use kernel_rules::Gate;
use kernel_store::ThreadStart;
use label_lattice::Label;

impl ArenaState {
    // A new thread of a label and a clearance, without an address space, gets the next id, as a container does. It
    // takes no memory: there are three indexes of labels for each object.
    pub(crate) fn create_thread(
        &mut self,
        container: Location,
        label: &Label,
        quota: u32,
        start: &ThreadStart,
        meter: &mut Meter,
    ) -> ObjectId
        requires there { Stands self.old container }
        requires fitting { IsFitting (state_of self.old) container.id quota
            (new_thread start.now.clearance.now start.now.entry_point) }
        requires label { IsStored label.now }
        ensures id { result ≡ (state_of self.old).next_id }
        ensures state { state_of self.new ≡ made (state_of self.old) container.id
            (fresh_object label.now quota
            (new_thread start.now.clearance.now start.now.entry_point)) }
        ensures scans { meter.new.scans
            ≤ meter.old.scans + storing 3 (labels_stored self.old) }
        ensures slots { KeepsSlots self.old self.new (state_of self.old).next_id }
    {
        let id = container.id;
        match self.told(container) {
            Some(parent) => {
                let top = uniform(Level::L3, meter);
                let label = self.pieces.holdings.labels.intern(label, meter);
                let clearance = self.pieces.holdings.labels.intern(start.clearance, meter);
                let verify = self.pieces.holdings.labels.intern(&top, meter);
                let thread = kept_thread(clearance, verify, start.entry_point);
                let given = fresh_record(label, quota, Kept::Thread(thread));
                place(&mut self.pieces, id, parent, given, meter).id
            }
            None => unreachable!(),
        }
    }

    // A new gate of a label that hands this on gets the next id, as a container does.
    pub(crate) fn create_gate(
        &mut self,
        container: Location,
        label: &Label,
        quota: u32,
        gate: &Gate,
        meter: &mut Meter,
    ) -> ObjectId
        requires there { Stands self.old container }
        requires fitting { IsFitting (state_of self.old) container.id quota (is.Gate gate.now) }
        requires label { IsStored label.now }
        ensures id { result ≡ (state_of self.old).next_id }
        ensures state { state_of self.new ≡ made (state_of self.old) container.id
            (fresh_object label.now quota (is.Gate gate.now)) }
        ensures scans { meter.new.scans
            ≤ meter.old.scans + storing 2 (labels_stored self.old) }
        ensures slots { KeepsSlots self.old self.new (state_of self.old).next_id }
    {
        let id = container.id;
        match self.told(container) {
            Some(parent) => {
                let label = self.pieces.holdings.labels.intern(label, meter);
                let clearance = self.pieces.holdings.labels.intern(&gate.clearance, meter);
                let kept = KeptGate {
                    clearance,
                    space: gate.space,
                    entry_point: gate.entry_point,
                    closure: gate.closure,
                };
                let given = fresh_record(label, quota, Kept::Gate(kept));
                place(&mut self.pieces, id, parent, given, meter).id
            }
            None => unreachable!(),
        }
    }
}

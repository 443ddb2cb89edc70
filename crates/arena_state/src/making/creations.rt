//! New objects.
ghost use Rattle.std.specs.Prelude.{◌≡◌, ◌≤◌, ◌+◌, ◌*◌, [], replicate, None};
ghost use Rattle.label_lattice.specs.Label.{IsStored};
ghost use Rattle.kernel_rules.specs.Changes.{made, fresh_object};
ghost use Rattle.kernel_rules.specs.Fitting.{IsFitting};
ghost use Rattle.kernel_rules.specs.declared.objects.Body.TheVariants as is;
ghost use Rattle.kernel_store.specs.Storing.{storing};
ghost use Rattle.arena_state.specs.Shown.{KeepsSlots};
ghost use Rattle.arena_state.specs.States.{state_of, labels_stored, Stands};

use crate::locations::Location;
use crate::making::placing::place;
use crate::records::{Kept, fresh_record};
use crate::states::ArenaState;
use base::{Meter, ObjectId, TypeSet};
use label_lattice::Label;

impl ArenaState {
    // A new container of a label gets the next id, last in a container's list, and its id is told. It takes no memory:
    // the slot, the link and the label's index are there, since its quota was admitted.
    pub(crate) fn create_container(
        &mut self,
        container: Location,
        label: &Label,
        quota: u32,
        avoid: TypeSet,
        meter: &mut Meter,
    ) -> ObjectId
        requires there { Stands self.old container }
        requires fitting { IsFitting (state_of self.old) container.id quota (is.Container avoid []) }
        requires label { IsStored label.now }
        ensures id { result ≡ (state_of self.old).next_id }
        ensures state { state_of self.new ≡ made (state_of self.old) container.id
            (fresh_object label.now quota (is.Container avoid [])) }
        ensures scans { meter.new.scans
            ≤ meter.old.scans + storing 1 (labels_stored self.old) }
        ensures slots { KeepsSlots self.old self.new (state_of self.old).next_id }
    {
        let id = container.id;
        match self.told(container) {
            Some(parent) => {
                let label = self.pieces.holdings.labels.intern(label, meter);
                let given = fresh_record(label, quota, Kept::Container(avoid, 1));
                place(&mut self.pieces, id, parent, given, meter).id
            }
            None => unreachable!(),
        }
    }

    // A new segment of so many pages of 0 gets the next id, as a container does.
    pub(crate) fn create_segment(
        &mut self,
        container: Location,
        label: &Label,
        quota: u32,
        pages: u32,
        meter: &mut Meter,
    ) -> ObjectId
        requires there { Stands self.old container }
        requires fitting { IsFitting (state_of self.old) container.id quota
            (is.Segment (replicate (256 * pages) 0)) }
        requires label { IsStored label.now }
        ensures id { result ≡ (state_of self.old).next_id }
        ensures state { state_of self.new ≡ made (state_of self.old) container.id
            (fresh_object label.now quota (is.Segment (replicate (256 * pages) 0))) }
        ensures scans { meter.new.scans
            ≤ meter.old.scans + storing 1 (labels_stored self.old) }
        ensures slots { KeepsSlots self.old self.new (state_of self.old).next_id }
    {
        let id = container.id;
        match self.told(container) {
            Some(parent) => {
                let label = self.pieces.holdings.labels.intern(label, meter);
                let given = fresh_record(label, quota, Kept::Segment(pages));
                let made = place(&mut self.pieces, id, parent, given, meter);
                self.pieces
                    .holdings
                    .segments
                    .resize(made.slot, pages, meter);
                made.id
            }
            None => unreachable!(),
        }
    }

    // A new address space of sixteen empty slots gets the next id, as a container does.
    pub(crate) fn create_space(
        &mut self,
        container: Location,
        label: &Label,
        quota: u32,
        meter: &mut Meter,
    ) -> ObjectId
        requires there { Stands self.old container }
        requires fitting { IsFitting (state_of self.old) container.id quota
            (is.AddressSpace (record { slots = replicate 16 None })) }
        requires label { IsStored label.now }
        ensures id { result ≡ (state_of self.old).next_id }
        ensures state { state_of self.new ≡ made (state_of self.old) container.id
            (fresh_object label.now quota (is.AddressSpace (record { slots = replicate 16 None }))) }
        ensures scans { meter.new.scans
            ≤ meter.old.scans + storing 1 (labels_stored self.old) }
        ensures slots { KeepsSlots self.old self.new (state_of self.old).next_id }
    {
        let id = container.id;
        match self.told(container) {
            Some(parent) => {
                let label = self.pieces.holdings.labels.intern(label, meter);
                let given = fresh_record(label, quota, Kept::AddressSpace);
                place(&mut self.pieces, id, parent, given, meter).id
            }
            None => unreachable!(),
        }
    }
}

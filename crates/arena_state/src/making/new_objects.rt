//! New objects of each kind, with a label that may be none, as a call that stores a label gives it.
ghost use Rattle.std.specs.Prelude.{◌≡◌, ◌≤◌, ◌+◌, IfSome, option_copied};
ghost use Rattle.label_lattice.specs.Label.{IsStored};
ghost use Rattle.kernel_rules.specs.Changes.{made, fresh_object};
ghost use Rattle.kernel_rules.specs.Fitting.{IsFitting};
ghost use Rattle.kernel_rules.specs.Step.{made_of};
ghost use Rattle.kernel_store.specs.NewBodies.{new_body, labels_of, IsSourced};
ghost use Rattle.kernel_store.specs.Storing.{storing};
ghost use Rattle.arena_state.specs.Shown.{KeepsSlots};
ghost use Rattle.arena_state.specs.States.{state_of, labels_stored, Stands};
ghost use Rattle.arena_state.specs.declared.locations.Location.{Location};

use crate::locations::Location;
use crate::states::ArenaState;
use base::{Meter, ObjectId};
use kernel_store::NewBody;
use label_lattice::Label;

impl ArenaState {
    // A new object of a label gets the next id, as `create` says.
    #[inline(always)]
    fn add(
        &mut self,
        container: Location,
        label: &Label,
        quota: u32,
        body: &NewBody<Location>,
        meter: &mut Meter,
    ) -> ObjectId
        requires there { Stands self.old container }
        requires sourced { IsSourced (Stands self.old) (state_of self.old) body.now }
        requires fitting { IsFitting (state_of self.old) container.id quota
            (new_body (λ (l : Location). l.id) (state_of self.old) body.now) }
        requires label { IsStored label.now }
        ensures id { result ≡ (state_of self.old).next_id }
        ensures state { state_of self.new ≡ made (state_of self.old) container.id (fresh_object label.now quota
            (new_body (λ (l : Location). l.id) (state_of self.old) body.now)) }
        ensures scans { meter.new.scans
            ≤ meter.old.scans + storing (labels_of body.now) (labels_stored self.old) }
        ensures slots { KeepsSlots self.old self.new (state_of self.old).next_id }
    {
        match body {
            NewBody::Container(avoid) => self.create_container(
                container, label, quota, *avoid, meter,
            ),
            NewBody::Segment(pages) => self.create_segment(container, label, quota, *pages, meter),
            NewBody::Copy(source) => self.create_copy(container, label, quota, *source, meter),
            NewBody::AddressSpace => self.create_space(container, label, quota, meter),
            NewBody::Thread(start) => self.create_thread(container, label, quota, start, meter),
            NewBody::Gate(gate) => self.create_gate(container, label, quota, gate, meter),
        }
    }

    /// A new object of a label gets the next id, last in a container's list, and its id is told; where there is no label,
    /// nothing changes. It takes no memory: the slot, the link, the frames and the labels' indexes are there, since its quota
    /// was admitted.
    #[inline(always)]
    pub fn create(
        &mut self,
        container: Location,
        label: Option<&Label>,
        quota: u32,
        body: &NewBody<Location>,
        meter: &mut Meter,
    ) -> ObjectId
        requires there { Stands self.old container }
        requires sourced { IsSourced (Stands self.old) (state_of self.old) body.now }
        requires fitting { IsFitting (state_of self.old) container.id quota
            (new_body (λ (l : Location). l.id) (state_of self.old) body.now) }
        requires label { IfSome (option_copied label) IsStored }
        ensures id { result ≡ (state_of self.old).next_id }
        ensures state { state_of self.new ≡ made_of (state_of self.old) container.id (option_copied label.entry) quota
            (new_body (λ (l : Location). l.id) (state_of self.old) body.now) }
        ensures scans { meter.new.scans
            ≤ meter.old.scans + storing (labels_of body.now) (labels_stored self.old) }
        ensures slots { KeepsSlots self.old self.new (state_of self.old).next_id }
    {
        match label {
            Some(label) => self.add(container, label, quota, body, meter),
            None => self.next_id(),
        }
    }
}

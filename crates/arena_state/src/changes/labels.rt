//! Other labels of a thread: the new ones are stored first, and the old ones let go then.
ghost use Rattle.std.specs.Prelude.{◌≡◌, ◌≤◌, ◌+◌, ◌<◌, ◌^◌, IfSome, option_copied};
ghost use Rattle.label_lattice.specs.Label.{IsStored};
ghost use Rattle.kernel_rules.specs.Changes.{changed, cleared, labelled, owning};
ghost use Rattle.kernel_rules.specs.Step.{owned, with_value};
ghost use Rattle.kernel_store.specs.Storing.{storing};
ghost use Rattle.arena_state.specs.States.{state_of, labels_stored};

use crate::records::{Kept, reclear};
use crate::states::ArenaState;
use base::{Meter, ObjectId};
use label_lattice::Label;

impl ArenaState {
    /// An object gets this label, where it is there. It takes no memory: three indexes of labels are free for those that
    /// one call stores.
    pub fn set_label(&mut self, id: ObjectId, label: &Label, meter: &mut Meter)
        requires { IsStored label.now }
        ensures state { state_of self.new ≡ changed (state_of self.old) id (labelled label.now) }
        ensures scans { meter.new.scans
            ≤ meter.old.scans + storing 1 (labels_stored self.old) }
        ensures growth { labels_stored self.new ≤ labels_stored self.old + 1 }
        ensures places { self.new.pieces.places ≡ self.old.pieces.places }
    {
        match self.slot(id, meter) {
            Some(slot) => {
                let new = self.pieces.holdings.labels.intern(label, meter);
                let old = self.pieces.holdings.records[slot.0].label;
                self.pieces.holdings.records[slot.0].label = new;
                self.pieces.holdings.labels.let_go(old);
            }
            None => {}
        }
    }

    /// A thread gets this clearance; any other object stays.
    pub fn set_clearance(&mut self, thread: ObjectId, clearance: &Label, meter: &mut Meter)
        requires { IsStored clearance.now }
        ensures state { state_of self.new ≡ changed (state_of self.old) thread (cleared clearance.now) }
        ensures scans { meter.new.scans
            ≤ meter.old.scans + storing 1 (labels_stored self.old) }
        ensures places { self.new.pieces.places ≡ self.old.pieces.places }
    {
        match self.slot(thread, meter) {
            Some(slot) => {
                let body = self.pieces.holdings.records[slot.0].body;
                match body {
                    Kept::Thread(kept) => {
                        let new = self.pieces.holdings.labels.intern(clearance, meter);
                        reclear(&mut self.pieces.holdings.records[slot.0], new);
                        self.pieces.holdings.labels.let_go(kept.clearance);
                    }
                    _ => {}
                }
            }
            None => {}
        }
    }

    /// A thread gets this label, where it is there; else nothing changes.
    pub fn give_label(&mut self, thread: ObjectId, label: Option<&Label>, meter: &mut Meter)
        requires { IfSome (option_copied label) IsStored }
        ensures state { state_of self.new ≡ with_value (state_of self.old) (option_copied label.entry)
            (λ l. changed (state_of self.old) thread (labelled l)) }
        ensures scans { meter.new.scans
            ≤ meter.old.scans + storing 1 (labels_stored self.old) }
        ensures places { self.new.pieces.places ≡ self.old.pieces.places }
    {
        if let Some(given) = label {
            self.set_label(thread, given, meter);
        }
    }

    /// A thread gets this clearance, where it is there; else nothing changes.
    pub fn give_clearance(&mut self, thread: ObjectId, clearance: Option<&Label>, meter: &mut Meter)
        requires { IfSome (option_copied clearance) IsStored }
        ensures state { state_of self.new ≡ with_value (state_of self.old) (option_copied clearance.entry)
            (λ c. changed (state_of self.old) thread (cleared c)) }
        ensures scans { meter.new.scans
            ≤ meter.old.scans + storing 1 (labels_stored self.old) }
        ensures places { self.new.pieces.places ≡ self.old.pieces.places }
    {
        if let Some(given) = clearance {
            self.set_clearance(thread, given, meter);
        }
    }

    // A thread gets this label and this clearance; any other object gets the label alone.
    fn own(&mut self, thread: ObjectId, label: &Label, clearance: &Label, meter: &mut Meter)
        requires label { IsStored label.now }
        requires clearance { IsStored clearance.now }
        ensures state { state_of self.new
            ≡ changed (state_of self.old) thread (owning label.now clearance.now) }
        ensures scans { meter.new.scans
            ≤ meter.old.scans + storing 2 (labels_stored self.old) }
        ensures places { self.new.pieces.places ≡ self.old.pieces.places }
    {
        self.set_label(thread, label, meter);
        self.set_clearance(thread, clearance, meter);
    }

    /// A thread gets this label and clearance, where both are there, and the next category is given away.
    pub fn own_category(
        &mut self,
        thread: ObjectId,
        label: Option<&Label>,
        clearance: Option<&Label>,
        meter: &mut Meter,
    )
        requires left { (state_of self.old).next_category < 2 ^ 61 }
        requires label { IfSome (option_copied label) IsStored }
        requires clearance { IfSome (option_copied clearance) IsStored }
        ensures state { state_of self.new ≡ owned (state_of self.old) thread (option_copied label.entry) (option_copied clearance.entry) }
        ensures scans { meter.new.scans
            ≤ meter.old.scans + storing 2 (labels_stored self.old) }
        ensures places { self.new.pieces.places ≡ self.old.pieces.places }
    {
        if let Some(label) = label {
            if let Some(clearance) = clearance {
                self.own(thread, label, clearance, meter);
                self.pieces.next_category += 1;
            }
        }
    }
}

//! A thread that enters a gate: its new labels are stored first, and the old ones let go then.
ghost use Rattle.std.specs.Prelude.{◌≡◌, ◌≤◌, ◌+◌};
ghost use Rattle.label_lattice.specs.Label.{IsStored};
ghost use Rattle.kernel_rules.specs.Changes.{changed, entered};
ghost use Rattle.kernel_store.specs.Storing.{storing};
ghost use Rattle.arena_state.specs.States.{state_of, labels_stored};

use crate::records::{Kept, KeptThread, rebind};
use crate::states::ArenaState;
use base::{Meter, ObjectId};
use kernel_rules::Gate;
use kernel_store::ThreadLabels;

impl ArenaState {
    /// A thread gets these labels, and what a gate hands on; any other object gets the label alone. It takes no memory:
    /// three indexes of labels are free for those that one call stores.
    pub fn enter(&mut self, thread: ObjectId, labels: &ThreadLabels, gate: &Gate, meter: &mut Meter)
        requires label { IsStored labels.now.label.now }
        requires clearance { IsStored labels.now.clearance.now }
        requires verify { IsStored labels.now.verify.now }
        ensures state { state_of self.new ≡ changed (state_of self.old) thread
            (entered labels.now.label.now labels.now.clearance.now labels.now.verify.now gate.now) }
        ensures scans { meter.new.scans
            ≤ meter.old.scans + storing 3 (labels_stored self.old) }
        ensures places { self.new.pieces.places ≡ self.old.pieces.places }
    {
        match self.slot(thread, meter) {
            Some(slot) => {
                let named = self.pieces.holdings.records[slot.0].label;
                let body = self.pieces.holdings.records[slot.0].body;
                match body {
                    Kept::Thread(old) => {
                        let own = self.pieces.holdings.labels.intern(labels.label, meter);
                        let high = self.pieces.holdings.labels.intern(labels.clearance, meter);
                        let shown = self.pieces.holdings.labels.intern(labels.verify, meter);
                        let new = KeptThread {
                            clearance: high,
                            verify: shown,
                            space: gate.space,
                            entry_point: gate.entry_point,
                            closure: gate.closure,
                        };
                        rebind(&mut self.pieces.holdings.records[slot.0], own, new);
                        self.pieces.holdings.labels.let_go(named);
                        self.pieces.holdings.labels.let_go(old.clearance);
                        self.pieces.holdings.labels.let_go(old.verify);
                    }
                    _ => self.set_label(thread, labels.label, meter),
                }
            }
            None => {}
        }
    }
}

//! What threads and gates hold, labels by their values. No label is scanned.
ghost use Rattle.std.specs.Prelude.{◌≡◌};
ghost use Rattle.kernel_rules.specs.State.{gate_at, thread_at};
ghost use Rattle.arena_state.specs.States.{state_of, Stands};

use crate::locations::Location;
use crate::records::Kept;
use crate::states::ArenaState;
use kernel_rules::{Gate, Thread};

impl ArenaState {
    /// What a gate hands on, and `None` for any other object.
    pub fn gate(&self, at: Location) -> Option<Gate>
        requires { Stands self.now at }
        ensures { result ≡ gate_at (state_of self.now) at.id }
    {
        match self.record(at) {
            Some(row) => match &row.body {
                Kept::Gate(kept) => Some(Gate {
                    clearance: *self.label_at(kept.clearance),
                    space: kept.space,
                    entry_point: kept.entry_point,
                    closure: kept.closure,
                }),
                _ => None,
            },
            None => None,
        }
    }

    /// What a thread is, beside its label, and `None` for any other object.
    pub fn thread(&self, at: Location) -> Option<Thread>
        requires { Stands self.now at }
        ensures { result ≡ thread_at (state_of self.now) at.id }
    {
        match self.record(at) {
            Some(row) => match &row.body {
                Kept::Thread(kept) => Some(Thread {
                    clearance: *self.label_at(kept.clearance),
                    verify: *self.label_at(kept.verify),
                    space: kept.space,
                    entry_point: kept.entry_point,
                    closure: kept.closure,
                }),
                _ => None,
            },
            None => None,
        }
    }
}

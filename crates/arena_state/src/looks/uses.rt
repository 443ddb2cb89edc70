//! What is kept of uses.
ghost use Rattle.std.specs.Prelude.{◌≡◌, ◌≤◌, ◌+◌, option_map};
ghost use Rattle.kernel_rules.specs.State.{object_at, use_of};
ghost use Rattle.arena_state.specs.Assembled.{body_use};
ghost use Rattle.arena_state.specs.States.{state_of, find_cost};

use crate::records::Kept;
use crate::states::ArenaState;
use base::{Meter, ObjectId};

// What is kept of the use of a body. A segment has at most 16 pages.
pub(crate) fn pages_of(body: &Kept, most: u32) -> u32
    requires { body_use body.now ≤ most }
    ensures { result ≡ body_use body.now }
{
    let _most = most;
    match body {
        Kept::Container(_, used) => *used,
        Kept::Segment(pages) => 1 + *pages,
        Kept::AddressSpace | Kept::Thread(_) | Kept::Gate(_) => 1,
        Kept::Device => 2,
    }
}

impl ArenaState {
    /// What a live object uses, in pages of 256 bytes, as it is kept; none for any other id. No label is scanned.
    pub fn kept_use(&self, id: ObjectId, meter: &mut Meter) -> Option<u32>
        ensures value { result
            ≡ option_map (λ _. use_of (state_of self.now) id) (object_at (state_of self.now) id) }
        ensures scans { meter.new.scans ≡ meter.old.scans }
        ensures probes { meter.new.probes ≤ meter.old.probes + find_cost self.now }
    {
        match self.row(id, meter) {
            Some(row) => Some(pages_of(&row.body, row.quota)),
            None => None,
        }
    }
}

//! A quota that moves: what its container uses changes with it. No label is scanned.
ghost use Rattle.std.specs.Prelude.{◌≡◌, ◌≤◌, ◌+◌, true, false};
ghost use Rattle.base.specs.Live.{has};
ghost use Rattle.kernel_rules.specs.Changes.{changed, requoted};
ghost use Rattle.kernel_rules.specs.State.{is_fixed, list_at, quota_at, use_of};
ghost use Rattle.arena_state.specs.States.{state_of, Stands};

use crate::locations::Location;
use crate::records::{charge, discharge, requote};
use crate::states::ArenaState;

impl ArenaState {
    /// The quota of an object that is in a container's list is so many pages more, and so many less; so is what the
    /// container uses.
    pub fn quota_move(&mut self, container: Location, object: Location, up: u32, down: u32)
        requires container_there { Stands self.old container }
        requires object_there { Stands self.old object }
        requires listed { has (list_at (state_of self.old) container.id) object.id ≡ true }
        requires loose { is_fixed (state_of self.old) object.id ≡ false }
        requires room { use_of (state_of self.old) container.id + up
            ≤ quota_at (state_of self.old) container.id }
        requires free { use_of (state_of self.old) object.id + down
            ≤ quota_at (state_of self.old) object.id }
        ensures state { state_of self.new ≡ changed (state_of self.old) object.id (requoted up down) }
        ensures places { self.new.pieces.places ≡ self.old.pieces.places }
    {
        match self.told(container) {
            Some(parent) => match self.told(object) {
                Some(moved) => {
                    let most = self.pieces.holdings.records[parent.0].quota;
                    requote(&mut self.pieces.holdings.records[moved.0], up, down, most);
                    let charged = &mut self.pieces.holdings.records[parent.0];
                    charge(charged, up, most);
                    discharge(charged, down);
                }
                None => unreachable!(),
            },
            None => unreachable!(),
        }
    }
}

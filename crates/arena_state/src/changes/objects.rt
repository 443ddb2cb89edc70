//! Changes of one object that keep its labels, its place and its use. No label is scanned.
ghost use Rattle.std.specs.Prelude.{◌≡◌};
ghost use Rattle.kernel_rules.specs.Changes.{changed, made_fixed, made_immutable, noted, spaced};
ghost use Rattle.arena_state.specs.States.{state_of, Stands};

use crate::locations::Location;
use crate::records::respace;
use crate::states::ArenaState;
use base::Data;
use kernel_rules::{Entry, padded_data};

impl ArenaState {
    /// An object is read-only for good.
    pub fn set_immutable(&mut self, at: Location)
        requires { Stands self.old at }
        ensures state { state_of self.new ≡ changed (state_of self.old) at.id made_immutable }
        ensures places { self.new.pieces.places ≡ self.old.pieces.places }
    {
        match self.told(at) {
            Some(slot) => self.pieces.holdings.records[slot.0].immutable = true,
            None => {}
        }
    }

    /// An object's quota never changes again.
    pub fn set_fixed(&mut self, at: Location)
        requires { Stands self.old at }
        ensures state { state_of self.new ≡ changed (state_of self.old) at.id made_fixed }
        ensures places { self.new.pieces.places ≡ self.old.pieces.places }
    {
        match self.told(at) {
            Some(slot) => self.pieces.holdings.records[slot.0].fixed = true,
            None => {}
        }
    }

    /// An object gets these metadata, and then zeros.
    pub fn meta_set(&mut self, at: Location, given: &Data)
        requires { Stands self.old at }
        ensures state { state_of self.new ≡ changed (state_of self.old) at.id (noted given.now) }
        ensures places { self.new.pieces.places ≡ self.old.pieces.places }
    {
        match self.told(at) {
            Some(slot) => {
                let data = padded_data(given);
                self.pieces.holdings.records[slot.0].metadata = data;
            }
            None => {}
        }
    }

    /// A thread gets this address space.
    pub fn set_space(&mut self, thread: Location, space: Entry)
        requires { Stands self.old thread }
        ensures state { state_of self.new ≡ changed (state_of self.old) thread.id (spaced space) }
        ensures places { self.new.pieces.places ≡ self.old.pieces.places }
    {
        match self.told(thread) {
            Some(slot) => respace(&mut self.pieces.holdings.records[slot.0], space),
            None => {}
        }
    }
}

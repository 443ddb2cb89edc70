//! What containers list, and which ids are live. No label is scanned.
ghost use Rattle.std.specs.Prelude.{◌≡◌, ◌≤◌, ◌+◌, true, length, slice_get, take, drop};
ghost use Rattle.kernel_rules.specs.Scratch.{ids_of};
ghost use Rattle.base.specs.declared.kinds.Kind.TheVariants as kinds;
ghost use Rattle.kernel_rules.specs.State.{list_at, is_kind_at};
ghost use Rattle.kernel_rules.specs.Step.{lister_of};
ghost use Rattle.arena_state.specs.States.{state_of, Stands};

use crate::locations::Location;
use crate::states::ArenaState;
use base::{Meter, ObjectId};
use kernel_rules::Ids;

impl ArenaState {
    /// How many ids a container lists: 0 for any other object.
    pub fn list_len(&self, container: Location, meter: &mut Meter) -> usize
        requires { Stands self.now container }
        ensures value { result ≡ length (list_at (state_of self.now) container.id) }
        ensures scans { meter.new.scans ≡ meter.old.scans }
    {
        let id = container.id;
        match self.told(container) {
            Some(_) => self.pieces.places.entry_count(id, meter),
            None => 0,
        }
    }

    /// Up to 16 ids of a container's list, from one on.
    pub fn ids_from(&self, container: Location, from: u32, meter: &mut Meter) -> Ids
        requires there { Stands self.now container }
        requires inside { from ≤ length (list_at (state_of self.now) container.id) }
        ensures value { result ≡ take 16 (drop from (list_at (state_of self.now) container.id)) }
        ensures scans { meter.new.scans ≡ meter.old.scans }
    {
        let id = container.id;
        let mut window = [ObjectId::new(0); Ids::MOST];
        match self.told(container) {
            Some(_) => {
                let places = &self.pieces.places;
                let count = places.entries(id, from as usize, &mut window, meter);
                Ids::from_slice(&window[..count])
            }
            None => Ids::from_slice(&window[..0]),
        }
    }

    /// The container that lists another one, and the id itself where none does, as for the root.
    pub fn parent(&self, container: ObjectId, meter: &mut Meter) -> ObjectId
        requires { is_kind_at (state_of self.now) kinds.Container container ≡ true }
        ensures value { result ≡ lister_of container (state_of self.now).objects }
        ensures scans { meter.new.scans ≡ meter.old.scans }
    {
        match self.pieces.places.parent(container, meter) {
            Some(parent) => parent,
            None => container,
        }
    }

    /// The id at a place among the live ids, which rise, from 0 on; none from their number on. One probe.
    pub fn kept_live(&self, place: usize, meter: &mut Meter) -> Option<ObjectId>
        ensures value { result ≡ slice_get (ids_of (state_of self.now).objects) place }
        ensures scans { meter.new.scans ≡ meter.old.scans }
        ensures probes { meter.new.probes ≤ meter.old.probes + 1 }
    {
        if place < self.pieces.places.len() {
            Some(self.pieces.places.live(place, meter))
        } else {
            None
        }
    }
}

//! Address spaces by slot.
ghost use Rattle.std.specs.Prelude.{◌≡◌, ◌≢◌, ℕ, ◌<◌, None, Some, false, length, IfOk, replicate};
ghost use Rattle.std.specs.Prelude.{slice_set};
ghost use Rattle.base.specs.Counts.{probed};

use crate::address_spaces::marks::{is_marked, mark_count, set_mark};
use base::{Meter, NoMemory, ObjectId, Slot};
use kernel_rules::Mapping;
use std::alloc::Global;
use std::marker::Model;

// How many places an address space has.
const PLACES: usize = 16;

/// Address spaces by slot of an arena. A contract sees the 16 places of each slot, each with a mapping or none; a slot that
/// is no address space has none.
#[derive(Drop)]
pub struct Spaces {
    places: Vec<[Option<Mapping>; PLACES]>,
    // Of each end of an id, whether a mapping was of an object whose id has it. A mark outlives its mapping.
    marks: Vec<bool>,
}

impl Model for Spaces {
    ghost use Rattle.std.specs.Prelude.{◌≡◌, List, Option, All, length};
    ghost use Rattle.kernel_rules.specs.declared.objects.Mapping.{Mapping};
    ghost use Rattle.arena_memory.specs.Marks.{AreMarked};

    ghost Value = { List (List (Option Mapping)) };

    ghost view = { λ a. a.places.items };

    ghost invariant = { λ a. All (λ row. length row ≡ 16) a.places.items
        × AreMarked a.places.items a.marks.items };
}

impl Spaces {
    ghost use Rattle.arena_memory.specs.Mappings.{mapping_at, places_at, with_mapping};

    /// So many slots, with no mapping. Only this takes memory; the error is want of it.
    pub fn boot(alloc: Global, slots: usize) -> Result<Spaces, NoMemory>
        ensures { IfOk result (λ s. s ≡ replicate slots (replicate 16 None)) }
    {
        let mut places = Vec::new(alloc);
        places.resize(slots, [None; PLACES])?;
        let marks = vec![in alloc; false; mark_count(slots)]?;
        Ok(Spaces { places, marks })
    }

    /// How many slots there are.
    pub fn slots(&self) -> usize
        ensures { result ≡ length self.now }
    {
        self.places.len()
    }

    // The 16 places of an address space. Whoever asks counts them.
    fn row(&self, space: Slot) -> &[Option<Mapping>]
        requires { space.0 < length self.now }
        ensures value { result.now ≡ places_at self.now space.0 }
        ensures places { length result.now ≡ 16 }
    {
        &self.places[space.0]
    }

    /// The mapping of a place, 0 to 15, of an address space, none where it has none. One probe.
    pub fn mapping(&self, space: Slot, place: usize, meter: &mut Meter) -> Option<Mapping>
        requires space { space.0 < length self.now }
        requires place { place < 16 }
        ensures value { result ≡ mapping_at self.now space.0 place }
        ensures counted { meter.new ≡ probed 1 meter.old }
    {
        meter.probe();
        self.row(space)[place]
    }

    /// The 16 places of an address space. Sixteen probes.
    pub fn mappings(&self, space: Slot, meter: &mut Meter) -> &[Option<Mapping>]
        requires { space.0 < length self.now }
        ensures value { result.now ≡ places_at self.now space.0 }
        ensures places { length result.now ≡ 16 }
        ensures counted { meter.new ≡ probed 16 meter.old }
    {
        meter.probe_many(16);
        self.row(space)
    }

    /// Whether a mapping may be of an object: where the answer is no, none is. It may be yes though none is: ids whose
    /// last binary digits are equal answer as one, and a mapping that is gone counts on. One probe.
    pub fn may_map(&self, object: ObjectId, meter: &mut Meter) -> bool
        ensures none { result ≡ false → (space place : ℕ) (m : Mapping)
            → mapping_at self.now space place ≡ Some m → m.entry.object ≢ object }
        ensures counted { meter.new ≡ probed 1 meter.old }
    {
        meter.probe();
        is_marked(&self.marks, object)
    }

    /// Sets the mapping of a place, 0 to 15. All others stay.
    pub fn map(&mut self, space: Slot, place: usize, mapping: Mapping)
        requires space { space.0 < length self.old }
        requires place { place < 16 }
        ensures { self.new ≡ with_mapping self.old space.0 place (Some mapping) }
    {
        set_mark(&mut self.marks, &mapping);
        self.places[space.0][place] = Some(mapping);
    }

    /// Empties a place, 0 to 15. All others stay.
    pub fn unmap(&mut self, space: Slot, place: usize)
        requires space { space.0 < length self.old }
        requires place { place < 16 }
        ensures { self.new ≡ with_mapping self.old space.0 place None }
    {
        self.places[space.0][place] = None;
    }

    /// Empties all places of an address space. All others stay.
    pub fn release(&mut self, space: Slot)
        requires { space.0 < length self.old }
        ensures { self.new ≡ slice_set self.old space.0 (replicate 16 None) }
    {
        self.places[space.0] = [None; PLACES];
    }
}

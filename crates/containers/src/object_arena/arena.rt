//! The arena: a sorted directory from id to slot, hints beside it, and the slots.
ghost use Rattle.std.specs.Prelude.{◌≡◌, ◌≢◌, ℕ, ◌+◌, ◌-◌, ◌<◌, ◌≤◌, [], ◌∷◌, ◌++◌, length, All, Some};
ghost use Rattle.std.specs.Prelude.{None};
ghost use Rattle.std.specs.Prelude.{IfOk, IfSome, IfNone, IsSome, slice_index, slice_set, remove};
ghost use Rattle.base.specs.Counts.{probed, ProbesAtMost};
ghost use Rattle.containers.specs.Objects.{object_at, binary_digits};
ghost use Rattle.std.specs.Borrow.{Lends, sem};
ghost use Rattle.std.specs.contracts.option.Option.{the_row as option_row};

use crate::object_arena::gaps::{close_gaps, vacate};
use crate::object_arena::hints::{Hint, blank, forget, forget_all, hint_count, hinted, keep};
use crate::object_arena::search::place_of;
use base::{Meter, NoMemory, ObjectId, Slot};
use std::alloc::Global;
use std::marker::Model;

/// Objects under rising ids, each in a slot of its own as long as it is there. A contract sees the ids, the slot of
/// each, and for each slot its object.
#[derive(Drop)]
pub struct Arena<T> {
    ids: Vec<u64>,
    slots: Vec<usize>,
    spare: Vec<usize>,
    cells: Vec<Option<T>>,
    hints: Vec<Hint>,
}

impl<T> Model for Arena<T> {
    ghost use Rattle.containers.specs.Objects.{Objects, objects_code};

    ghost Value = { Objects T };

    ghost coded = { objects_code T.code };

    ghost use Rattle.std.specs.Prelude.{◌≤◌, length, vec_capacity};
    ghost use Rattle.containers.specs.Slots.{IsKept};
    ghost use Rattle.containers.specs.Hints.{AreHints, IsHintCount};

    ghost view = { λ a. record {
      ids = a.ids.items;
      slots = a.slots.items;
      cells = a.cells.items;
    } };

    ghost invariant = { λ a. IsKept a.ids.items a.slots.items a.spare.items a.cells.items
        × (length a.cells.items ≤ vec_capacity a.ids)
        × (length a.cells.items ≤ vec_capacity a.slots)
        × (length a.cells.items ≤ vec_capacity a.spare)
        × AreHints a.ids.items a.slots.items a.hints.items
        × IsHintCount (length a.hints.items) (length a.cells.items) };
}

// The value of a slot that has one, for writing.
fn filled<T>(cell: &mut Option<T>) -> &mut T
    requires { IsSome cell.old }
    ensures* lends { sem 𝓛 (Lends (option_row T.row) T.row cell.entry result Some) }
    ensures value { cell.old ≡ Some result.now }
{
    match cell {
        Some(value) => value,
        None => unreachable!(),
    }
}

impl<T: Drop> Arena<T> {
    ghost use Rattle.containers.specs.ArenaLends.{lends_object};
    ghost use Rattle.containers.specs.Objects.{Objects, IsEntry, IsAbsent, IsWellFormed};
    ghost use Rattle.containers.specs.Objects.{no_objects, without, IsWithoutAll};

    /// An arena of so many slots with no object. Only this takes memory; the error is want of it.
    pub fn boot(alloc: Global, size: usize) -> Result<Self, NoMemory>
        ensures { IfOk result (λ a. a ≡ no_objects size) }
    {
        let ids = Vec::with_capacity(alloc, size)?;
        let slots = Vec::with_capacity(alloc, size)?;
        let mut spare = Vec::with_capacity(alloc, size)?;
        let mut cells = Vec::with_capacity(alloc, size)?;
        let hints = vec![in alloc; blank(); hint_count(size)]?;
        for slot in 0..size {
            spare.push_reserved(slot);
            cells.push_reserved(None);
        }
        Ok(Arena {
            ids,
            slots,
            spare,
            cells,
            hints,
        })
    }

    /// How many objects there are.
    pub fn len(&self) -> usize
        ensures count { result ≡ length self.now.ids }
        ensures well_formed { IsWellFormed self.now }
    {
        self.ids.len()
    }

    /// The id at a place of the directory, from 0 to `len` - 1, in which ids rise. One probe.
    pub fn id_at(&self, place: usize, meter: &mut Meter) -> ObjectId
        requires { place < length self.now.ids }
        ensures value { result ≡ slice_index self.now.ids place }
        ensures counted { meter.new ≡ probed 1 meter.old }
    {
        meter.probe();
        ObjectId::new(self.ids[place])
    }

    // The slot of an id by its hint; none where no hint is of it, though an object may have it. Whoever asks counts it.
    #[inline(always)]
    fn hint(&self, id: ObjectId) -> Option<Slot>
        ensures found { IfSome result (λ slot. (place : ℕ) × IsEntry self.now place id slot.0) }
        ensures there { IfSome result (λ slot. IsSome (object_at self.now slot.0)) }
    {
        match hinted(&self.hints, id.number()) {
            Some(slot) => Some(Slot(slot)),
            None => None,
        }
    }

    /// The slot of an id by its hint; none where no hint is of it, though an object may have it. One probe.
    #[inline(always)]
    pub fn peek(&self, id: ObjectId, meter: &mut Meter) -> Option<Slot>
        ensures found { IfSome result (λ slot. (place : ℕ) × IsEntry self.now place id slot.0) }
        ensures there { IfSome result (λ slot. IsSome (object_at self.now slot.0)) }
        ensures counted { meter.new ≡ probed 1 meter.old }
    {
        meter.probe();
        self.hint(id)
    }

    /// The slots of three ids by their hints; none where no hint is of one of them. Three probes.
    #[inline(always)]
    pub fn peek_three(
        &self,
        one: ObjectId,
        two: ObjectId,
        three: ObjectId,
        meter: &mut Meter,
    ) -> Option<(Slot, Slot, Slot)>
        ensures one { IfSome result (λ slots. (place : ℕ) × IsEntry self.now place one slots.0.0) }
        ensures two { IfSome result (λ slots. (place : ℕ) × IsEntry self.now place two slots.1.0) }
        ensures three { IfSome result (λ slots. (place : ℕ) × IsEntry self.now place three slots.2.0) }
        ensures counted { meter.new ≡ probed 3 meter.old }
    {
        meter.probe_many(3);
        Some((self.hint(one)?, self.hint(two)?, self.hint(three)?))
    }

    // The slot that is hinted of an id, which is one probe. It is left out where a search could then take one too many.
    fn hint_of(&self, id: ObjectId, meter: &mut Meter) -> Option<Slot>
        ensures found { IfSome result (λ slot. (place : ℕ) × IsEntry self.now place id slot.0) }
        ensures there { IfSome result (λ slot. IsSome (object_at self.now slot.0)) }
        ensures cost { ProbesAtMost (binary_digits (length self.now.cells)
            - binary_digits (length self.now.ids)) meter.old meter.new }
        ensures fewer { binary_digits (length self.now.ids)
            ≤ binary_digits (length self.now.cells) }
    {
        if self.ids.len() >= self.hints.len() / 8 {
            return None;
        }
        self.peek(id, meter)
    }

    // The slot of an id, none where no object has it, looked for by halves. (Hints tell most slots, so it is kept out of
    // those who find one.)
    #[cold]
    #[inline(never)]
    fn searched(&self, id: ObjectId, meter: &mut Meter) -> Option<Slot>
        ensures found { IfSome result (λ slot. (place : ℕ) × IsEntry self.now place id slot.0) }
        ensures there { IfSome result (λ slot. IsSome (object_at self.now slot.0)) }
        ensures absent { IfNone result (IsAbsent self.now id) }
        ensures cost { ProbesAtMost (binary_digits
            (length self.now.ids) + 1) meter.old meter.new }
    {
        let place = place_of(&self.ids, id.number(), meter)?;
        meter.probe();
        Some(Slot(self.slots[place]))
    }

    /// The slot of an id, none where no object has it. Adds at most as many probes as the number of slots has binary
    /// digits, plus one.
    pub fn find(&self, id: ObjectId, meter: &mut Meter) -> Option<Slot>
        ensures found { IfSome result (λ slot. (place : ℕ) × IsEntry self.now place id slot.0) }
        ensures there { IfSome result (λ slot. IsSome (object_at self.now slot.0)) }
        ensures absent { IfNone result (IsAbsent self.now id) }
        ensures cost { ProbesAtMost (binary_digits
            (length self.now.cells) + 1) meter.old meter.new }
    {
        if let Some(slot) = self.hint_of(id, meter) {
            return Some(slot);
        }
        self.searched(id, meter)
    }

    /// The object in a slot that has one.
    pub fn get(&self, slot: Slot) -> &T
        requires { IsSome (object_at self.now slot.0) }
        ensures { object_at self.now slot.0 ≡ Some result.now }
    {
        match &self.cells[slot.0] {
            Some(value) => value,
            None => unreachable!(),
        }
    }

    /// The object in a slot that has one, for writing. All else stays.
    pub fn get_mut(&mut self, slot: Slot) -> &mut T
        requires { IsSome (object_at self.old slot.0) }
        ensures* writes_back { sem 𝓛 (lends_object T.row self.entry slot.0 result) }
        ensures value { object_at self.old slot.0 ≡ Some result.now }
    {
        filled(&mut self.cells[slot.0])
    }

    /// Puts an object under an id above all others into a slot that has none, and tells the slot. All else stays.
    pub fn insert(&mut self, id: ObjectId, value: T) -> Slot
        requires room { length self.old.ids < length self.old.cells }
        requires rises { All (λ x. x < id) self.old.ids }
        ensures ids { self.new.ids ≡ self.old.ids ++ id ∷ [] }
        ensures slots { self.new.slots ≡ self.old.slots ++ result.0 ∷ [] }
        ensures within { result.0 < length self.old.cells }
        ensures vacant { object_at self.old result.0 ≡ None }
        ensures apart { All (λ slot. slot ≢ result.0) self.old.slots }
        ensures cells { self.new.cells ≡ slice_set self.old.cells result.0 (Some value) }
    {
        match self.spare.pop() {
            Some(slot) => {
                self.ids.push_reserved(id.number());
                self.slots.push_reserved(slot);
                self.cells[slot] = Some(value);
                let id = id.number();
                keep(&mut self.hints, Hint { id, slot });
                Slot(slot)
            }
            None => unreachable!(),
        }
    }

    /// Takes out the object of an id. Its slot has none then; all else stays. Adds as many probes as `find`.
    pub fn remove(&mut self, id: ObjectId, meter: &mut Meter) -> T
        requires { (place : ℕ) × (slot : ℕ) × IsEntry self.old place id slot }
        ensures value { (place slot : ℕ) → IsEntry self.old place id slot
            → object_at self.old slot ≡ Some result }
        ensures removed { (place slot : ℕ) → IsEntry self.old place id slot
            → self.new ≡ without self.old place slot }
        ensures cost { ProbesAtMost (binary_digits
            (length self.old.cells) + 1) meter.old meter.new }
    {
        match place_of(&self.ids, id.number(), meter) {
            Some(place) => {
                meter.probe();
                let slot = self.slots.remove(place);
                let _id = self.ids.remove(place);
                self.spare.push_reserved(slot);
                forget(&mut self.hints, id.number());
                match self.cells[slot].take() {
                    Some(value) => value,
                    None => unreachable!(),
                }
            }
            None => unreachable!(),
        }
    }

    // Takes out the objects of these ids, as `remove_all` does, which most often has none.
    fn remove_some(&mut self, gone: &[ObjectId], meter: &mut Meter)
        ensures removed { IsWithoutAll self.old self.new gone.now }
        ensures scans { meter.new.scans ≡ meter.old.scans }
    {
        let first = vacate(&self.ids, &self.slots, &mut self.cells, gone, meter);
        close_gaps(
            &mut self.ids,
            &mut self.slots,
            &mut self.spare,
            &self.cells,
            first,
            meter,
        );
        forget_all(&mut self.hints, gone);
    }

    /// Takes out the objects of these ids, in one pass over the directory from the first of them on. Their slots have
    /// none then; all else stays, and an id that no object has changes nothing.
    pub fn remove_all(&mut self, gone: &[ObjectId], meter: &mut Meter)
        ensures removed { IsWithoutAll self.old self.new gone.now }
        ensures scans { meter.new.scans ≡ meter.old.scans }
    {
        // For the proof alone: what the type says of the value is known once it is read.
        let _count = self.len();
        if gone.is_empty() {
            return;
        }
        self.remove_some(gone, meter);
    }
}

//! Rows of translation that are remade: what the sixteen slots of an object's address space show,
//! recomputed by what a thread sees of entries. No label is scanned.
ghost use Rattle.std.specs.Prelude.{◌≡◌, ℕ, ◌<◌, ◌≤◌, true, not, ◌&&◌, Some, None};
ghost use Rattle.std.specs.Prelude.{slice_get, slice_index_or, option_copied, IfOk};
ghost use Rattle.containers.specs.Tree.{HasSlot};
ghost use Rattle.kernel_rules.specs.Translate.{names_none, opens, own_space, slot_in};
ghost use Rattle.kernel_rules.specs.Translate.{through, through_space};
ghost use Rattle.kernel_store.specs.Sights.{seen_of};
ghost use Rattle.arena_memory.specs.Rows.{slot_count, thread_at, with_row};
ghost use Rattle.arena_state.specs.Shown.{named_space, AreKept, IsRow, SameAt, Tells};
ghost use Rattle.arena_state.specs.States.{state_of, Finds};

use crate::locations::Location;
use crate::records::Record;
use crate::states::ArenaState;
use arena_memory::translation_rows::Rows;
use base::{Kind, Meter, NoMemory, ObjectId, Rights, Slot};
use kernel_rules::{Entry, Mapping};
use kernel_store::Seen;
use std::alloc::Global;

// What a slot of this number maps, where there is such a slot and it is filled.
fn mapping_in(slots: &[Option<Mapping>], place: usize) -> Option<Mapping>
    ensures { result ≡ slot_in (slice_get slots.now place) }
{
    match slots.get(place) {
        None => None,
        Some(mapping) => *mapping,
    }
}

impl ArenaState {
    // The entry of a thread's address space, none for any other object.
    pub(crate) fn space_of(&self, thread: ObjectId, meter: &mut Meter) -> Option<Entry>
        ensures value { result ≡ own_space (state_of self.now) thread }
        ensures scans { meter.new.scans ≡ meter.old.scans }
    {
        let at = self.find(thread, meter);
        self.space_in(thread, self.record(at))
    }

    // Whether an entry stands open to a thread, and what the thread sees of its object.
    fn opened(&self, thread: ObjectId, entry: &Entry, meter: &mut Meter) -> (bool, Seen)
        ensures open { result.0 ≡ opens (state_of self.now) thread entry.now }
        ensures seen { result.1 ≡ seen_of (state_of self.now) thread entry.now.object }
        ensures scans { meter.new.scans ≡ meter.old.scans }
    {
        let caller = self.find(thread, meter);
        let container = self.find(entry.container, meter);
        let object = self.find(entry.object, meter);
        let around = self.seen(caller, container);
        let seen = self.seen(caller, object);
        let live = self.is_live(Kind::Container, container);
        let listed = self.lists(container, object, meter);
        (live && around.observed && listed && seen.observed, seen)
    }

    // The segment that a mapping shows to a thread, with the rights to it.
    fn through(
        &self,
        thread: ObjectId,
        mapping: &Option<Mapping>,
        meter: &mut Meter,
    ) -> Option<(ObjectId, Rights)>
        ensures value { result ≡ through (state_of self.now) thread mapping.now }
        ensures scans { meter.new.scans ≡ meter.old.scans }
    {
        match mapping {
            None => None,
            Some(mapping) => {
                let (open, seen) = self.opened(thread, &mapping.entry, meter);
                if open {
                    let rights = if seen.flowing && !seen.immutable {
                        mapping.rights
                    } else {
                        mapping.rights.reading()
                    };
                    Some((mapping.entry.object, rights))
                } else {
                    None
                }
            }
        }
    }

    // Whether the entry of an address space names one and stands open to a thread.
    fn is_open(&self, thread: ObjectId, space: &Entry, meter: &mut Meter) -> bool
        ensures value { result
            ≡ (not (names_none space.now) && opens (state_of self.now) thread space.now) }
        ensures scans { meter.new.scans ≡ meter.old.scans }
    {
        let (open, _) = self.opened(thread, space, meter);
        !space.names_none() && open
    }

    // What the sixteen slots show of an address space whose entry stands open to a thread.
    fn row_through(
        &self,
        thread: ObjectId,
        space: &Entry,
        meter: &mut Meter,
    ) -> [Option<(ObjectId, Rights)>; 16]
        requires { (not (names_none space.now) && opens (state_of self.now) thread space.now)
            ≡ true }
        ensures row { (i : ℕ) → i < 16 → slice_index_or result i None
            ≡ through_space (state_of self.now) thread i (Some space.now) }
        ensures scans { meter.new.scans ≡ meter.old.scans }
    {
        let at = self.find(space.object, meter);
        let slots = self.slots(at, meter);
        let mut row = [None; 16];
        for place in 0..16 {
            row[place] = self.through(thread, &mapping_in(slots, place), meter);
        }
        row
    }

    // What the sixteen slots of a thread's address space, which has this entry, show to the thread.
    fn row_of(
        &self,
        thread: ObjectId,
        space: &Entry,
        meter: &mut Meter,
    ) -> [Option<(ObjectId, Rights)>; 16]
        requires { Some space.now ≡ own_space (state_of self.now) thread }
        ensures row { IsRow (state_of self.now) thread result }
        ensures scans { meter.new.scans ≡ meter.old.scans }
    {
        if self.is_open(thread, space, meter) {
            self.row_through(thread, space, meter)
        } else {
            [None; 16]
        }
    }

    // The entry of a thread's address space by the record that was found, where it names one; none for any other object.
    fn named_space_in(&self, thread: ObjectId, found: Option<&Record>) -> Option<Entry>
        requires { Finds self.now thread (option_copied found) }
        ensures { result ≡ named_space (own_space (state_of self.now) thread) }
    {
        match self.space_in(thread, found) {
            Some(space) => {
                if space.names_none() {
                    None
                } else {
                    Some(space)
                }
            }
            None => None,
        }
    }

    // The slot of a thread whose address space has this entry is the thread's, and its row says what its slots show. All
    // other slots stay. (In a function of its own, since a row is large: each value that a function makes is set to zero
    // where the function begins, be it needed or not.)
    #[inline(never)]
    fn show(&self, slot: Slot, thread: ObjectId, space: &Entry, rows: &mut Rows, meter: &mut Meter)
        requires within { slot.0 < slot_count rows.old }
        requires space { Some space.now ≡ own_space (state_of self.now) thread }
        ensures shown { (row : _) × IsRow (state_of self.now) thread row
            × (rows.new ≡ with_row rows.old slot.0 (Some thread) row) }
        ensures named { thread_at rows.new slot.0 ≡ Some thread }
        ensures scans { meter.new.scans ≡ meter.old.scans }
    {
        let row = self.row_of(thread, space, meter);
        rows.set(slot, thread, row);
    }

    /// The row of an object, if there is such an object, says what its slots show, and its slot
    /// names it if it is a thread in an address space. All other slots stay.
    #[inline(always)]
    pub fn remake_row(&self, thread: ObjectId, rows: &mut Rows, meter: &mut Meter)
        requires { slot_count rows.old ≡ (state_of self.now).limits.pages }
        ensures size { slot_count rows.new ≡ slot_count rows.old }
        ensures row { (slot : ℕ) → HasSlot self.now.pieces.places thread slot
            → Tells (state_of self.now) thread rows.new slot }
        ensures others { (slot : ℕ) → ¬ HasSlot self.now.pieces.places thread slot
            → SameAt rows.old rows.new slot }
        ensures scans { meter.new.scans ≡ meter.old.scans }
    {
        match self.quick_slot(thread, meter) {
            Some(slot) => {
                let at = Location {
                    id: thread,
                    slot: Some(slot),
                };
                match self.named_space_in(thread, self.record(at)) {
                    Some(space) => self.show(slot, thread, &space, rows, meter),
                    None => rows.clear(slot, meter),
                }
            }
            None => {}
        }
    }

    // Each object's row says what its slots show.
    fn remake_rows(&self, rows: &mut Rows, meter: &mut Meter)
        requires { slot_count rows.old ≡ (state_of self.now).limits.pages }
        ensures kept { AreKept self.now rows.new }
        ensures scans { meter.new.scans ≡ meter.old.scans }
    {
        for place in 0..self.pieces.places.len() {
            let id = self.pieces.places.live(place, meter);
            self.remake_row(id, rows, meter);
        }
    }

    /// A row for each slot, that of each object's slot saying what its slots show. Only this takes
    /// memory; the error is want of it.
    pub fn new_rows(&self, alloc: Global, meter: &mut Meter) -> Result<Rows, NoMemory>
        requires { (state_of self.now).limits.pages ≤ 1024 }
        ensures { IfOk result (λ rows. AreKept self.now rows) }
    {
        let mut rows = Rows::boot(alloc, self.pieces.limits.pages as usize)?;
        self.remake_rows(&mut rows, meter);
        Ok(rows)
    }
}

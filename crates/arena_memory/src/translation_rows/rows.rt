//! Rows by slot.
ghost use Rattle.std.specs.Prelude.{◌≡◌, ◌<◌, ◌≤◌, ℕ, Some, None, IfNone, IfOk, IfSome};
ghost use Rattle.std.specs.Prelude.{length, replicate, slice_index_or};
ghost use Rattle.base.specs.Counts.{probed};

use crate::translation_rows::row::Row;
use base::{Meter, NoMemory, ObjectId, Rights, Slot};
use std::alloc::Global;
use std::marker::Model;

/// A slot that is a thread's, and the thread.
#[derive(Clone, Copy)]
pub struct ThreadSlot {
    /// The slot.
    pub slot: Slot,
    /// The thread that it names.
    pub thread: ObjectId,
}

// The first slot from `from` on that is a thread's, with that thread. The loop reads this list alone.
fn next_filled(threads: &[Option<ObjectId>], from: usize) -> Option<ThreadSlot>
    ensures found { IfSome result (λ found. (from ≤ found.slot.0)
        × (found.slot.0 < length threads.now)
        × (slice_index_or threads.now found.slot.0 None ≡ Some found.thread)
        × ((slot : ℕ) → from ≤ slot → slot < found.slot.0
        → slice_index_or threads.now slot None ≡ None)) }
    ensures absent { IfNone result
        ((slot : ℕ) → from ≤ slot → slice_index_or threads.now slot None ≡ None) }
{
    for slot in from..threads.len() {
        if let Some(thread) = threads[slot] {
            return Some(ThreadSlot {
                slot: Slot(slot),
                thread,
            });
        }
    }
    None
}

/// A row for each slot of an arena, and the thread that the slot is, if it is one's. A contract
/// sees a list of each, a row being a list of what sixteen slots of an address space show. A slot
/// that is no thread's shows nothing.
#[derive(Drop)]
pub struct Rows {
    threads: Vec<Option<ObjectId>>,
    rows: Vec<Row>,
    // No slot before this one is a thread's.
    first: usize,
}

impl Model for Rows {
    ghost use Rattle.arena_memory.specs.Rows.{BySlot};

    ghost Value = { BySlot };

    ghost use Rattle.std.specs.Prelude.{◌≡◌, ◌≤◌, ◌<◌, ℕ, [], None, length, replicate};
    ghost use Rattle.std.specs.Prelude.{slice_index_or, All};

    ghost view = { λ a. record { threads = a.threads.items; rows = a.rows.items } };

    ghost invariant = { λ a. (length a.threads.items ≡ length a.rows.items)
        × All (λ row. length row ≡ 16) a.rows.items × (length a.rows.items ≤ 1024)
        × ((slot : ℕ) → slot < a.first → slice_index_or a.threads.items slot None ≡ None)
        × (a.first ≤ length a.rows.items)
        × ((slot : ℕ) → slot < length a.rows.items → slice_index_or a.threads.items slot None ≡ None
        → slice_index_or a.rows.items slot [] ≡ replicate 16 None) };
}

impl Rows {
    ghost use Rattle.arena_memory.specs.Rows.{no_rows, shown_at, slot_count, thread_at};
    ghost use Rattle.arena_memory.specs.Rows.{walked, with_row, IsNext};

    /// So many slots, up to 1,024, which are no threads' and whose rows show nothing. Only this takes
    /// memory; the error is want of it.
    pub fn boot(alloc: Global, slots: usize) -> Result<Rows, NoMemory>
        requires { slots ≤ 1024 }
        ensures { IfOk result (λ rows. rows ≡ no_rows slots) }
    {
        let mut threads = Vec::new(alloc);
        threads.resize(slots, None)?;
        let mut rows = Vec::with_capacity(alloc, slots)?;
        for _slot in 0..slots {
            rows.push_reserved(Row::blank());
        }
        Ok(Rows {
            threads,
            rows,
            first: slots,
        })
    }

    /// The first slot from `from` on that is a thread's, with that thread; none where no slot from
    /// there on is one's. Each slot that is read is a probe, and they are added up at once.
    pub fn next_thread(&self, from: usize, meter: &mut Meter) -> Option<ThreadSlot>
        ensures found { IfSome result (λ found. IsNext self.now from found.slot.0 found.thread) }
        ensures absent { IfNone result
            ((slot : ℕ) → from ≤ slot → thread_at self.now slot ≡ None) }
        ensures counted { meter.new ≡ probed (walked self.now from result) meter.old }
    {
        let next = next_filled(&self.threads, from);
        let end = match &next {
            Some(found) => found.slot.0 + 1,
            None => self.threads.len(),
        };
        meter.probe_many(end.saturating_sub(from) as u64);
        next
    }

    /// A slot before which none is a thread's.
    pub fn first(&self) -> usize
        ensures none { (slot : ℕ) → slot < result → thread_at self.now slot ≡ None }
        ensures within { result ≤ slot_count self.now }
    {
        let (_threads, _rows) = (&self.threads, &self.rows);
        self.first
    }

    /// There are at most 1,024 rows. Nothing is done: a caller's proof has this from a call.
    pub fn few(&self)
        ensures { slot_count self.now ≤ 1024 }
    {
        let _rows = &self.rows;
    }

    /// What a place, 0 to 15, of a slot's row shows. One probe.
    pub fn shown(&self, slot: Slot, place: usize, meter: &mut Meter) -> Option<(ObjectId, Rights)>
        requires slot { slot.0 < slot_count self.now }
        requires place { place < 16 }
        ensures value { result ≡ shown_at self.now slot.0 place }
        ensures counted { meter.new ≡ probed 1 meter.old }
    {
        meter.probe();
        self.rows[slot.0].at(place)
    }

    /// A slot is this thread's, and has this row. All other slots stay.
    pub fn set(&mut self, slot: Slot, thread: ObjectId, row: [Option<(ObjectId, Rights)>; 16])
        requires { slot.0 < slot_count self.old }
        ensures all { self.new ≡ with_row self.old slot.0 (Some thread) row }
        ensures named { thread_at self.new slot.0 ≡ Some thread }
    {
        self.first = self.first.min(slot.0);
        self.threads[slot.0] = Some(thread);
        let kept = &mut self.rows[slot.0];
        kept.set(&row);
    }

    /// A slot is no thread's, and shows nothing. All other slots stay. Nothing is written where it is
    /// so already. One probe.
    pub fn clear(&mut self, slot: Slot, meter: &mut Meter)
        requires { slot.0 < slot_count self.old }
        ensures all { self.new ≡ with_row self.old slot.0 None (replicate 16 None) }
        ensures named { thread_at self.new slot.0 ≡ None }
        ensures counted { meter.new ≡ probed 1 meter.old }
    {
        meter.probe();
        if self.threads[slot.0].is_some() {
            self.threads[slot.0] = None;
            let kept = &mut self.rows[slot.0];
            kept.clear();
        }
    }
}

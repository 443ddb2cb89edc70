//! Parts of a slot's entries.
ghost use Rattle.std.specs.Prelude.{◌≡◌, ℕ, ◌+◌, ◌-◌, ◌<◌, ◌≤◌, length, min, slice_get};
ghost use Rattle.std.specs.Prelude.{slice_index};
ghost use Rattle.containers.specs.Lists.{family_at, cells_at};
ghost use Rattle.containers.specs.Cells.{IsPaired};
ghost use Rattle.containers.specs.View.{ids_of};

use crate::cells::Pool;
use crate::entry_lists::Rings;
use base::{Meter, ObjectId};

// The cell at a place of a slot's entries, none past the last.
fn cell_at(rings: &Rings<2>, slot: usize, from: usize, meter: &mut Meter) -> Option<usize>
    requires { slot < length (family_at rings.now 0).lists }
    ensures value { result ≡ slice_get (cells_at rings.now 0 slot) from }
    ensures scans { meter.new.scans ≡ meter.old.scans }
{
    if rings.len(0, slot, meter) <= from {
        return None;
    }
    let mut next = rings.first(0, slot, meter);
    for _ in 0..from {
        match next {
            Some(cell) => next = rings.next(0, cell, meter),
            None => unreachable!(),
        }
    }
    next
}

/// Writes what a slot lists from a place on into a window, as far as both go, and tells how many ids that are. The rest
/// of the window stays.
pub fn fill_window(
    rings: &Rings<2>,
    pool: Pool,
    slot: usize,
    from: usize,
    window: &mut [ObjectId],
    meter: &mut Meter,
) -> usize
    requires paired { IsPaired pool.size rings.now }
    requires slot { slot < pool.size }
    requires names { length pool.names.now ≡ pool.size }
    ensures count { result ≡ min (length window.old) (length (cells_at rings.now 0 slot) - from) }
    ensures listed { (k : ℕ) → k < result
        → slice_index window.new k
        ≡ slice_index (ids_of rings.now pool.entry.names.now slot) (from + k) }
    ensures rest { (k : ℕ) → result ≤ k → slice_index window.new k ≡ slice_index window.old k }
    ensures scans { meter.new.scans ≡ meter.old.scans }
{
    let names = pool.names;
    let mut next = cell_at(rings, slot, from, meter);
    let len = rings.len(0, slot, meter);
    let count = window.len().min(len.saturating_sub(from));
    for place in 0..count {
        match next {
            Some(cell) => {
                let object = rings.head_of(1, cell, meter);
                window[place] = ObjectId::new(names[object]);
                next = rings.next(0, cell, meter);
            }
            None => unreachable!(),
        }
    }
    count
}

//! Objects that go together: their slots are emptied first, and the gaps of the directory closed in one pass.
ghost use Rattle.std.specs.Prelude.{◌≡◌, ◌≢◌, ℕ, ◌+◌, ◌<◌, ◌≤◌, length, IfSome, IfNone, IsSome, slice_index};
ghost use Rattle.std.specs.Prelude.{slice_index_or, None, vec_capacity};
ghost use Rattle.containers.specs.Objects.{Rises};
ghost use Rattle.containers.specs.Slots.{IsKept};
ghost use Rattle.containers.specs.Gaps.{IsVacated, HasGaps, IsClosing, IsClosed};

use crate::object_arena::search::place_of;
use base::{Meter, ObjectId};

// The place of an id in a rising list. What came last goes first, most often: so the last place is looked at before any other.
fn place_from_end(ids: &[u64], id: u64, meter: &mut Meter) -> Option<usize>
    requires { Rises ids.now }
    ensures found { IfSome result (λ place. (place < length ids.now)
        × (slice_index ids.now place ≡ id)) }
    ensures absent { IfNone result ((k : ℕ) → k < length ids.now → slice_index ids.now k ≢ id) }
    ensures scans { meter.new.scans ≡ meter.old.scans }
{
    if let Some(last) = ids.last() {
        meter.probe();
        if *last == id {
            return Some(ids.len() - 1);
        }
    }
    place_of(ids, id, meter)
}

/// Empties the slots of these ids, and tells a place of the directory before which none of them is. An id that is not
/// in the directory changes nothing.
pub fn vacate<T: Drop>(
    ids: &[u64],
    slots: &[usize],
    cells: &mut [Option<T>],
    gone: &[ObjectId],
    meter: &mut Meter,
) -> usize
    requires rises { Rises ids.now }
    requires beside { length ids.now ≡ length slots.now }
    requires within { (k : ℕ) → k < length slots.now → slice_index slots.now k < length cells.old }
    ensures vacated { IsVacated ids.now slots.now gone.now (length gone.now)
        cells.old cells.new result }
    ensures scans { meter.new.scans ≡ meter.old.scans }
{
    let mut first = ids.len();
    for id in gone {
        if let Some(place) = place_from_end(ids, id.number(), meter) {
            meter.probe();
            cells[slots[place]] = None;
            first = first.min(place);
        }
    }
    first
}

// Moves each place whose slot has an object to the front, over those whose slot is empty, from a place on before which
// all have one, and tells how many have. The empty slots are spare then.
fn close_up<T>(
    ids: &mut [u64],
    slots: &mut [usize],
    spare: &mut Vec<usize>,
    cells: &[Option<T>],
    from: usize,
) -> usize
    requires gaps { HasGaps ids.old slots.old spare.old.items cells.now }
    requires in_range { from ≤ length ids.old }
    requires there { (k : ℕ) → k < from
        → IsSome (slice_index_or cells.now (slice_index slots.old k) None) }
    requires room { length cells.now ≤ vec_capacity spare.old }
    ensures closing { IsClosing ids.old slots.old spare.old.items ids.new slots.new spare.new.items
        cells.now result (length ids.old) }
    ensures room { vec_capacity spare.new ≡ vec_capacity spare.old }
{
    let mut end = from;
    for place in from..ids.len() {
        let slot = slots[place];
        if cells[slot].is_some() {
            ids[end] = ids[place];
            slots[end] = slot;
            end += 1;
        } else {
            spare.push_reserved(slot);
        }
    }
    end
}

/// Takes each id whose slot is empty out of the directory, from a place on before which none is, in one pass. Its slot
/// is spare then. The places that are read are counted at once.
pub fn close_gaps<T>(
    ids: &mut Vec<u64>,
    slots: &mut Vec<usize>,
    spare: &mut Vec<usize>,
    cells: &[Option<T>],
    from: usize,
    meter: &mut Meter,
)
    requires gaps { HasGaps ids.old.items slots.old.items spare.old.items cells.now }
    requires in_range { from ≤ length ids.old.items }
    requires there { (k : ℕ) → k < from
        → IsSome (slice_index_or cells.now (slice_index slots.old.items k) None) }
    requires room { length cells.now ≤ vec_capacity spare.old }
    ensures kept { IsKept ids.new.items slots.new.items spare.new.items cells.now }
    ensures closed { IsClosed ids.old.items slots.old.items
        ids.new.items slots.new.items cells.now }
    ensures ids_room { vec_capacity ids.new ≡ vec_capacity ids.old }
    ensures slots_room { vec_capacity slots.new ≡ vec_capacity slots.old }
    ensures spare_room { vec_capacity spare.new ≡ vec_capacity spare.old }
    ensures scans { meter.new.scans ≡ meter.old.scans }
{
    meter.probe_many((ids.len() - from) as u64);
    let end = close_up(ids, slots, spare, cells, from);
    ids.truncate(end);
    slots.truncate(end);
}

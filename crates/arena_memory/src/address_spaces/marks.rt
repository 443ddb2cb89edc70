//! Marks of the objects that were mapped, each at the place that the id's last binary digits name. Ids whose last digits
//! are equal share a mark.
//!
//! No mapping is of an object without a mark. So a link, an unreference or an object that becomes immutable touches no row of
//! translation then, unless it is an address space, and the walk over threads is left out. No mark is taken back: one that
//! stays costs a walk that changes nothing.
ghost use Rattle.std.specs.Prelude.{◌≡◌};
ghost use Rattle.arena_memory.specs.Marks.{is_marked, mark_place, with_mark, IsMarkCount};

use base::ObjectId;
use kernel_rules::Mapping;

/// How many marks go with so many slots: a power of two, so that each end of an id has a place.
pub fn mark_count(slots: usize) -> usize
    ensures { IsMarkCount result slots }
{
    match slots.checked_ilog2() {
        Some(digits) => 1 << digits,
        None => 0,
    }
}

// Where the mark of an object stands among so many.
fn mark_place(object: ObjectId, count: usize) -> usize
    ensures { result ≡ mark_place object count }
{
    object.number() as usize & count.saturating_sub(1)
}

/// Sets the mark of the object that a mapping is of, if there is a place for it.
pub fn set_mark(marks: &mut [bool], mapping: &Mapping)
    ensures { marks.new ≡ with_mark marks.old mapping.now.entry.object }
{
    let place = mark_place(mapping.entry.object, marks.len());
    if place < marks.len() {
        marks[place] = true;
    }
}

/// Whether an object's mark is set, or has no place.
pub fn is_marked(marks: &[bool], object: ObjectId) -> bool
    ensures { result ≡ is_marked marks.now object }
{
    match marks.get(mark_place(object, marks.len())) {
        Some(mark) => *mark,
        None => true,
    }
}

//! Hints of where objects are: an id with its slot beside it, at the place that the id's last binary digits name, so
//! that one read tests it.
//!
//! There are eight times as many places as the largest power of two up to the slots, so few ids meet. The first to come has
//! a place until it goes: what lives long keeps its hint. A hint is a probe, so `find` tests one only where there are fewer
//! ids than that power of two. Halves of the directory leave that probe then, and the bound stays.
ghost use Rattle.std.specs.Prelude.{◌≡◌, ◌<◌, [], ◌∷◌, length, IfSome};
ghost use Rattle.containers.specs.Hints.{blank, hint_at, hint_place, IsKeptHint, IsForgotten};
ghost use Rattle.containers.specs.Hints.{IsHintCount};

use base::ObjectId;

/// An id with its slot. A blank has id 0, and no hint is of that id.
#[derive(Clone, Copy)]
pub struct Hint {
    /// The id.
    pub id: u64,
    /// The slot of its object.
    pub slot: usize,
}

/// A hint of no id.
pub fn blank() -> Hint
    ensures { result ≡ blank }
{
    Hint { id: 0, slot: 0 }
}

/// How many hints an arena of so many slots has: a power of two, so that each end of an id has a place, and four to
/// eight for each slot, so that few ids find another's hint at their place. An arena of 2^48 slots and more has none.
pub fn hint_count(size: usize) -> usize
    ensures { IsHintCount result size }
{
    match size.checked_ilog2() {
        Some(digits) if size < 1 << 48 => 8 * (1 << digits),
        _ => 0,
    }
}

// Where the hint of an id stands among so many.
fn hint_place(id: u64, count: usize) -> usize
    ensures { result ≡ hint_place id count }
{
    id as usize & count.saturating_sub(1)
}

/// The slot that is hinted of an id, none where no hint is of it.
pub fn hinted(hints: &[Hint], id: u64) -> Option<usize>
    ensures some { IfSome result (λ slot. 0 < id) }
    ensures hint { IfSome result (λ slot. hint_at hints.now (hint_place id (length hints.now))
        ≡ record { id = id; slot = slot }) }
{
    if hints.is_empty() {
        return None;
    }
    let hint = &hints[hint_place(id, hints.len())];
    if hint.id == id && id > 0 {
        Some(hint.slot)
    } else {
        None
    }
}

/// Puts a hint at its id's place, where a blank is.
pub fn keep(hints: &mut [Hint], hint: Hint)
    ensures { IsKeptHint hints.old hints.new hint }
{
    let place = hint_place(hint.id, hints.len());
    if place < hints.len() && hints[place].id == 0 {
        hints[place] = hint;
    }
}

/// Blanks the hint of an id, if there is one.
pub fn forget(hints: &mut [Hint], id: u64)
    ensures { IsForgotten hints.old hints.new (id ∷ []) 1 }
{
    let place = hint_place(id, hints.len());
    if place < hints.len() && hints[place].id == id {
        hints[place] = blank();
    }
}

/// Blanks the hints of these ids.
pub fn forget_all(hints: &mut [Hint], gone: &[ObjectId])
    ensures { IsForgotten hints.old hints.new gone.now (length gone.now) }
{
    for id in gone {
        forget(hints, id.number());
    }
}

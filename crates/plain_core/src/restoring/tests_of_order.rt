//! Tests of a checkpoint as it is written: what has to rise, and from where numbers are.
ghost use Rattle.std.specs.Prelude.{◌≡◌, nat_lt, nat_le, map, ◌&&◌};
ghost use Rattle.std.specs.List.{list_all};
ghost use Rattle.kernel_rules.specs.WellFormed.{ids_rise};
ghost use Rattle.checkpoints.specs.Restorable.{slots_rise, threads_rise, has_slots, filled_in};
ghost use Rattle.checkpoints.specs.Restorable.{is_ordered};
ghost use Rattle.checkpoints.specs.Restored.{object_of};
ghost use Rattle.kernel_rules.specs.Sizes.{last_slot};
ghost use Rattle.checkpoints.specs.declared.slot_lists.FilledSlot.{FilledSlot};
ghost use Rattle.checkpoints.specs.declared.checkpoints.NextNumber.{NextNumber};
ghost use Rattle.checkpoints.specs.declared.checkpoints.Recorded.{Recorded};
ghost use Rattle.plain_core.specs.Climbs.{climbs};

use base::ObjectId;
use checkpoints::{Checkpoint, FilledSlot, NextNumber, RawBody, Recorded};

/// Whether each slot is above the one before it, and the first one above `after`.
fn slots_climb(after: u32, filled: &[FilledSlot]) -> bool
    ensures { result ≡ climbs (λ (f : FilledSlot). f.slot) after filled.now }
{
    let mut last = after;
    for fill in filled {
        if fill.slot <= last {
            return false;
        }
        last = fill.slot;
    }
    true
}

fn slots_rise(filled: &[FilledSlot]) -> bool
    ensures { result ≡ slots_rise filled.now }
{
    match filled {
        [] => true,
        [first, rest @ ..] => slots_climb(first.slot, rest),
    }
}

fn are_within(filled: &[FilledSlot]) -> bool
    ensures { result ≡ list_all (λ f. nat_le f.slot last_slot) filled.now }
{
    filled.iter().all(|fill| fill.slot <= 15)
}

/// Whether slots rise, up to 15.
pub fn has_slots(filled: &[FilledSlot]) -> bool
    ensures { result ≡ has_slots filled.now }
{
    slots_rise(filled) && are_within(filled)
}

fn threads_climb(after: ObjectId, next: &[NextNumber]) -> bool
    ensures { result ≡ climbs (λ (n : NextNumber). n.thread) after next.now }
{
    let mut last = after;
    for number in next {
        if number.thread.number() <= last.number() {
            return false;
        }
        last = number.thread;
    }
    true
}

fn threads_rise(next: &[NextNumber]) -> bool
    ensures { result ≡ threads_rise next.now }
{
    match next {
        [] => true,
        [first, rest @ ..] => threads_climb(first.thread, rest),
    }
}

fn ids_climb(after: ObjectId, objects: &[Recorded]) -> bool
    ensures { result ≡ climbs (λ (e : Recorded). e.id) after objects.now }
{
    let mut last = after;
    for recorded in objects {
        if recorded.id.number() <= last.number() {
            return false;
        }
        last = recorded.id;
    }
    true
}

/// Whether the ids of these objects rise.
pub fn ids_rise(objects: &[Recorded]) -> bool
    ensures { result ≡ ids_rise (map (λ e. (e.id, object_of e.object)) objects.now) }
{
    match objects {
        [] => true,
        [first, rest @ ..] => ids_climb(first.id, rest),
    }
}

fn fills_rightly(body: &RawBody) -> bool
    ensures { result ≡ has_slots (filled_in body.now) }
{
    match body {
        RawBody::AddressSpace(_, filled) => has_slots(filled.as_slice()),
        _ => true,
    }
}

fn are_filled(objects: &[Recorded]) -> bool
    ensures { result ≡ list_all (λ e. nat_lt 0 e.id && has_slots (filled_in e.object.body)) objects.now }
{
    objects.iter().all(|recorded| 0 < recorded.id.number() && fills_rightly(&recorded.object.body))
}

fn are_later(next: &[NextNumber]) -> bool
    ensures { result ≡ list_all (λ n. nat_le 2 n.number) next.now }
{
    next.iter().all(|next| 2 <= next.number)
}

/// Whether slots rise up to 15, threads rise, no object has the id 0, and each number is from 2.
pub fn is_ordered(checkpoint: &Checkpoint) -> bool
    ensures { result ≡ is_ordered checkpoint.now }
{
    are_filled(&checkpoint.objects) && threads_rise(&checkpoint.next) && are_later(&checkpoint.next)
}

/// Whether each of these threads was given.
pub fn are_threads_given(checkpoint: &Checkpoint) -> bool
    ensures { result ≡ list_all (λ n. nat_lt n.thread checkpoint.now.next_id) checkpoint.now.next }
{
    let next_id = checkpoint.next_id;
    checkpoint
        .next
        .iter()
        .all(|next| next.thread.number() < next_id)
}

//! The numbers of threads' next events.
ghost use Rattle.std.specs.Prelude.{◌≡◌, ◌+◌, ◌<◌, ◌≤◌, ◌==◌, ℕ, true, cond, Some, nat_le, nat_lt, IfOk, IfSome, OnOk};
ghost use Rattle.std.specs.BTreeMap.{get};
ghost use Rattle.std.specs.List.{list_all};
ghost use Rattle.std.specs.Option.{unwrap_or};
ghost use Rattle.std.specs.Ordering.{nat_cmp};
ghost use Rattle.checkpoints.specs.Restorable.{threads_rise};
ghost use Rattle.checkpoints.specs.Starts.{number_of};
ghost use Rattle.kernel_rules.specs.History.{count};
ghost use Rattle.logged_kernel.specs.Entries.{events_of};
ghost use Rattle.logged_kernel.specs.Numbers.{is_noted, AreCounted};

use crate::entries::Entry;
use base::{NoMemory, ObjectId};
use checkpoints::{Checkpoint, NextNumber};
use plain_core::restoring::listed;
use std::alloc::Global;
use std::collections::BTreeMap;

/// The number of a thread among next numbers, 1 where it stands in none.
pub(crate) fn number_of(next: &[NextNumber], thread: ObjectId) -> u64
    ensures { result ≡ number_of next.now thread }
{
    for noted in next {
        if thread == noted.thread {
            return noted.number;
        }
    }
    1
}

/// The number after this one, none after the last.
pub(crate) fn later(number: u64) -> Option<u64>
    ensures { IfSome result (λ later. later ≡ number + 1) }
{
    number.checked_add(1)
}

// Notes the next number of a thread, if that was given.
fn note(
    numbers: &mut BTreeMap<ObjectId, u64>,
    thread: ObjectId,
    number: u64,
    next_id: u64,
) -> Result<(), NoMemory>
    requires { 2 ≤ number }
    ensures value { OnOk result ((t : ℕ) → t < next_id → get nat_cmp numbers.new t
        ≡ cond (thread == t) (Some number) (get nat_cmp numbers.old t)) }
    ensures noted { OnOk result (list_all (is_noted next_id) numbers.old.entries ≡ true
        → list_all (is_noted next_id) numbers.new.entries ≡ true) }
{
    if next_id <= thread.number() {
        return Ok(());
    }
    numbers.insert(thread, number)?;
    Ok(())
}

fn noted_first(
    alloc: Global,
    first: &[NextNumber],
    next_id: u64,
) -> Result<BTreeMap<ObjectId, u64>, NoMemory>
    requires { list_all (λ n. nat_le 2 n.number) first.now ≡ true }
    ensures value { IfOk result (λ numbers. (t : ℕ) → t < next_id
        → unwrap_or (get nat_cmp numbers t) 1 ≡ number_of first.now t) }
    ensures noted { IfOk result (λ numbers. list_all (is_noted next_id) numbers.entries ≡ true) }
{
    let mut numbers = BTreeMap::new(alloc);
    let mut place = first.len();
    while place > 0 {
        place -= 1;
        let next = first[place];
        note(&mut numbers, next.thread, next.number, next_id)?;
    }
    Ok(numbers)
}

fn note_events(
    numbers: &mut BTreeMap<ObjectId, u64>,
    first: &[NextNumber],
    entries: &[Entry],
    next_id: u64,
) -> Result<(), NoMemory>
    requires first { list_all (λ n. nat_le 2 n.number) first.now ≡ true }
    requires value { (t : ℕ) → t < next_id → unwrap_or (get nat_cmp numbers.old t) 1 ≡ number_of first.now t }
    requires noted { list_all (is_noted next_id) numbers.old.entries ≡ true }
    requires events { AreCounted first.now (events_of entries.now) }
    ensures value { OnOk result ((t : ℕ) → t < next_id
        → unwrap_or (get nat_cmp numbers.new t) 1 ≡ count t (events_of entries.now) + number_of first.now t) }
    ensures noted { OnOk result (list_all (is_noted next_id) numbers.new.entries ≡ true) }
{
    let _ = first;
    for entry in entries {
        match entry {
            Entry::Event(event) => {
                let Some(number) = later(event.number()) else {
                    return Err(NoMemory);
                };
                note(numbers, event.thread(), number, next_id)?;
            }
            Entry::Read(_) => {}
        }
    }
    Ok(())
}

/// The next number of each thread with an id below this one, where it isn't 1, after events that begin at the checkpoint. The
/// threads rise. The error is want of memory, or that a thread has no next number.
pub(crate) fn next_numbers(
    alloc: Global,
    origin: &Checkpoint,
    entries: &[Entry],
    next_id: u64,
) -> Result<Vec<NextNumber>, NoMemory>
    requires first { list_all (λ n. nat_le 2 n.number) origin.now.next ≡ true }
    requires events { AreCounted origin.now.next (events_of entries.now) }
    ensures numbers { IfOk result (λ next. (t : ℕ) → t < next_id
        → number_of next.items t ≡ count t (events_of entries.now) + number_of origin.now.next t) }
    ensures rise { IfOk result (λ next. threads_rise next.items ≡ true) }
    ensures later { IfOk result (λ next. list_all (λ n. nat_le 2 n.number) next.items ≡ true) }
    ensures given { IfOk result (λ next. list_all (λ n. nat_lt n.thread next_id) next.items ≡ true) }
{
    let first = origin.next.as_slice();
    let mut numbers = noted_first(alloc, first, next_id)?;
    note_events(&mut numbers, first, entries, next_id)?;
    listed(alloc, &numbers)
}

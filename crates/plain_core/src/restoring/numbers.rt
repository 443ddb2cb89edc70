//! The numbers of the next events after a list of events.
ghost use Rattle.std.specs.Prelude.{◌≡◌, ◌==◌, ℕ, Bool, true, ◌+◌, ◌≤◌, ◌^◌, ◌<◌, IfOk, OnOk, nat_le, map, if◌then◌else◌};
ghost use Rattle.std.specs.List.{list_all};
ghost use Rattle.std.specs.Option.{unwrap_or};
ghost use Rattle.std.specs.Ordering.{nat_cmp};
ghost use Rattle.std.specs.BTreeMap.{get};
ghost use Rattle.checkpoints.specs.Restorable.{threads_rise};
ghost use Rattle.checkpoints.specs.Starts.{number_of};
ghost use Rattle.kernel_rules.specs.History.{count};

use base::{NoMemory, ObjectId};
use checkpoints::NextNumber;
use kernel_rules::histories::Event;
use std::alloc::Global;
use std::collections::BTreeMap;

fn number_in(numbers: &BTreeMap<ObjectId, u64>, thread: ObjectId) -> u64
    ensures { result ≡ unwrap_or (get nat_cmp numbers.now thread) 1 }
{
    match numbers.get(&thread) {
        None => 1,
        Some(number) => *number,
    }
}

/// The number of each thread's next event, where that isn't 1, by the threads.
fn numbers_after(alloc: Global, events: &[Event]) -> Result<BTreeMap<ObjectId, u64>, NoMemory>
    ensures numbers { IfOk result (λ numbers. (t : ℕ) → unwrap_or (get nat_cmp numbers t) 1
        ≡ count t events.now + 1) }
    ensures later { IfOk result (λ numbers. list_all (λ e. nat_le 2 e.1) numbers.entries ≡ true) }
    ensures threads { IfOk result (λ numbers. (test : ℕ → Bool)
        → list_all (λ e. test e.thread) events.now ≡ true
        → list_all (λ e. test e.0) numbers.entries ≡ true) }
{
    let mut numbers = BTreeMap::new(alloc);
    for event in events {
        let number = number_in(&numbers, event.thread);
        numbers.insert(event.thread, number + 1)?;
    }
    Ok(numbers)
}

/// These numbers, the threads rising. The error is want of memory.
pub fn listed(alloc: Global, numbers: &BTreeMap<ObjectId, u64>) -> Result<Vec<NextNumber>, NoMemory>
    ensures value { IfOk result (λ next. map {B = ℕ × ℕ} (λ n. (n.thread, n.number)) next.items ≡ numbers.now.entries) }
    ensures rise { IfOk result (λ next. threads_rise next.items ≡ true) }
{
    let mut next = Vec::new(alloc);
    for (thread, number) in numbers.iter() {
        next.push(NextNumber {
            thread: *thread,
            number: *number,
        })?;
    }
    Ok(next)
}

/// For each thread of the events, as its next number, one more than the count of its events; the
/// threads rise. The error is want of memory.
pub fn next_numbers(alloc: Global, events: &[Event]) -> Result<Vec<NextNumber>, NoMemory>
    ensures numbers { IfOk result (λ next. (t : ℕ) → number_of next.items t
        ≡ count t events.now + 1) }
    ensures rise { IfOk result (λ next. threads_rise next.items ≡ true) }
    ensures later { IfOk result (λ next. list_all (λ n. nat_le 2 n.number) next.items ≡ true) }
    ensures threads { IfOk result (λ next. (test : ℕ → Bool)
        → list_all (λ e. test e.thread) events.now ≡ true
        → list_all (λ n. test n.thread) next.items ≡ true) }
{
    let numbers = numbers_after(alloc, events)?;
    let next = listed(alloc, &numbers)?;
    Ok(next)
}

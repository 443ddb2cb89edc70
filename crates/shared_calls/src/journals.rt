//! The events of batches, one after another.
ghost use Rattle.std.specs.Prelude.{◌≡◌, ◌+◌, ◌∷◌, [], ℕ, cond, Some, ◌==◌, IfOk, OnOk};
ghost use Rattle.std.specs.BTreeMap.{get};
ghost use Rattle.std.specs.Option.{unwrap_or};
ghost use Rattle.std.specs.Ordering.{nat_cmp};
ghost use Rattle.kernel_rules.specs.Events.{by};
ghost use Rattle.kernel_rules.specs.History.{answered};
ghost use Rattle.kernel_rules.specs.Runs.{state_after};
ghost use Rattle.shared_calls.specs.Events.{IsJournal};
ghost use Rattle.syscall_core.specs.Kernel.{kernel_state};

use crate::playing::answer_all;
use crate::rules::Entry;
use base::{Meter, NoMemory, ObjectId};
use kernel_rules::histories::Event;
use std::alloc::Global;
use std::collections::BTreeMap;
use syscall_core::Kernel;

/// A kernel in the state that events lead to, and how many of them each thread has.
#[derive(Drop)]
pub(crate) struct Journal {
    pub(crate) kernel: Kernel,
    pub(crate) meter: Meter,
    pub(crate) counts: BTreeMap<ObjectId, u64>,
}

/// How many events a thread has.
fn count_of(counts: &BTreeMap<ObjectId, u64>, thread: ObjectId) -> u64
    ensures { result ≡ unwrap_or (get nat_cmp counts.now thread) 0 }
{
    match counts.get(&thread) {
        Some(count) => *count,
        None => 0,
    }
}

/// Counts an event of a thread, and gives its number. The error is want of memory, or that the thread has no next number.
fn count_event(counts: &mut BTreeMap<ObjectId, u64>, thread: ObjectId) -> Result<u64, NoMemory>
    ensures number { IfOk result (λ number. number ≡ unwrap_or (get nat_cmp counts.old thread) 0 + 1) }
    ensures counted { IfOk result (λ number. (t : ℕ) → get nat_cmp counts.new t
        ≡ cond (thread == t) (Some number) (get nat_cmp counts.old t)) }
{
    let Some(number) = count_of(counts, thread).checked_add(1) else {
        return Err(NoMemory);
    };
    counts.insert(thread, number)?;
    Ok(number)
}

/// A journal of no event, which begins with a kernel as it stands. The error is want of memory.
pub(crate) fn empty_journal(alloc: Global, kernel: Kernel) -> Result<Journal, NoMemory>
    ensures { IfOk result (IsJournal (kernel_state kernel) []) }
{
    let meter = Meter::new(alloc)?;
    let counts = BTreeMap::new(alloc);
    Ok(Journal {
        kernel,
        meter,
        counts,
    })
}

/// The event of the batch that stands at a place, which the journal's kernel makes: its thread's next number, and each call with its
/// answer. The error is want of memory, or that the thread has no next number.
pub(crate) fn next_event(
    alloc: Global,
    journal: &mut Journal,
    entry: &Entry,
) -> Result<Event, NoMemory>
    ensures thread { IfOk result (λ event. event.thread ≡ entry.now.thread) }
    ensures number { IfOk result (λ event. event.number
        ≡ unwrap_or (get nat_cmp journal.old.counts entry.now.thread) 0 + 1) }
    ensures calls { IfOk result (λ event. event.calls ≡ answered (kernel_state journal.old.kernel)
        entry.now.thread (entry.now.call ∷ entry.now.more.items)) }
    ensures state { OnOk result (kernel_state journal.new.kernel
        ≡ state_after (kernel_state journal.old.kernel)
        (by entry.now.thread (entry.now.call ∷ entry.now.more.items))) }
    ensures counted { IfOk result (λ event. (t : ℕ) → get nat_cmp journal.new.counts t
        ≡ cond (entry.now.thread == t) (Some event.number) (get nat_cmp journal.old.counts t)) }
{
    let number = count_event(&mut journal.counts, entry.thread)?;
    let calls = answer_all(alloc, &mut journal.kernel, &mut journal.meter, entry)?;
    Ok(Event {
        thread: entry.thread,
        number,
        calls,
    })
}

//! Where a replay starts.
ghost use Rattle.std.specs.Prelude.{◌≡◌, ℕ, ◌+◌, [], true, IfOk, IfSome, is_some, nat_le};
ghost use Rattle.std.specs.BTreeMap.{get};
ghost use Rattle.std.specs.List.{list_all};
ghost use Rattle.std.specs.Option.{unwrap_or};
ghost use Rattle.std.specs.Ordering.{nat_cmp};
ghost use Rattle.checkpoints.specs.Restorable.{is_restorable, threads_rise};
ghost use Rattle.checkpoints.specs.Starts.{number_of, start_of};
ghost use Rattle.kernel_rules.specs.History.{boot_start};
ghost use Rattle.dump_text.specs.Whole.{start_with};
ghost use Rattle.auditor.specs.Replay.{IsReplay};
ghost use Rattle.auditor.specs.Verdict.{can_begin};

use crate::replays::Replay;
use base::{Limits, Meter, NoMemory};
use checkpoints::{Checkpoint, NextNumber, restorable_are_whole};
use plain_core::{PlainKernel, RestoreFault};
use std::alloc::Global;
use std::collections::BTreeMap;

/// The number of each thread's last event, where these are the numbers of the next ones that aren't 1.
fn counts_of(alloc: Global, next: &[NextNumber]) -> Result<BTreeMap<u64, u64>, NoMemory>
    requires rise { threads_rise next.now ≡ true }
    requires later { list_all (λ n. nat_le 2 n.number) next.now ≡ true }
    ensures { IfOk result (λ counts. (t : ℕ) → unwrap_or (get nat_cmp counts t) 0 + 1
        ≡ number_of next.now t) }
{
    let mut counts = BTreeMap::new(alloc);
    for numbered in next {
        counts.insert(numbered.thread.number(), numbered.number - 1)?;
    }
    Ok(counts)
}

impl Replay {
    /// A newly booted kernel, with no event.
    fn boot(alloc: Global, limits: &Limits) -> Result<Replay, NoMemory>
        ensures replay { IfOk result (IsReplay (boot_start limits.now)) }
        ensures empty { IfOk result (λ r. r.events.items ≡ []) }
    {
        let Ok(kernel) = PlainKernel::boot(alloc, limits) else {
            return Err(NoMemory);
        };
        Ok(Replay {
            kernel,
            meter: Meter::new(alloc)?,
            events: Vec::new(alloc),
            counts: BTreeMap::new(alloc),
        })
    }

    /// A kernel in the state that a checkpoint writes down, with no event, exactly where the checkpoint can be restored. The
    /// error is want of memory.
    fn restore(
        alloc: Global,
        limits: &Limits,
        checkpoint: &Checkpoint,
    ) -> Result<Option<Replay>, NoMemory>
        ensures replay { IfOk result (λ restored. IfSome restored
            (IsReplay (start_of limits.now checkpoint.now))) }
        ensures empty { IfOk result (λ restored. IfSome restored (λ r. r.events.items ≡ [])) }
        ensures test { IfOk result (λ restored. is_some restored
            ≡ is_restorable limits.now checkpoint.now) }
    {
        restorable_are_whole();
        let kernel = match PlainKernel::restore(alloc, limits, checkpoint) {
            Ok(kernel) => kernel,
            Err(RestoreFault::IllFormed) => return Ok(None),
            Err(RestoreFault::NoMemory) => return Err(NoMemory),
        };
        Ok(Some(Replay {
            kernel,
            meter: Meter::new(alloc)?,
            events: Vec::new(alloc),
            counts: counts_of(alloc, checkpoint.next.as_slice())?,
        }))
    }

    /// A kernel where a dump's events begin, with no event: newly booted, or in the state of a checkpoint, exactly where that
    /// can be restored. The error is want of memory.
    pub fn begin(
        alloc: Global,
        limits: &Limits,
        checkpoint: &Option<Checkpoint>,
    ) -> Result<Option<Replay>, NoMemory>
        ensures replay { IfOk result (λ begun. IfSome begun
            (IsReplay (start_with limits.now checkpoint.now))) }
        ensures empty { IfOk result (λ begun. IfSome begun (λ r. r.events.items ≡ [])) }
        ensures test { IfOk result (λ begun. is_some begun ≡ can_begin limits.now checkpoint.now) }
    {
        match checkpoint {
            None => Ok(Some(Replay::boot(alloc, limits)?)),
            Some(checkpoint) => Replay::restore(alloc, limits, checkpoint),
        }
    }
}

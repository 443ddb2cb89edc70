//! The state that a dump's events begin in.
ghost use Rattle.std.specs.Prelude.{◌≡◌, IfOk, IfSome, is_some};
ghost use Rattle.auditor.specs.Verdict.{can_begin};
ghost use Rattle.checkpoints.specs.Restorable.{is_restorable};
ghost use Rattle.checkpoints.specs.Restored.{restored};
ghost use Rattle.dump_text.specs.Whole.{start_with};
ghost use Rattle.kernel_rules.specs.Runs.{booted};
ghost use Rattle.plain_state.specs.StateOf.{state_of};

use base::{Limits, NoMemory};
use checkpoints::Checkpoint;
use plain_core::restoring::{RestoreFault, restore};
use plain_state::PlainState;
use std::alloc::Global;

/// The state of a boot. Limits out of their range are told as want of memory.
fn boot(alloc: Global, limits: &Limits) -> Result<PlainState, NoMemory>
    ensures { IfOk result (λ state. state_of state ≡ booted limits.now) }
{
    match PlainState::boot(alloc, limits) {
        Ok(state) => Ok(state),
        Err(_) => Err(NoMemory),
    }
}

/// The state that a checkpoint writes down, exactly where it can be restored. The error is want of memory.
fn restored(
    alloc: Global,
    limits: &Limits,
    checkpoint: &Checkpoint,
) -> Result<Option<PlainState>, NoMemory>
    ensures state { IfOk result (λ restored_state. IfSome restored_state (λ state.
        state_of state ≡ restored limits.now checkpoint.now)) }
    ensures test { IfOk result (λ restored_state. is_some restored_state
        ≡ is_restorable limits.now checkpoint.now) }
{
    match restore(alloc, limits, checkpoint) {
        Ok(state) => Ok(Some(state)),
        Err(RestoreFault::IllFormed) => Ok(None),
        Err(RestoreFault::NoMemory) => Err(NoMemory),
    }
}

/// The state that a dump's events begin in, a boot's or a checkpoint's, exactly where they can begin. The error is want of
/// memory.
pub fn begin(
    alloc: Global,
    limits: &Limits,
    checkpoint: &Option<Checkpoint>,
) -> Result<Option<PlainState>, NoMemory>
    ensures state { IfOk result (λ begun. IfSome begun (λ state.
        state_of state ≡ (start_with limits.now checkpoint.now).state)) }
    ensures test { IfOk result (λ begun. is_some begun ≡ can_begin limits.now checkpoint.now) }
{
    match checkpoint {
        None => Ok(Some(boot(alloc, limits)?)),
        Some(checkpoint) => restored(alloc, limits, checkpoint),
    }
}

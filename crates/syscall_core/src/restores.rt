//! What the arena kernel keeps of a checkpoint's state.
ghost use Rattle.std.specs.Prelude.{◌≡◌, ◌≢◌, ◌↔◌, false, IfOk, OnOk, IfErr, IsErrOf, None, Some};
ghost use Rattle.base.specs.Limits.{in_range};
ghost use Rattle.plain_state.specs.Recorded.{records_state};
ghost use Rattle.checkpoints.specs.Restored.{restored};
ghost use Rattle.arena_state.specs.States.{state_of};
ghost use Rattle.syscall_core.specs.Restored.{restore_refusal, IsKeepable};

use crate::kept_state::KeptState;
use arena_state::{ArenaState, are_younger};
use base::{Limits, Meter, NoMemory};
use checkpoints::Checkpoint;
use plain_core::restoring::{RestoreFault, restore};
use plain_state::Records;
use std::alloc::Global;
use thiserror::Error;

/// Why a checkpoint was not restored.
#[derive(Clone, Copy, PartialEq, Eq, Debug, Error)]
pub enum RestoreError {
    /// A limit is out of its range.
    #[error("bad limits")]
    BadLimits,
    /// 60: it can't be restored.
    #[error("ill-formed checkpoint")]
    IllFormed,
    /// A container lists another one that has no greater id than its own. The plain machine restores such a state, to which
    /// no calls of a boot lead.
    #[error("container older than its lister")]
    OlderContainer,
    /// There was no memory.
    #[error("out of memory")]
    NoMemory,
}

/// What is kept of the state that records are. The error is want of memory.
pub(crate) fn laid_out(alloc: Global, records: &Records) -> Result<KeptState, NoMemory>
    requires { IsKeepable (records_state records.now) }
    ensures { IfOk result (λ kept. state_of kept.state ≡ records_state records.now) }
{
    let mut meter = Meter::new(alloc)?;
    let state = ArenaState::of_records(alloc, records, &mut meter)?;
    let rows = state.new_rows(alloc, &mut meter)?;
    Ok(KeptState { state, rows })
}

/// What is kept of the state that a checkpoint writes down.
#[tactic(auto, using(crate::proofs::RestoreLaws::keepable))]
pub(crate) fn restored_state(
    alloc: Global,
    limits: &Limits,
    checkpoint: &Checkpoint,
) -> Result<KeptState, RestoreError>
    ensures state { IfOk result (λ kept. state_of kept.state ≡ restored limits.now checkpoint.now) }
    ensures fit { OnOk result (restore_refusal limits.now checkpoint.now ≡ None) }
    ensures limits { IsErrOf result RestoreError.BadLimits ↔ (in_range limits.now ≡ false) }
    ensures refused { IfErr result (λ error. error ≢ RestoreError.NoMemory
        → restore_refusal limits.now checkpoint.now ≡ Some error) }
{
    if !limits.is_in_range() {
        return Err(RestoreError::BadLimits);
    }
    let plain = match restore(alloc, limits, checkpoint) {
        Ok(plain) => plain,
        Err(RestoreFault::IllFormed) => return Err(RestoreError::IllFormed),
        Err(RestoreFault::NoMemory) => return Err(RestoreError::NoMemory),
    };
    let records = plain.records();
    if !are_younger(records) {
        return Err(RestoreError::OlderContainer);
    }
    match laid_out(alloc, records) {
        Ok(kept) => Ok(kept),
        Err(_) => Err(RestoreError::NoMemory),
    }
}

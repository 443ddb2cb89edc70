//! The state that a checkpoint writes down, where it can be restored.
ghost use Rattle.std.specs.Prelude.{◌≡◌, true, false, IfOk, OnOk, IfSome, is_some, IsErrOf, ◌&&◌};
ghost use Rattle.kernel_rules.specs.WellFormed.{ids_rise, is_well_formed};
ghost use Rattle.checkpoints.specs.Restorable.{is_restorable};
ghost use Rattle.checkpoints.specs.Restored.{restored};
ghost use Rattle.plain_state.specs.Recorded.{records_state};
ghost use Rattle.plain_state.specs.StateOf.{state_of};
ghost use Rattle.plain_core.specs.Holding.{holds, is_written_rightly};

use crate::restoring::building::build;
use crate::restoring::keeping::is_well_formed;
use crate::restoring::labels::are_made;
use crate::restoring::tests_of_names::{name_given, name_kinds};
use crate::restoring::tests_of_order::{are_threads_given, ids_rise, is_ordered};
use crate::restoring::tests_of_records::{
    are_entries_whole, are_starless, counters_within, has_root, list_rightly, map_rightly,
};
use base::{Limits, Meter, NoMemory};
use checkpoints::Checkpoint;
use plain_state::{PlainState, Records};
use std::alloc::Global;
use thiserror::Error;

/// Why a checkpoint was not restored.
#[derive(Clone, Copy, PartialEq, Eq, Debug, Error)]
pub enum RestoreFault {
    /// 60: it can't be restored.
    #[error("ill-formed checkpoint")]
    IllFormed,
    /// There was no memory.
    #[error("out of memory")]
    NoMemory,
}

fn is_written_rightly(checkpoint: &Checkpoint) -> bool
    ensures { result ≡ is_written_rightly checkpoint.now }
{
    is_ordered(checkpoint) && ids_rise(&checkpoint.objects) && are_threads_given(checkpoint)
}

fn holds(records: &Records, meter: &mut Meter) -> bool
    ensures { result ≡ holds (records_state records.now) }
{
    has_root(records)
        && name_given(records)
        && are_made(records, meter)
        && counters_within(records)
        && are_starless(records, meter)
        && list_rightly(records)
        && map_rightly(records)
        && name_kinds(records)
        && are_entries_whole(records)
}

fn are_restorable(alloc: Global, records: &Records, meter: &mut Meter) -> Result<bool, NoMemory>
    requires { ids_rise (records_state records.now).objects ≡ true }
    ensures { IfOk result (λ fit. fit
        ≡ (is_well_formed (records_state records.now) && holds (records_state records.now))) }
{
    if is_well_formed(alloc, records, meter)? {
        Ok(holds(records, meter))
    } else {
        Ok(false)
    }
}

/// The records that a checkpoint writes down, exactly where it can be restored. The error is want of
/// memory.
fn restored_records(
    alloc: Global,
    limits: &Limits,
    checkpoint: &Checkpoint,
    meter: &mut Meter,
) -> Result<Option<Records>, NoMemory>
    ensures state { IfOk result (λ restored_records. IfSome restored_records (λ records.
        records_state records ≡ restored limits.now checkpoint.now)) }
    ensures test { IfOk result (λ restored_records. is_some restored_records
        ≡ is_restorable limits.now checkpoint.now) }
{
    if !is_written_rightly(checkpoint) {
        return Ok(None);
    }
    let Some(records) = build(alloc, limits, checkpoint, meter)? else {
        return Ok(None);
    };
    if are_restorable(alloc, &records, meter)? {
        Ok(Some(records))
    } else {
        Ok(None)
    }
}

/// Whether a checkpoint can be restored. The error is want of memory.
pub fn is_restorable(
    alloc: Global,
    limits: &Limits,
    checkpoint: &Checkpoint,
    meter: &mut Meter,
) -> Result<bool, NoMemory>
    ensures { IfOk result (λ fit. fit ≡ is_restorable limits.now checkpoint.now) }
{
    match restored_records(alloc, limits, checkpoint, meter)? {
        None => Ok(false),
        Some(_) => Ok(true),
    }
}

/// The state that a checkpoint writes down, which is well formed. The error is `IllFormed` only where
/// the checkpoint can't be restored, and where it can't be, `IllFormed` or want of memory.
pub fn restore(
    alloc: Global,
    limits: &Limits,
    checkpoint: &Checkpoint,
) -> Result<PlainState, RestoreFault>
    ensures state { IfOk result (λ state. state_of state ≡ restored limits.now checkpoint.now) }
    ensures fit { OnOk result (is_restorable limits.now checkpoint.now ≡ true) }
    ensures ill_formed { IsErrOf result RestoreFault.IllFormed
        → is_restorable limits.now checkpoint.now ≡ false }
{
    let Ok(mut meter) = Meter::new(alloc) else {
        return Err(RestoreFault::NoMemory);
    };
    match restored_records(alloc, limits, checkpoint, &mut meter) {
        Err(_) => Err(RestoreFault::NoMemory),
        Ok(None) => Err(RestoreFault::IllFormed),
        Ok(Some(records)) => Ok(PlainState::of_records(alloc, records)),
    }
}

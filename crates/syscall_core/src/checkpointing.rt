//! A kept state that is copied, and one that is written down.
ghost use Rattle.std.specs.Prelude.{◌≡◌, true, IfOk};
ghost use Rattle.std.specs.List.{list_all};
ghost use Rattle.arena_state.specs.Restored.{IsHoldable};
ghost use Rattle.arena_state.specs.States.{state_of};
ghost use Rattle.checkpoints.specs.Reached.{is_plain};
ghost use Rattle.checkpoints.specs.Restorable.{each, filled_in, has_slots};
ghost use Rattle.checkpoints.specs.Restored.{restored};

use crate::kept_state::KeptState;
use crate::restores::laid_out;
use base::{Limits, Meter, NoMemory};
use checkpoints::{Checkpoint, NextNumber};
use plain_core::recording::records_of;
use plain_core::restoring::write;
use plain_state::PlainState;
use std::alloc::Global;

/// What is kept of the same state, laid out anew. The error is want of memory.
pub(crate) fn copied(
    alloc: Global,
    limits: &Limits,
    kept: &KeptState,
) -> Result<KeptState, NoMemory>
    requires holdable { IsHoldable (state_of kept.now.state) }
    requires limits { (state_of kept.now.state).limits ≡ limits.now }
    ensures { IfOk result (λ copy. state_of copy.state ≡ state_of kept.now.state) }
{
    let mut meter = Meter::new(alloc)?;
    let records = records_of(alloc, limits, kept, &mut meter)?;
    laid_out(alloc, &records)
}

/// The checkpoint that writes the state down, with these next numbers. The error is want of memory.
pub(crate) fn written(
    alloc: Global,
    limits: &Limits,
    kept: &KeptState,
    next: Vec<NextNumber>,
) -> Result<Checkpoint, NoMemory>
    requires plain { each is_plain (state_of kept.now.state) ≡ true }
    requires limits { (state_of kept.now.state).limits ≡ limits.now }
    ensures value { IfOk result (λ made. restored limits.now made ≡ state_of kept.now.state) }
    ensures slots { IfOk result (λ made.
        list_all (λ e. has_slots (filled_in e.object.body)) made.objects ≡ true) }
    ensures next { IfOk result (λ made. made.next ≡ next.items) }
{
    let mut meter = Meter::new(alloc)?;
    let records = records_of(alloc, limits, kept, &mut meter)?;
    let plain = PlainState::of_records(alloc, records);
    write(alloc, &plain, next, &mut meter)
}

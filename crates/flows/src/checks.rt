//! All flows outside a category.
ghost use Rattle.std.specs.Prelude.{ℕ, ◌≡◌, ◌↔◌, ◌++◌, [], false, IfOk, OnOk, IsErrOf, IsTrue};
ghost use Rattle.base.specs.Limits.{in_range};
ghost use Rattle.flow_rules.specs.Flows.{Flows};
ghost use Rattle.flows.specs.Carriers.{paired, pairs_of, starts, touches};
ghost use Rattle.plain_state.specs.StateOf.{state_of};
ghost use Rattle.flows.specs.Pairs.{has_pair, ids_rise, pairs_rise};
ghost use Rattle.base.specs.Live.{has};
ghost use Rattle.kernel_rules.specs.Runs.{booted};

use crate::carriers::{reached, starts};
use crate::plays::play_all;
use crate::touches::Touch;
use base::{Category, Limits, NoMemory, ObjectId};
use flow_rules::Step;
use plain_state::{BootRefusal, PlainState};
use std::alloc::Global;

/// Why flows are not told.
#[derive(Clone, Copy, PartialEq, Eq, Debug)]
pub enum FlowFault {
    /// A limit is out of its range.
    BadLimits,
    /// There is no memory.
    NoMemory,
}

// An object with each of these.
fn pair_up(
    pairs: &mut Vec<(ObjectId, ObjectId)>,
    start: ObjectId,
    ids: &[ObjectId],
) -> Result<(), NoMemory>
    ensures { OnOk result (pairs.new.items ≡ pairs.old.items ++ paired start ids.now) }
{
    for id in ids {
        pairs.push((start, *id))?;
    }
    Ok(())
}

// Each of these objects with each that is reached from it.
fn pairs_of(
    alloc: Global,
    touches: &[Touch],
    starts: &[ObjectId],
) -> Result<Vec<(ObjectId, ObjectId)>, NoMemory>
    ensures { IfOk result (λ pairs. pairs.items ≡ pairs_of touches.now starts.now) }
{
    let mut pairs = Vec::new(alloc);
    for start in starts {
        let found = reached(alloc, touches, *start)?;
        pair_up(&mut pairs, *start, &found)?;
    }
    Ok(pairs)
}

// All pairs of objects of which the second is reached from the first, where these steps are made from
// this state on.
fn flows_from(
    alloc: Global,
    state: &mut PlainState,
    steps: &[(ObjectId, Step)],
    category: Category,
) -> Result<Vec<(ObjectId, ObjectId)>, NoMemory>
    ensures { IfOk result (λ pairs. let ts = touches (state_of state.old) category.0 steps.now in
        pairs.items ≡ pairs_of ts (starts [] ts)) }
{
    let touches = play_all(alloc, state, category, steps)?;
    let starts = starts(alloc, &touches)?;
    pairs_of(alloc, &touches, &starts)
}

/// The ids of all objects that flows from one object outside the category reach, rising, each once, where
/// these steps are made from this state on. Want of memory is the only error.
pub fn flows_of(
    alloc: Global,
    mut state: PlainState,
    steps: &[(ObjectId, Step)],
    category: Category,
    start: ObjectId,
) -> Result<Vec<ObjectId>, NoMemory>
    ensures rising { IfOk result (λ ids. IsTrue (ids_rise ids.items)) }
    ensures exact { IfOk result (λ ids. (p : ℕ) → IsTrue (has ids.items p)
        ↔ Flows (state_of state) steps.now category.0 start p) }
{
    state.well_formed();
    let touches = play_all(alloc, &mut state, category, steps)?;
    let ids = reached(alloc, &touches, start)?;
    Ok(ids)
}

/// All pairs of objects with a flow outside the category from the first to the second, by rising first and
/// then second id, each once, where these steps are made from the boot with these limits. Each step is a
/// thread and its call; a refused one is no hand-over. The error is `BadLimits` exactly where a limit is out
/// of its range, and else `NoMemory`.
pub fn check_flows(
    alloc: Global,
    limits: &Limits,
    steps: &[(ObjectId, Step)],
    category: Category,
) -> Result<Vec<(ObjectId, ObjectId)>, FlowFault>
    ensures limits { IsErrOf result FlowFault.BadLimits ↔ (in_range limits.now ≡ false) }
    ensures rising { IfOk result (λ pairs. IsTrue (pairs_rise pairs.items)) }
    ensures exact { IfOk result (λ pairs. (o p : ℕ) → IsTrue (has_pair pairs.items o p)
        ↔ Flows (booted limits.now) steps.now category.0 o p) }
{
    let mut state = match PlainState::boot(alloc, limits) {
        Ok(state) => state,
        Err(BootRefusal::BadLimits) => return Err(FlowFault::BadLimits),
        Err(BootRefusal::Unavailable) => return Err(FlowFault::NoMemory),
    };
    match flows_from(alloc, &mut state, steps, category) {
        Ok(pairs) => Ok(pairs),
        Err(_) => Err(FlowFault::NoMemory),
    }
}

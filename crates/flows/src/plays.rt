//! Playing steps, and what is kept of them.
ghost use Rattle.std.specs.Prelude.{◌≡◌, ◌&&◌, not, IfOk, OnOk};
ghost use Rattle.flow_rules.specs.Touched.{after};
ghost use Rattle.flow_rules.specs.declared.steps.Step.TheVariants as step;
ghost use Rattle.flows.specs.Carriers.{touch_at, touches};
ghost use Rattle.kernel_rules.specs.Step.{next};
ghost use Rattle.plain_state.specs.StateOf.{state_of};

use crate::looks::{asks_owner, changes, is_owner, is_refusal, reads, sees, unless};
use crate::touches::Touch;
use base::{Category, Meter, NoMemory, ObjectId};
use flow_rules::Step;
use kernel_calls::{ask, step};
use kernel_rules::{Call, Query};
use plain_state::PlainState;
use std::alloc::Global;

// Whether the thread of an event stays outside.
fn is_outside(owned: bool, refused: bool, gate: bool) -> bool
    ensures { result ≡ (not owned && not (not refused && gate)) }
{
    !owned && !(!refused && gate)
}

// A write call.
fn write(
    state: &mut PlainState,
    category: Category,
    thread: ObjectId,
    call: &Call,
    meter: &mut Meter,
) -> Result<Touch, NoMemory>
    ensures touch { IfOk result (λ touch. touch
        ≡ touch_at (state_of state.old) category.0 (thread, step.Write call.now)) }
    ensures state { OnOk result (state_of state.new ≡ next (state_of state.old) thread call.now) }
{
    let owned = is_owner(state, category, thread, meter);
    let seen = sees(state, thread, call);
    let changed = changes(state, thread, call, meter);
    let gate = asks_owner(state, category, call, meter);
    let reply = match step(state, thread, call, meter) {
        Ok(reply) => reply,
        Err(fault) => return Err(fault),
    };
    let refused = is_refusal(&reply);
    Ok(Touch {
        thread,
        observed: unless(refused, seen),
        modified: unless(refused, changed),
        outside: is_outside(owned, refused, gate),
        owner: is_owner(state, category, thread, meter),
    })
}

// A query.
fn read(
    state: &PlainState,
    category: Category,
    thread: ObjectId,
    query: &Query,
    meter: &mut Meter,
) -> Touch
    ensures { result ≡ touch_at (state_of state.now) category.0 (thread, step.Read query.now) }
{
    let owner = is_owner(state, category, thread, meter);
    let seen = reads(state, thread, query);
    let refused = is_refusal(&ask(state, thread, query, meter));
    Touch {
        thread,
        observed: unless(refused, seen),
        modified: unless(true, seen),
        outside: !owner,
        owner,
    }
}

/// One step: what it does, and the state after it.
pub fn play(
    state: &mut PlainState,
    category: Category,
    thread: ObjectId,
    step: &Step,
    meter: &mut Meter,
) -> Result<Touch, NoMemory>
    ensures touch { IfOk result (λ touch. touch
        ≡ touch_at (state_of state.old) category.0 (thread, step.now)) }
    ensures state { OnOk result (state_of state.new ≡ after (state_of state.old) thread step.now) }
{
    match step {
        Step::Write(call) => write(state, category, thread, call, meter),
        Step::Read(query) => Ok(read(state, category, thread, query, meter)),
    }
}

/// Steps one after another.
pub fn play_all(
    alloc: Global,
    state: &mut PlainState,
    category: Category,
    steps: &[(ObjectId, Step)],
) -> Result<Vec<Touch>, NoMemory>
    ensures { IfOk result (λ all. all.items ≡ touches (state_of state.old) category.0 steps.now) }
{
    let mut meter = Meter::new(alloc)?;
    let mut all = Vec::with_capacity(alloc, steps.len())?;
    for step in steps {
        let touch = play(state, category, step.0, &step.1, &mut meter)?;
        all.push_reserved(touch);
    }
    Ok(all)
}

//! The state that calls lead to.
ghost use Rattle.std.specs.Prelude.{◌≡◌, map, OnOk};
ghost use Rattle.kernel_rules.specs.Events.{by, calls_in};
ghost use Rattle.kernel_rules.specs.History.{state_from};
ghost use Rattle.kernel_rules.specs.Runs.{state_after};
ghost use Rattle.plain_state.specs.StateOf.{state_of};

use base::{Meter, NoMemory, ObjectId};
use kernel_calls::step;
use kernel_rules::histories::{Answered, Event};
use plain_state::PlainState;

/// Makes calls of a thread. Want of memory is the only error, and leaves a state that some of the calls lead to.
pub fn make(
    state: &mut PlainState,
    thread: ObjectId,
    calls: &[Answered],
    meter: &mut Meter,
) -> Result<(), NoMemory>
    ensures { OnOk result (state_of state.new
        ≡ state_after (state_of state.old) (by thread (map (λ a. a.call) calls.now))) }
{
    for answered in calls {
        step(state, thread, &answered.call, meter)?;
    }
    Ok(())
}

/// Makes the calls of an event.
fn make_event(state: &mut PlainState, event: &Event, meter: &mut Meter) -> Result<(), NoMemory>
    ensures { OnOk result (state_of state.new
        ≡ state_after (state_of state.old) (by event.now.thread (calls_in event.now))) }
{
    make(state, event.thread, event.calls.as_slice(), meter)?;
    Ok(())
}

/// Makes the calls of events. Want of memory is the only error, and leaves a state that some of the calls lead to.
pub fn make_all(state: &mut PlainState, events: &[Event], meter: &mut Meter) -> Result<(), NoMemory>
    ensures { OnOk result (state_of state.new ≡ state_from (state_of state.old) events.now) }
{
    for event in events {
        make_event(state, event, meter)?;
    }
    Ok(())
}

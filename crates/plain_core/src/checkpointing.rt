//! Checkpoints of the states after events.
ghost use Rattle.std.specs.Prelude.{◌≡◌, true, nat_lt, map, IfOk, OnOk};
ghost use Rattle.std.specs.List.{list_all};
ghost use Rattle.base.specs.Limits.{in_range};
ghost use Rattle.base.specs.declared.ranges.Limits.{Limits as Booted};
ghost use Rattle.kernel_rules.specs.Runs.{state_after};
ghost use Rattle.kernel_rules.specs.Events.{by, calls_in};
ghost use Rattle.kernel_rules.specs.History.{state_of};
ghost use Rattle.checkpoints.specs.Reached.{IsSound};
ghost use Rattle.checkpoints.specs.Restorable.{is_restorable};
ghost use Rattle.checkpoints.specs.Starts.{IsCheckpointOf};
ghost use Rattle.plain_core.specs.Kernel.{kernel_state};

use crate::kernel::PlainKernel;
use crate::machine::Machine;
use crate::restoring::next_numbers;
use base::{Limits, Meter, NoMemory, ObjectId};
use checkpoints::Checkpoint;
use kernel_rules::histories::{Answered, Event};
use std::alloc::Global;

/// Makes the calls of a thread.
fn make(
    kernel: &mut PlainKernel,
    thread: ObjectId,
    calls: &[Answered],
    meter: &mut Meter,
) -> Result<(), NoMemory>
    ensures state { OnOk result (kernel_state kernel.new
        ≡ state_after (kernel_state kernel.old) (by thread (map (λ a. a.call) calls.now))) }
    ensures sound { OnOk result ((limits : Booted) → in_range limits ≡ true
        → IsSound limits (kernel_state kernel.old) → IsSound limits (kernel_state kernel.new)) }
{
    for answered in calls {
        kernel.well_formed();
        kernel.step(thread, &answered.call, meter)?;
        kernel.well_formed();
    }
    Ok(())
}

/// Makes the calls of an event.
fn make_event(kernel: &mut PlainKernel, event: &Event, meter: &mut Meter) -> Result<(), NoMemory>
    ensures state { OnOk result (kernel_state kernel.new
        ≡ state_after (kernel_state kernel.old) (by event.now.thread (calls_in event.now))) }
    ensures sound { OnOk result ((limits : Booted) → in_range limits ≡ true
        → IsSound limits (kernel_state kernel.old) → IsSound limits (kernel_state kernel.new)) }
{
    make(kernel, event.thread, event.calls.as_slice(), meter)?;
    Ok(())
}

/// The kernel after the calls of events, from a boot.
fn played(
    alloc: Global,
    limits: &Limits,
    events: &[Event],
    meter: &mut Meter,
) -> Result<PlainKernel, NoMemory>
    requires { in_range limits.now ≡ true }
    ensures state { IfOk result (λ kernel. kernel_state kernel ≡ state_of limits.now events.now) }
    ensures sound { IfOk result (λ kernel. IsSound limits.now (kernel_state kernel)) }
{
    let mut kernel = match PlainKernel::boot(alloc, limits) {
        Ok(kernel) => kernel,
        Err(_) => return Err(NoMemory),
    };
    for event in events {
        make_event(&mut kernel, event, meter)?;
    }
    Ok(kernel)
}

/// The checkpoint of the state after the calls of events, from a boot, and for each thread of them, as its next number, one
/// more than the count of its events. It can be restored where each of these threads is below the next id there, so with no
/// events too. The error is want of memory.
pub fn checkpoint(alloc: Global, limits: &Limits, events: &[Event]) -> Result<Checkpoint, NoMemory>
    requires { in_range limits.now ≡ true }
    ensures written { IfOk result (IsCheckpointOf limits.now events.now) }
    ensures restorable { IfOk result (λ made.
        list_all (λ e. nat_lt e.thread made.next_id) events.now ≡ true
        → is_restorable limits.now made ≡ true) }
{
    let mut meter = Meter::new(alloc)?;
    let kernel = played(alloc, limits, events, &mut meter)?;
    kernel.well_formed();
    let next = next_numbers(alloc, events)?;
    let made = kernel.write(alloc, next, &mut meter)?;
    Ok(made)
}

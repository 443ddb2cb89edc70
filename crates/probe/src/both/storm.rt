//! Both machines beside each other, compared again and again.
use super::plain::Step;
use super::rows::keeps_rows;
use base::{Limits, Meter, NoMemory};
use call_text::Asked;
use happy_calls::samples::are_equal;
use plain_core::{Machine, PlainKernel};
use std::alloc::Global;
use syscall_core::Kernel;

/// Makes a step on both, where it is a call.
fn step_both(
    arena: &mut Kernel,
    plain: &mut PlainKernel,
    step: &Step,
    meter: &mut Meter,
) -> Result<(), NoMemory> {
    let Asked::Write(call) = &step.asked else {
        return Ok(());
    };
    arena.step_surely(step.thread, call, meter);
    match plain.step(step.thread, call, meter) {
        Ok(_) => Ok(()),
        Err(error) => Err(error),
    }
}

/// Whether both keep the same, and the arena kernel just the rows of translation that its tables show.
fn keep_same(
    arena: &mut Kernel,
    plain: &mut PlainKernel,
    meter: &mut Meter,
) -> Result<bool, NoMemory> {
    let tables = arena.tables(meter)?;
    let others = plain.tables(meter)?;
    let are_same = are_equal(&tables, &others);
    Ok(are_same && keeps_rows(arena, &tables, meter))
}

/// The number of the first line after which they keep something else, where they are compared after so many lines each.
fn first_apart(
    arena: &mut Kernel,
    plain: &mut PlainKernel,
    steps: &[Step],
    every: u64,
    meter: &mut Meter,
) -> Result<Option<u32>, NoMemory> {
    let mut left = every;
    for step in steps {
        step_both(arena, plain, step, meter)?;
        left = left.saturating_sub(1);
        if left == 0 {
            left = every;
            if !keep_same(arena, plain, meter)? {
                return Ok(Some(step.number));
            }
        }
    }
    Ok(None)
}

/// The same beside a plain kernel that is booted for it.
fn apart_from_plain(
    arena: &mut Kernel,
    alloc: Global,
    limits: &Limits,
    steps: &[Step],
    every: u64,
    meter: &mut Meter,
) -> Result<Option<u32>, NoMemory> {
    match PlainKernel::boot(alloc, limits) {
        Ok(mut plain) => first_apart(arena, &mut plain, steps, every, meter),
        Err(_) => Err(NoMemory),
    }
}

/// The same of two kernels that are booted for it. (Who owns a kernel leaves the work to what borrows it.)
pub fn parted(
    alloc: Global,
    limits: &Limits,
    steps: &[Step],
    every: u64,
) -> Result<Option<u32>, NoMemory> {
    let mut meter = Meter::new(alloc)?;
    match Kernel::boot(alloc, limits) {
        Ok(mut arena) => apart_from_plain(&mut arena, alloc, limits, steps, every, &mut meter),
        Err(_) => Err(NoMemory),
    }
}

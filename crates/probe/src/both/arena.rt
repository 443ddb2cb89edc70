//! The same calls on the arena kernel.
use super::plain::Step;
use super::rows::keeps_rows;
use base::{Limits, Meter, NoMemory};
use call_text::Asked;
use program_io::Fault;
use std::alloc::Global;
use syscall_core::{Kernel, Reply, Tables};

/// What the arena kernel answered.
#[derive(Drop)]
pub struct Replies {
    /// Its reply to each step.
    pub replies: Vec<Reply>,
    /// The tables at the end.
    pub tables: Tables,
    /// Whether the rows of translation that it keeps then are those of the tables.
    pub keeps_rows: bool,
}

/// What a kernel keeps at the end.
#[derive(Drop)]
struct Keeping {
    tables: Tables,
    keeps_rows: bool,
}

fn answer(kernel: &mut Kernel, step: &Step, meter: &mut Meter) -> Reply {
    match &step.asked {
        Asked::Write(call) => kernel.step_surely(step.thread, call, meter),
        Asked::Read(query) => kernel.ask_surely(step.thread, query, meter),
    }
}

/// The replies to all steps. Where the list has room for them, only the calls could take memory.
fn answer_all(
    kernel: &mut Kernel,
    steps: &[Step],
    meter: &mut Meter,
    replies: &mut Vec<Reply>,
) -> Result<(), NoMemory> {
    for step in steps {
        let reply = answer(kernel, step, meter);
        replies.push(reply)?;
    }
    Ok(())
}

/// What a booted kernel keeps after all steps, whose replies are added.
fn kept_after(
    rt: &HostRuntime,
    kernel: &mut Kernel,
    steps: &[Step],
    meter: &mut Meter,
    replies: &mut Vec<Reply>,
) -> Result<Keeping, Fault> {
    if println!(rt; "booted").is_err() {
        return Err(Fault::Output);
    }
    answer_all(kernel, steps, meter, replies)?;
    if println!(rt; "played {}", replies.len()).is_err() {
        return Err(Fault::Output);
    }
    let tables = kernel.tables(meter)?;
    let keeps_rows = keeps_rows(kernel, &tables, meter);
    Ok(Keeping { tables, keeps_rows })
}

/// The same of a kernel that is booted for it. (Who owns a kernel has no place to leave early: its drop would be written out
/// at each.)
fn kept_of_new(
    rt: &HostRuntime,
    alloc: Global,
    limits: &Limits,
    steps: &[Step],
    meter: &mut Meter,
    replies: &mut Vec<Reply>,
) -> Result<Keeping, Fault> {
    match Kernel::boot(alloc, limits) {
        Ok(mut kernel) => kept_after(rt, &mut kernel, steps, meter, replies),
        Err(_) => Err(Fault::Memory),
    }
}

/// Makes all calls of these steps on a newly booted arena kernel. It prints `booted` when all that they need is there, and
/// `played` with their number when they are made.
pub fn asked_again(
    rt: &HostRuntime,
    alloc: Global,
    steps: &[Step],
    limits: &Limits,
) -> Result<Replies, Fault> {
    let mut meter = Meter::new(alloc)?;
    let Ok(mut replies) = Vec::with_capacity(alloc, steps.len()) else {
        return Err(Fault::Memory);
    };
    let Keeping { tables, keeps_rows } = kept_of_new(
        rt,
        alloc,
        limits,
        steps,
        &mut meter,
        &mut replies,
    )?;
    Ok(Replies {
        replies,
        tables,
        keeps_rows,
    })
}

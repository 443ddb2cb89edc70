//! The calls of events and the queries of reads as steps.
ghost use Rattle.std.specs.Prelude.{◌≡◌, ◌++◌, map, IfOk, OnOk};
ghost use Rattle.auditor.specs.Steps.{read_step, steps_by, steps_of};

use base::{NoMemory, ObjectId};
use dump_text::{PlacedRead, part_reads};
use flow_rules::Step;
use kernel_rules::histories::{Answered, Event};
use kernel_rules::{Call, Query};
use std::alloc::Global;

/// Adds calls of one thread, as its steps.
fn add_calls(
    steps: &mut Vec<(ObjectId, Step)>,
    thread: ObjectId,
    calls: &[Answered],
) -> Result<(), NoMemory>
    ensures { OnOk result (steps.new.items ≡ steps.old.items ++ steps_by thread calls.now) }
{
    let _named: Option<Query> = None;
    for answered in calls {
        steps.push((thread, Step::Write(answered.call)))?;
    }
    Ok(())
}

/// Adds the calls of an event.
fn add_event(steps: &mut Vec<(ObjectId, Step)>, event: &Event) -> Result<(), NoMemory>
    ensures { OnOk result (steps.new.items
        ≡ steps.old.items ++ steps_by event.now.thread event.now.calls) }
{
    add_calls(steps, event.thread, event.calls.as_slice())?;
    Ok(())
}

/// Adds queries.
fn add_reads(steps: &mut Vec<(ObjectId, Step)>, reads: &[PlacedRead]) -> Result<(), NoMemory>
    ensures { OnOk result (steps.new.items ≡ steps.old.items ++ map read_step reads.now) }
{
    let _named: Option<Call> = None;
    for placed in reads {
        steps.push((placed.read.thread, Step::Read(placed.read.query)))?;
    }
    Ok(())
}

/// The calls of events and the queries of the reads among them, one after another, each as a step of its thread. The error is
/// want of memory.
pub fn steps_of(
    alloc: Global,
    events: &[Event],
    reads: &[PlacedRead],
) -> Result<Vec<(ObjectId, Step)>, NoMemory>
    ensures { IfOk result (λ steps. steps.items ≡ steps_of events.now reads.now) }
{
    let mut steps = Vec::new(alloc);
    let mut rest = reads;
    for place in 0..events.len() {
        let (here, past) = part_reads(place, rest);
        add_reads(&mut steps, here)?;
        add_event(&mut steps, &events[place])?;
        rest = past;
    }
    let (here, _) = part_reads(events.len(), rest);
    add_reads(&mut steps, here)?;
    Ok(steps)
}

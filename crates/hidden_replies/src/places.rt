//! The calls and reads of a dump, each with its place.
ghost use Rattle.std.specs.Prelude.{◌≡◌, ◌++◌, IfOk, OnOk};
ghost use Rattle.hidden_replies.specs.Places.{placed, placed_by, placed_reads};

use crate::differences::Placed;
use base::{NoMemory, ObjectId};
use call_text::Asked;
use dump_text::{PlacedRead, part_reads};
use kernel_rules::histories::{Answered, Event};
use kernel_rules::{Call, Query};
use std::alloc::Global;

/// Adds the calls of an event.
fn place_calls(
    all: &mut Vec<Placed>,
    event: u64,
    thread: ObjectId,
    calls: &[Answered],
) -> Result<(), NoMemory>
    ensures { OnOk result (all.new.items ≡ all.old.items ++ placed_by event 1 thread calls.now) }
{
    // (a type that what is asked has, which the proof names)
    let _named: Option<Query> = None;
    let mut place = 1u64;
    for answered in calls {
        all.push(Placed {
            event,
            place,
            thread,
            asked: Asked::Write(answered.call),
        })?;
        place += 1;
    }
    Ok(())
}

/// Adds the calls of an event.
fn place_event(all: &mut Vec<Placed>, place: u64, event: &Event) -> Result<(), NoMemory>
    ensures { OnOk result (all.new.items
        ≡ all.old.items ++ placed_by place 1 event.now.thread event.now.calls) }
{
    place_calls(all, place, event.thread, event.calls.as_slice())?;
    Ok(())
}

/// Adds the reads after so many events.
fn place_reads(all: &mut Vec<Placed>, event: u64, reads: &[PlacedRead]) -> Result<(), NoMemory>
    ensures { OnOk result (all.new.items ≡ all.old.items ++ placed_reads event 1 reads.now) }
{
    // (the same)
    let _named: Option<Call> = None;
    let mut place = 1u64;
    for placed in reads {
        all.push(Placed {
            event,
            place,
            thread: placed.read.thread,
            asked: Asked::Read(placed.read.query),
        })?;
        place += 1;
    }
    Ok(())
}

/// The calls of events and the reads among them, one after another, each with its place. The error is want of memory.
pub fn placed(
    alloc: Global,
    events: &[Event],
    reads: &[PlacedRead],
) -> Result<Vec<Placed>, NoMemory>
    ensures { IfOk result (λ all. all.items ≡ placed events.now reads.now) }
{
    let mut all = Vec::new(alloc);
    let mut rest = reads;
    for number in 0..events.len() {
        let (here, past) = part_reads(number, rest);
        place_reads(&mut all, number as u64, here)?;
        place_event(&mut all, number as u64 + 1, &events[number])?;
        rest = past;
    }
    let (here, _) = part_reads(events.len(), rest);
    place_reads(&mut all, events.len() as u64, here)?;
    Ok(all)
}

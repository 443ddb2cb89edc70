//! Checkpoints to restore.
use anyhow::Result;
use base::{Limits, NoMemory, ObjectId};
use happy_calls::look::Look;
use happy_calls::samples::{LIMITS, boot_thread};
use kernel_rules::{Call, IdList, Mapping, Reply};
use plain_core::{Answered, Checkpoint, Event, PlainKernel, RestoreFault, checkpoint};
use std::alloc::Global;

/// Adds a call, whose reply a checkpoint doesn't read.
fn add_call(calls: &mut Vec<Answered>, call: &Call) -> Result<(), NoMemory> {
    let _named: Option<Mapping> = None;
    let answered = Answered {
        call: *call,
        reply: Reply::Done,
    };
    let (_call, _reply) = (&answered.call, &answered.reply);
    calls.push(answered)?;
    Ok(())
}

/// Adds an event of a thread, whose number a checkpoint doesn't read.
pub fn add_event(
    alloc: Global,
    events: &mut Vec<Event>,
    thread: ObjectId,
    batch: &[Call],
) -> Result<(), NoMemory> {
    let mut calls = Vec::new(alloc);
    for call in batch {
        add_call(&mut calls, call)?;
    }
    events.push(Event {
        thread,
        number: 1,
        calls,
    })?;
    Ok(())
}

/// An event of the boot thread for each of these calls.
pub fn events_of(alloc: Global, calls: &[Call]) -> Result<Vec<Event>, NoMemory> {
    let mut events = Vec::new(alloc);
    for call in calls {
        add_event(alloc, &mut events, boot_thread(), &[*call])?;
    }
    Ok(events)
}

/// The checkpoint after events, with limits in range.
pub fn after(alloc: Global, limits: &Limits, events: &[Event]) -> Result<Checkpoint, NoMemory> {
    if limits.is_in_range() {
        checkpoint(alloc, limits, events)
    } else {
        Err(NoMemory)
    }
}

/// The checkpoint of a boot.
pub fn booted(alloc: Global) -> Result<Checkpoint, NoMemory> {
    after(alloc, &LIMITS, &[])
}

/// 0 where it is restored, 60 where it is ill formed, and 30 where there was no memory.
pub fn outcome(alloc: Global, limits: &Limits, checkpoint: &Checkpoint) -> u8 {
    match PlainKernel::restore(alloc, limits, checkpoint) {
        Ok(_) => 0,
        Err(RestoreFault::IllFormed) => 60,
        Err(RestoreFault::NoMemory) => 30,
    }
}

/// A list of these ids, so many times over.
pub fn list_of(alloc: Global, ids: &[u64], times: usize) -> Result<IdList, NoMemory> {
    let mut list = IdList::new(alloc);
    for _ in 0..times {
        for id in ids {
            list.push(ObjectId::new(*id))?;
        }
    }
    Ok(list)
}

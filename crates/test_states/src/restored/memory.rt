//! Checkpoints without memory: what is made again is what it would have been.
use super::played_on::begun;
use super::samples::{after, events_of, list_of, outcome};
use anyhow::Result;
use base::{Limits, NoMemory, ObjectId};
use happy_calls::look::{Look, agree};
use happy_calls::samples::LIMITS;
use plain_core::{Checkpoint, Event, RawBody};
use std::alloc::Global;

// The checkpoint, made once more where there was no memory.
fn after_again(alloc: Global, limits: &Limits, events: &[Event]) -> Result<Checkpoint, NoMemory> {
    match after(alloc, limits, events) {
        Ok(made) => Ok(made),
        Err(_) => after(alloc, limits, events),
    }
}

// What a restore answers, asked once more where there was no memory.
fn outcome_again(alloc: Global, limits: &Limits, checkpoint: &Checkpoint) -> u8 {
    match outcome(alloc, limits, checkpoint) {
        30 => outcome(alloc, limits, checkpoint),
        told => told,
    }
}

// The events, made once more where there was no memory.
fn begun_again(alloc: Global) -> Result<Vec<Event>, NoMemory> {
    match events_of(alloc, &begun()) {
        Ok(events) => Ok(events),
        Err(_) => events_of(alloc, &begun()),
    }
}

fn want_of_memory_spoils_no_checkpoint(alloc: Global, look: &mut Look) -> Result<()> {
    look.part("want_of_memory_spoils_no_checkpoint");
    let events = begun_again(alloc)?;
    let mut made = after_again(alloc, &LIMITS, events.as_slice())?;
    look.sees(agree(made.objects.len(), 8));
    look.sees(agree(made.next.len(), 1));
    look.sees(agree(outcome_again(alloc, &LIMITS, &made), 0));
    if let Some(root) = made.objects.get_mut(0) {
        if let RawBody::Container(_, _, list) = &mut root.object.body {
            *list = match list_of(alloc, &[2, 3], 1) {
                Ok(list) => list,
                Err(_) => list_of(alloc, &[2, 3], 1)?,
            };
        }
    }
    look.sees(agree(outcome_again(alloc, &LIMITS, &made), 60));
    look.sees(agree(made.next_id, ObjectId::new(9).number()));
    Ok(())
}

/// Plays what is made again where there was no memory.
pub fn again(alloc: Global, look: &mut Look) -> Result<()> {
    want_of_memory_spoils_no_checkpoint(alloc, look)
}

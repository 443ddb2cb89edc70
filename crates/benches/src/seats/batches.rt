//! Batches of sixteen calls beside sixteen calls one by one, through one seat.
use super::desks::Desk;
use super::samples::new_page;
use crate::asked::unref;
use crate::timing::nanos_since;
use anyhow::{Result, bail};
use base::ObjectId;
use kernel_rules::{Call, Reply};
use published_copy::{Naming, Seat};
use std::alloc::Global;
use std::rt::Clock;
use std::sync::Wait;
use std::time::Instant;

/// How many calls a batch has.
pub const CALLS: usize = 16;

fn creations(alloc: Global) -> Result<Vec<Call>> {
    let mut calls = Vec::with_capacity(alloc, CALLS)?;
    for _ in 0..CALLS {
        calls.push(new_page())?;
    }
    Ok(calls)
}

/// The ends of sixteen segments that were made one after another, of which this is the first.
fn ends(alloc: Global, first: ObjectId) -> Result<Vec<Call>> {
    let mut calls = Vec::with_capacity(alloc, CALLS)?;
    for place in 0..CALLS as u64 {
        let id = ObjectId::new(first.number().saturating_add(place));
        calls.push(unref(ObjectId::root(), id))?;
    }
    Ok(calls)
}

fn made(reply: Option<&Reply>) -> Result<ObjectId> {
    match reply {
        Some(Reply::Object(id)) => Ok(*id),
        _ => bail!("no segment"),
    }
}

/// Sixteen calls as one event, and what the first of them made, where it made something.
fn in_one<B: Naming, R: Wait>(rt: &R, seat: &mut Seat<'_, B>, calls: &[Call]) -> Result<ObjectId> {
    let receipt = seat.submit_batch(rt, calls)?;
    match receipt.replies.first() {
        Some(Reply::Done) => Ok(ObjectId::root()),
        reply => made(reply),
    }
}

fn one_by_one<B: Naming, R: Wait>(
    rt: &R,
    seat: &mut Seat<'_, B>,
    calls: &[Call],
) -> Result<ObjectId> {
    let mut last = ObjectId::root();
    let mut reply = Reply::Done;
    for call in calls {
        seat.submit_into(rt, call, &mut reply)?;
        if let Reply::Object(id) = reply {
            last = id;
        }
    }
    Ok(last)
}

fn make_batches<B: Naming, R: Wait>(
    rt: &R,
    alloc: Global,
    seat: &mut Seat<'_, B>,
    rounds: u64,
) -> Result<()> {
    let calls = creations(alloc)?;
    for _ in 0..rounds {
        let first = in_one(rt, seat, calls.as_slice())?;
        let ends = ends(alloc, first)?;
        in_one(rt, seat, ends.as_slice())?;
    }
    Ok(())
}

fn make_singly<B: Naming, R: Wait>(
    rt: &R,
    alloc: Global,
    seat: &mut Seat<'_, B>,
    rounds: u64,
) -> Result<()> {
    let calls = creations(alloc)?;
    for _ in 0..rounds {
        let last = one_by_one(rt, seat, calls.as_slice())?;
        let first = ObjectId::new(last.number().saturating_sub(CALLS as u64 - 1));
        let ends = ends(alloc, first)?;
        one_by_one(rt, seat, ends.as_slice())?;
    }
    Ok(())
}

/// The nanoseconds in which a seat makes sixteen segments and takes them away again so often, each sixteen as one batch,
/// and in which it does so call by call.
pub fn time_both<B: Naming, R: Wait + Clock>(
    rt: &R,
    alloc: Global,
    desk: &Desk<'_, B>,
    rounds: u64,
) -> Result<(u64, u64)> {
    let mut seat = desk.value.lock(rt);
    let start = Instant::now(rt)?;
    let batched = make_batches(rt, alloc, &mut seat, rounds);
    let together = nanos_since(rt, start)?;
    let start = Instant::now(rt)?;
    let singly = make_singly(rt, alloc, &mut seat, rounds);
    let apart = nanos_since(rt, start)?;
    batched?;
    singly?;
    Ok((together, apart))
}

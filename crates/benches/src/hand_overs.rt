//! Times `check_flows` over steps of the first thread, which reads one segment after another, and writes others.
use crate::asked::{asker, everywhere, in_root, new_segment};
use crate::seats::LIMITS;
use crate::timing::nanos_since;
use crate::words::size_at;
use anyhow::Result;
use base::{Category, Data, Level, ObjectId};
use flows::{Step, check_flows};
use kernel_rules::{Call, Query};
use std::alloc::{AllocError, Global};
use std::rt::Clock;
use std::time::Instant;

/// How it is asked for.
pub const USAGE: &str = "benches flows SEGMENTS STEPS
SEGMENTS is 1 to 200.";

// One of the segments, of which the first has the id 4.
fn segment(place: usize, segments: usize) -> ObjectId {
    let place = place % segments.max(1);
    ObjectId::new((place as u64).saturating_add(4))
}

// What is done after the segments were made: to read one and write another in turn, in an order with no pattern.
fn step(place: usize, segments: usize) -> Step {
    if place % 2 == 0 {
        return Step::Read(Query::SegmentRead {
            entry: in_root(segment(place.wrapping_mul(769) / 2, segments)),
            offset: 0,
            count: 1,
        });
    }
    Step::Write(Call::SegmentWrite {
        entry: in_root(segment(place.wrapping_mul(967) / 2, segments)),
        offset: 0,
        data: Data::from_slice(b"A"),
    })
}

// The steps: so many segments are made, and then so many others.
fn steps_of(
    alloc: Global,
    segments: usize,
    count: usize,
) -> Result<Vec<(ObjectId, Step)>, AllocError> {
    // For the proof alone: this names a type that a step holds.
    let _named: Option<Query> = None;
    let mut steps = Vec::new(alloc);
    for _ in 0..segments {
        steps.push((asker(), Step::Write(new_segment(&everywhere(Level::L1), 1))))?;
    }
    for place in 0..count {
        steps.push((asker(), step(place, segments)))?;
    }
    Ok(steps)
}

/// Runs what the words ask for. False where they ask for nothing.
pub fn run(rt: &(impl Clock + Print), alloc: Global, words: &[String]) -> Result<bool> {
    let (Some(segments), Some(count)) = (size_at(words, 2), size_at(words, 3)) else {
        return Ok(false);
    };
    if segments < 1 || 200 < segments {
        return Ok(false);
    }
    let steps = steps_of(alloc, segments, count)?;
    let start = Instant::now(rt)?;
    let pairs = match check_flows(alloc, &LIMITS, steps.as_slice(), Category(1)) {
        Ok(pairs) => pairs.len(),
        Err(_) => 0,
    };
    let micros = nanos_since(rt, start)? / 1_000;
    println!(rt; "{segments} segments, {count} steps: {micros} us, {pairs} pairs")?;
    Ok(true)
}

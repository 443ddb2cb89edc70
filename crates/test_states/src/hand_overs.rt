//! The flows of a worked run: the boot thread 2 makes category 1, two segments and a thread, and this
//! thread reads the one segment and writes the other.
use anyhow::{Result, bail};
use base::{Category, Data, Level, Limits, ObjectId};
use flows::{FlowFault, Step, check_flows, flows_of};
use happy_calls::look::Look;
use happy_calls::samples::{LIMITS, boot_thread, in_root, label_with, new_segment};
use kernel_rules::{Call, NewThread, Query};
use label_lattice::RawLabel;
use plain_state::PlainState;
use std::alloc::Global;

fn secret() -> RawLabel {
    label_with(Level::L3, Level::L1)
}

/// A thread that is cleared for category 1 and does not own it.
fn reader() -> Call {
    Call::ThreadCreate(NewThread {
        container: ObjectId::root(),
        label: secret(),
        quota: 1,
        clearance: label_with(Level::L3, Level::L2),
        entry_point: 0,
    })
}

fn first_byte() -> Query {
    Query::SegmentRead {
        entry: in_root(4),
        offset: 0,
        count: 1,
    }
}

fn written() -> Call {
    Call::SegmentWrite {
        entry: in_root(5),
        offset: 0,
        data: Data::from_slice(b"A"),
    }
}

fn steps() -> [(ObjectId, Step); 6] {
    let (boot, reading) = (boot_thread(), ObjectId::new(6));
    [
        (boot, Step::Write(Call::CatCreate)),
        (boot, Step::Write(new_segment(secret()))),
        (boot, Step::Write(new_segment(secret()))),
        (boot, Step::Write(reader())),
        (reading, Step::Read(first_byte())),
        (reading, Step::Write(written())),
    ]
}

/// The pairs, found once more where there was no memory.
fn found_again(
    alloc: Global,
    limits: &Limits,
    category: Category,
) -> Result<Vec<(ObjectId, ObjectId)>, FlowFault> {
    let steps = steps();
    match check_flows(alloc, limits, &steps, category) {
        Ok(pairs) => Ok(pairs),
        Err(_) => check_flows(alloc, limits, &steps, category),
    }
}

fn are_numbered(pairs: &[(ObjectId, ObjectId)], wanted: &[(u64, u64)]) -> bool {
    pairs.len() == wanted.len()
        && pairs.iter().zip(wanted.iter()).all(|(pair, numbers)| pair.0.number() == numbers.0
            && pair.1.number() == numbers.1)
}

fn want_of_memory_tells_no_other_flows(alloc: Global, look: &mut Look) -> Result<()> {
    look.part("want_of_memory_tells_no_other_flows");
    let guarded = [(1, 5), (4, 5), (5, 5)];
    let Ok(pairs) = found_again(alloc, &LIMITS, Category(1)) else {
        return bail!("no answer");
    };
    look.sees(are_numbered(&pairs, &guarded));
    let open = [(1, 1), (1, 4), (1, 5), (1, 6), (4, 5), (5, 5)];
    let Ok(pairs) = found_again(alloc, &LIMITS, Category(2)) else {
        return bail!("no answer");
    };
    look.sees(are_numbered(&pairs, &open));
    let few = Limits { pages: 7, ..LIMITS };
    look.sees(matches!(
        found_again(alloc, &few, Category(1)),
        Err(FlowFault::BadLimits)
    ));
    Ok(())
}

fn one_object_reaches_what_was_written(alloc: Global, look: &mut Look) -> Result<()> {
    look.part("one_object_reaches_what_was_written");
    let state = PlainState::boot(alloc, &LIMITS)?;
    let steps = steps();
    let reached = flows_of(alloc, state, &steps, Category(1), ObjectId::new(4))?;
    look.sees(reached.as_slice() == [ObjectId::new(5)].as_slice());
    Ok(())
}

/// Plays what there is memory for.
pub fn play(alloc: Global, look: &mut Look) -> Result<()> {
    one_object_reaches_what_was_written(alloc, look)
}

/// Plays what is made again where there was no memory.
pub fn again(alloc: Global, look: &mut Look) -> Result<()> {
    want_of_memory_tells_no_other_flows(alloc, look)
}

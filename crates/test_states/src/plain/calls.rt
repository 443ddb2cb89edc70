//! The plain machine on its happy path.
use super::cases::{Case, play_case};
use super::samples::{make, secret};
use anyhow::{Result, bail};
use base::{Category, Data, Meter, NoMemory, Refusal};
use happy_calls::look::{Look, agree};
use happy_calls::samples::{
    LIMITS, answered, boot_thread, in_root, is_object, new_container, new_segment,
};
use plain_core::{
    BootRefusal, Call, Entry, Machine, Mapping, NewSegment, PlainKernel, Query, Reply, run,
};
use std::alloc::Global;

/// What refuses a read of the boot thread.
fn refused(
    kernel: &PlainKernel,
    query: &Query,
    meter: &mut Meter,
) -> Result<Option<Refusal>, NoMemory> {
    answered(kernel.ask(boot_thread(), query, meter))
}

/// A segment is made in a container, and read past its end.
pub fn write(look: &mut Look, kernel: &mut PlainKernel, meter: &mut Meter) -> Result<()> {
    kernel.well_formed();
    look.sees(make(kernel, &Call::CatCreate, meter)?.is_none());
    let Some(container) = make(kernel, &new_container(8), meter)? else {
        return bail!("no container");
    };
    look.sees(agree(container.number(), 4));
    let segment = Call::SegmentCreate(NewSegment {
        container,
        label: secret(),
        quota: 2,
        pages: 1,
    });
    let Some(segment) = make(kernel, &segment, meter)? else {
        return bail!("no segment");
    };
    look.sees(agree(segment.number(), 5));
    let entry = Entry {
        container,
        object: segment,
    };
    let past = Query::SegmentRead {
        entry,
        offset: 255,
        count: 2,
    };
    let Some(refusal) = refused(kernel, &past, meter)? else {
        return bail!("no refusal");
    };
    look.sees(agree(refusal.number(), 18));
    Ok(())
}

fn a_write_is_read(alloc: Global, look: &mut Look) -> Result<()> {
    look.part("a_write_is_read");
    play_case(look, alloc, Case::Write)
}

// Whether the boot thread reads these bytes.
fn is_read(
    kernel: &mut PlainKernel,
    read: &Query,
    bytes: &[u8],
    meter: &mut Meter,
) -> Result<bool> {
    // (types that a reply has, which the proof names)
    let _reply: Option<Reply> = None;
    let _mapping: Option<Mapping> = None;
    let reply = kernel.ask(boot_thread(), read, meter)?;
    Ok(match &reply {
        Reply::Bytes(found) => agree(found.as_slice(), bytes),
        _ => false,
    })
}

/// Three calls are run, and what they wrote is read.
pub fn run_three(
    look: &mut Look,
    alloc: Global,
    kernel: &mut PlainKernel,
    meter: &mut Meter,
) -> Result<()> {
    let bytes = [
        0, 1, 2, 3, 4, 5, 6, 7, 8, 9, 10, 11, 12, 13, 14, 15, 16, 17, 18, 19, 20, 21, 22, 23, 24,
        25, 26, 27, 28, 29, 30, 31, 32, 33, 34, 35, 36, 37, 38, 39, 40, 41, 42, 43, 44, 45, 46, 47,
        48, 49, 50, 51, 52, 53, 54, 55, 56, 57, 58, 59, 60, 61, 62, 63,
    ];
    let boot = boot_thread();
    let entry = in_root(4);
    let write = Call::SegmentWrite {
        entry,
        offset: 0,
        data: Data::from_slice(&bytes),
    };
    let calls = [
        (boot, Call::CatCreate),
        (boot, new_segment(secret())),
        (boot, write),
    ];
    let replies = run(alloc, kernel, &calls)?;
    look.sees(agree(replies.len(), 3));
    look.sees(matches!(replies[0], Reply::Category(Category(1))));
    look.sees(is_object(replies[1], 4));
    look.sees(matches!(replies[2], Reply::Done));
    let read = Query::SegmentRead {
        entry,
        offset: 0,
        count: 64,
    };
    look.sees(is_read(kernel, &read, &bytes, meter)?);
    Ok(())
}

fn three_writes_are_run(alloc: Global, look: &mut Look) -> Result<()> {
    look.part("three_writes_are_run");
    play_case(look, alloc, Case::Run)
}

fn limits_are_tested(alloc: Global, look: &mut Look) -> Result<()> {
    look.part("limits_are_tested");
    let mut limits = LIMITS;
    limits.pages = 7;
    match PlainKernel::boot(alloc, &limits) {
        Ok(_) => look.sees(false),
        Err(refusal) => look.sees(agree(refusal.refusal().number(), 31)),
    }
    look.sees(BootRefusal::Unavailable.refusal().name() == "Unavailable");
    Ok(())
}

/// Plays what there is memory for.
pub fn play(alloc: Global, look: &mut Look) -> Result<()> {
    a_write_is_read(alloc, look)?;
    three_writes_are_run(alloc, look)?;
    limits_are_tested(alloc, look)
}

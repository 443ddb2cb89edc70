//! Times calls of the arena kernel, by one thread, beside those of a file: loads and reads beside `pread`, stores and
//! writes beside `pwrite`, of 64 bytes each, and a segment that is made and goes beside such a file. Each ratio is of
//! one run, so it says the same on a slow machine and on a fast one. A link that is made and goes has nothing beside
//! it.
mod kernels;

use crate::asked::{load, read, store, write};
use crate::files::{open, time_alone, time_made};
use crate::timing::{nanos_since, print_ratio};
use crate::words::number_at;
use crate::work::Work;
use anyhow::Result;
use base::ObjectId;
use kept_events::KeptEvent;
use kernel_rules::{Call, Query};
use kernels::{Bench, Timed};
use std::alloc::Global;
use std::fs::File;
use std::mem::size_of;
use std::rt::{Clock, Files};
use std::time::Instant;

/// How it is asked for.
pub const USAGE: &str = "benches calls PAGES OBJECTS CATEGORIES ROUNDS FILE
PAGES is 8 to 1024, OBJECTS how many more fill the kernel, CATEGORIES, 0 to 16, how many the labels have,
and FILE is written over.";

/// What is to be timed: a kernel of so many pages, which so many other objects fill, whose labels have so many
/// categories, by so many rounds.
#[derive(Clone, Copy)]
struct Size {
    pages: u32,
    objects: u64,
    categories: u64,
    rounds: u64,
}

/// Says so where not all calls were done.
fn tell_done(rt: &impl Print, what: &str, rounds: u64, ours: Timed) -> Result<()> {
    if ours.done != rounds {
        println!(rt; "{what}: {} of {rounds} done", ours.done)?;
    }
    Ok(())
}

/// Prints a time beside a file's.
fn tell(
    rt: &impl Print,
    what: &str,
    other: &str,
    rounds: u64,
    ours: Timed,
    theirs: u64,
) -> Result<()> {
    tell_done(rt, what, rounds, ours)?;
    print_ratio(rt, what, other, rounds, ours.nanos, theirs)
}

/// Times a query beside reads of a file, which took so long.
fn compare_ask(
    rt: &(impl Clock + Print),
    bench: &mut Bench,
    what: &str,
    query: &Query,
    rounds: u64,
    theirs: u64,
) -> Result<()> {
    let ours = bench.time_ask(rt, query, rounds)?;
    tell(rt, what, "pread", rounds, ours, theirs)
}

/// Times a call beside writes of a file, which took so long.
fn compare_step(
    rt: &(impl Clock + Print),
    bench: &mut Bench,
    what: &str,
    call: &Call,
    rounds: u64,
    theirs: u64,
) -> Result<()> {
    let ours = bench.time_step(rt, call, rounds)?;
    tell(rt, what, "pwrite", rounds, ours, theirs)
}

fn compare_reads(
    rt: &(impl Clock + Print),
    bench: &mut Bench,
    segment: ObjectId,
    file: &File,
    rounds: u64,
) -> Result<()> {
    let theirs = time_alone(rt, file, Work::Read, rounds)?;
    compare_ask(rt, bench, "load", &load(), rounds, theirs)?;
    compare_ask(rt, bench, "segment_read", &read(segment), rounds, theirs)
}

fn compare_writes(
    rt: &(impl Clock + Print),
    bench: &mut Bench,
    segment: ObjectId,
    file: &File,
    rounds: u64,
) -> Result<()> {
    let theirs = time_alone(rt, file, Work::Write, rounds)?;
    compare_step(rt, bench, "store", &store(), rounds, theirs)?;
    compare_step(rt, bench, "segment_write", &write(segment), rounds, theirs)
}

fn compare_segments<R: Clock + Print + Files>(
    rt: &R,
    bench: &mut Bench,
    path: &str,
    rounds: u64,
) -> Result<()> {
    let other = "open with unlink";
    let theirs = time_made(rt, path, rounds)?;
    let ours = bench.time_segments(rt, rounds)?;
    tell(rt, "create with unref", other, rounds, ours, theirs)
}

/// Prints how long a boot took that began then.
fn tell_boot(rt: &(impl Clock + Print), pages: u32, start: Instant) -> Result<()> {
    let micros = nanos_since(rt, start)? / 1000;
    println!(rt; "boot of {pages} pages: {micros} us")?;
    Ok(())
}

/// Makes a mapped segment, and fills the kernel.
fn map_and_fill(bench: &mut Bench, size: Size) -> Result<ObjectId> {
    bench.own(size.categories)?;
    let segment = bench.mapped_segment()?;
    bench.fill(size.objects);
    Ok(segment)
}

/// Tells of a boot that began then, and times what reads and writes a mapped segment, and segments that are made and
/// go.
fn compare_booted<R: Clock + Print + Files>(
    rt: &R,
    bench: &mut Bench,
    start: Instant,
    size: Size,
    file: &File,
    path: &str,
) -> Result<()> {
    tell_boot(rt, size.pages, start)?;
    let segment = map_and_fill(bench, size)?;
    // (so that the file has what is read)
    let _warm = time_alone(rt, file, Work::Write, 1)?;
    compare_reads(rt, bench, segment, file, size.rounds)?;
    compare_writes(rt, bench, segment, file, size.rounds)?;
    compare_segments(rt, bench, path, size.rounds)
}

/// Times a boot, and then all but links.
fn compare_all<R: Clock + Print + Files>(
    rt: &R,
    alloc: Global,
    size: Size,
    file: &File,
    path: &str,
) -> Result<()> {
    let start = Instant::now(rt)?;
    let mut bench = Bench::boot(alloc, size.pages)?;
    let outcome = compare_booted(rt, &mut bench, start, size, file, path);
    bench.free();
    outcome
}

/// Prints how long a link took that was made and went so often.
fn tell_links(rt: &impl Print, rounds: u64, ours: Timed) -> Result<()> {
    tell_done(rt, "link with unref", rounds, ours)?;
    let each = ours.nanos / rounds.max(1);
    println!(rt; "link with unref: {each} ns")?;
    Ok(())
}

/// Makes a segment whose quota is fixed and a container, fills the kernel, and times links that are made and go.
fn time_links_in(rt: &(impl Clock + Print), bench: &mut Bench, size: Size) -> Result<()> {
    bench.own(size.categories)?;
    let segment = bench.fixed_segment()?;
    let container = bench.container()?;
    bench.fill(size.objects);
    let ours = bench.time_links(rt, container, segment, size.rounds)?;
    tell_links(rt, size.rounds, ours)
}

/// Times links that are made and go, in a kernel of its own.
fn time_links(rt: &(impl Clock + Print), alloc: Global, size: Size) -> Result<()> {
    let mut bench = Bench::boot(alloc, size.pages)?;
    let outcome = time_links_in(rt, &mut bench, size);
    bench.free();
    outcome
}

/// Prints how many bytes an event in a journal and a call take.
fn tell_sizes(rt: &impl Print) -> Result<()> {
    let (event, call) = (size_of::<KeptEvent>(), size_of::<Call>());
    println!(rt; "event: {event} bytes, call: {call} bytes")?;
    Ok(())
}

fn size_in(words: &[String]) -> Option<Size> {
    let pages = number_at(words, 2)?;
    let objects = number_at(words, 3)?;
    let categories = number_at(words, 4)?;
    let rounds = number_at(words, 5)?;
    Some(Size {
        pages: u32::try_from(pages).unwrap_or(1024),
        objects,
        categories,
        rounds,
    })
}

/// Times all, beside the file of a path and beside one that is made and goes next to it.
fn time_all<R: Clock + Print + Files<File = File>>(
    rt: &R,
    alloc: Global,
    size: Size,
    path: &str,
) -> Result<()> {
    let beside = format!(in alloc; "{path}.made")?;
    let file = open(rt, path)?;
    compare_all(rt, alloc, size, &file, beside.as_str())
}

/// Runs what the words after `calls` ask for. False where they ask for nothing.
pub fn run<R: Clock + Print + Files<File = File>>(
    rt: &R,
    alloc: Global,
    words: &[String],
) -> Result<bool> {
    let (Some(size), Some(path)) = (size_in(words), words.get(6)) else {
        return Ok(false);
    };
    time_all(rt, alloc, size, path.as_str())?;
    time_links(rt, alloc, size)?;
    tell_sizes(rt)?;
    Ok(true)
}

//! Times calls through seats beside a file and a kernel under a lock that readers share, with several threads at once, and
//! how reads and writes go on beside each other. Each ratio is of one run, so it says the same on a slow machine and on a
//! fast one.
ghost use Rattle.std.specs.Prelude.{◌≡◌};

mod batches;
mod desks;
mod locked;
mod pauses;
mod rooms;
mod samples;

use crate::files::{open, time_at_once};
use crate::timing::print_ratio;
use crate::words::number_at;
use crate::work::Work;
use anyhow::Result;
use desks::{Desk, Others, add_desks, time_all, time_beside};
use locked::Locked;
use pauses::{ON_AND_ON, SELDOM};
use published_copy::{Boot, BootRefusal, Naming, Shared};
pub use samples::LIMITS;
use std::alloc::Global;
use std::fs::File;
use std::marker::Brand;
use std::rt::{Clock, Files};
use std::sync::Wait;
use std::sync::atomic::{AtomicU64, Ordering};
use std::thread::Threads;

/// How it is asked for.
pub const USAGE: &str = "benches seats ROUNDS FILE
ROUNDS is how often all threads of a line do what it tells, and FILE is written over.";

/// How many threads do the same at once.
const THREADS: [usize; 3] = [1, 2, 4];

/// How many seats read while one writes.
const CROWDS: [usize; 8] = [0, 1, 2, 4, 8, 16, 32, 63];

/// For how many seats a kernel is booted.
#[derive(Clone, Copy)]
enum Seats {
    /// For 5.
    Few,
    /// For all 64.
    All,
}

impl Seats {
    /// How many there are beside the boot thread's.
    fn others(self) -> u64 {
        match self {
            Seats::Few => 4,
            Seats::All => 63,
        }
    }

    fn boot(self, alloc: Global) -> Result<Boot, BootRefusal> {
        match self {
            Seats::Few => Boot::with_seats(alloc, &LIMITS, 5),
            Seats::All => Boot::new(alloc, &LIMITS),
        }
    }
}

/// The desks of a boot: those of the threads that work, and of the one that works beside them.
#[derive(Drop)]
struct Parts<'a, 's, B: Naming> {
    workers: &'a [Desk<'s, B>],
    writer: &'a [Desk<'s, B>],
}

/// So many of the desks, or all where there are fewer.
fn first<T>(desks: &[T], count: usize) -> &[T] {
    desks.split_at(count.min(desks.len())).0
}

/// The desks but the last, and the last.
fn parted<'a, 's, B: Naming>(desks: &'a [Desk<'s, B>]) -> Parts<'a, 's, B> {
    let (workers, writer) = desks.split_at(desks.len().saturating_sub(1));
    Parts { workers, writer }
}

/// What so many threads do at once, beside others.
fn compare_at<'s, B: Naming + Send, R: Threads + Wait + Clock + Print + Sync>(
    rt: &R,
    workers: &[Desk<'s, B>],
    locked: &Locked,
    file: &File,
    rounds: u64,
) -> Result<()> {
    let (threads, count) = (workers.len(), workers.len() as u64);
    let steps = count.saturating_mul(rounds);
    let done = AtomicU64::new(0);
    let submits = time_all(rt, workers, Work::Write, rounds, &done)?;
    let writes = time_at_once(rt, file, Work::Write, count, rounds)?;
    let reads = time_all(rt, workers, Work::Read, rounds, &done)?;
    let file_reads = time_at_once(rt, file, Work::Read, count, rounds)?;
    let locked_reads = locked.time_reads(rt, threads, rounds, &done)?;
    let done = done.load(Ordering::SeqCst);
    println!(rt; "{threads} threads, {rounds} rounds each, {done} calls done")?;
    print_ratio(rt, "submit", "pwrite", steps, submits, writes)?;
    print_ratio(rt, "read", "pread", steps, reads, file_reads)?;
    print_ratio(
        rt,
        "read",
        "under a shared lock",
        steps,
        reads,
        locked_reads,
    )
}

/// A line with how many times the reads of one thread four make, by the times in which each makes
/// as many.
fn print_growth(rt: &impl Print, what: &str, one: u64, four: u64) -> Result<()> {
    let hundredths = one.saturating_mul(400) / four.max(1);
    let (whole, part) = (hundredths / 100, hundredths % 100);
    println!(rt; "4 readers beside a writer, {what}: {whole}.{part:02} times the reads of one")?;
    Ok(())
}

/// How reads grow with their threads while one more thread writes.
fn grow<'s, B: Naming + Send, R: Threads + Wait + Clock + Print + Sync>(
    rt: &R,
    desks: &Parts<'_, 's, B>,
    locked: &Locked,
    rounds: u64,
) -> Result<()> {
    let writer = Others {
        desks: desks.writer,
        work: Work::Write,
        looks: ON_AND_ON,
    };
    let (one, four) = (first(desks.workers, 1), first(desks.workers, 4));
    let done = AtomicU64::new(0);
    let one = time_beside(rt, &writer, one, Work::Read, rounds, &done)?;
    let four = time_beside(rt, &writer, four, Work::Read, rounds, &done)?;
    print_growth(rt, "seats", one, four)?;
    let one = locked.time_reads_beside(rt, 1, rounds, &done)?;
    let four = locked.time_reads_beside(rt, 4, rounds, &done)?;
    print_growth(rt, "shared lock", one, four)
}

/// What a submit takes beside so many readers, with so many looks between two reads.
fn time_submits<'s, B: Naming + Send, R: Threads + Wait + Clock + Sync>(
    rt: &R,
    desks: &Parts<'_, 's, B>,
    readers: usize,
    looks: u32,
    rounds: u64,
) -> Result<u64> {
    let readers = Others {
        desks: first(desks.workers, readers),
        work: Work::Read,
        looks,
    };
    let done = AtomicU64::new(0);
    time_beside(rt, &readers, desks.writer, Work::Write, rounds, &done)
}

/// What a submit takes while more and more seats read, beside one while none does.
fn crowd<'s, B: Naming + Send, R: Threads + Wait + Clock + Print + Sync>(
    rt: &R,
    desks: &Parts<'_, 's, B>,
    rounds: u64,
) -> Result<()> {
    let alone = time_submits(rt, desks, 0, ON_AND_ON, rounds)?;
    for readers in CROWDS {
        let taken = time_submits(rt, desks, readers, ON_AND_ON, rounds)?;
        println!(rt; "beside {readers} readers")?;
        print_ratio(rt, "submit", "alone", rounds, taken, alone)?;
    }
    Ok(())
}

/// What a write takes while more and more threads read a twentieth of their time: through a seat, and of a kernel under a
/// lock that readers share.
fn crowd_seldom<'s, B: Naming + Send, R: Threads + Wait + Clock + Print + Sync>(
    rt: &R,
    desks: &Parts<'_, 's, B>,
    locked: &Locked,
    rounds: u64,
) -> Result<()> {
    let alone = time_submits(rt, desks, 0, SELDOM, rounds)?;
    for readers in CROWDS {
        let taken = time_submits(rt, desks, readers, SELDOM, rounds)?;
        let under = locked.time_writes_beside(rt, readers, rounds)?;
        println!(rt; "beside {readers} who read a twentieth of their time")?;
        print_ratio(rt, "submit", "alone", rounds, taken, alone)?;
        print_ratio(rt, "submit", "under a shared lock", rounds, taken, under)?;
    }
    Ok(())
}

/// Sixteen creations and as many ends as two batches, beside the same call by call.
fn batch<'s, B: Naming + Send, R: Wait + Clock + Print>(
    rt: &R,
    alloc: Global,
    desks: &Parts<'_, 's, B>,
    rounds: u64,
) -> Result<()> {
    let Some(desk) = desks.writer.first() else {
        return Ok(());
    };
    let (together, apart) = batches::time_both(rt, alloc, desk, rounds)?;
    print_ratio(
        rt,
        "32 calls in two batches",
        "one by one",
        rounds,
        together,
        apart,
    )
}

/// What one, two and four threads do at once, and how reads grow with their threads.
fn compare_few<'s, B: Naming + Send, R: Threads + Wait + Clock + Print + Sync>(
    rt: &R,
    desks: &Parts<'_, 's, B>,
    locked: &Locked,
    file: &File,
    rounds: u64,
) -> Result<()> {
    for threads in THREADS {
        let each = rounds / (threads as u64).max(1);
        compare_at(rt, first(desks.workers, threads), locked, file, each)?;
    }
    grow(rt, desks, locked, rounds)
}

/// What one thread does, what a submit takes while more and more seats read, and batches.
fn compare_all<'s, B: Naming + Send, R: Threads + Wait + Clock + Print + Sync>(
    rt: &R,
    alloc: Global,
    desks: &Parts<'_, 's, B>,
    locked: &Locked,
    file: &File,
    rounds: u64,
) -> Result<()> {
    compare_at(rt, first(desks.workers, 1), locked, file, rounds)?;
    crowd(rt, desks, rounds / 400)?;
    crowd_seldom(rt, desks, locked, rounds / 40)?;
    batch(rt, alloc, desks, rounds / 40)
}

/// Compares what is to be at a boot for so many seats, whose desks stand in the list then.
fn compare<'s, B: Naming + Send, R: Threads + Wait + Clock + Print + Sync>(
    rt: &R,
    alloc: Global,
    shared: &'s Shared<B>,
    desks: &mut Vec<Desk<'s, B>>,
    file: &File,
    (seats, rounds): (Seats, u64),
) -> Result<()> {
    add_desks(rt, shared, seats.others(), desks)?;
    let desks = parted(desks.as_slice());
    let locked = Locked::new(alloc, seats.others())?;
    match seats {
        Seats::Few => compare_few(rt, &desks, &locked, file, rounds),
        Seats::All => compare_all(rt, alloc, &desks, &locked, file, rounds),
    }
}

fn compare_shared<B: Naming + Send, R: Threads + Wait + Clock + Print + Sync>(
    rt: &R,
    alloc: Global,
    shared: &Shared<B>,
    file: &File,
    asked: (Seats, u64),
) -> Result<()> {
    let mut desks = Vec::new(alloc);
    compare(rt, alloc, shared, &mut desks, file, asked)
}

fn compare_opened<B: Naming + Send, R: Threads + Wait + Clock + Print + Sync>(
    rt: &R,
    alloc: Global,
    boot: Boot,
    file: &File,
    asked: (Seats, u64),
) -> Result<()>
    requires { boot ≡ B.boot }
{
    let shared = boot.open::<B>();
    compare_shared(rt, alloc, &shared, file, asked)
}

fn compare_boot<R: Threads + Wait + Clock + Print + Sync>(
    rt: &R,
    alloc: Global,
    seats: Seats,
    file: &File,
    rounds: u64,
) -> Result<()> {
    println!(rt; "a boot for {} seats", seats.others().saturating_add(1))?;
    let boot = seats.boot(alloc)?;
    compare_opened::<Brand, R>(rt, alloc, boot, file, (seats, rounds))
}

/// Runs what the words after `seats` ask for. False where they ask for nothing.
pub fn run<R: Threads + Wait + Clock + Print + Sync + Files<File = File>>(
    rt: &R,
    alloc: Global,
    words: &[String],
) -> Result<bool> {
    let (Some(rounds), Some(path)) = (number_at(words, 2), words.get(3)) else {
        return Ok(false);
    };
    let file = open(rt, path.as_str())?;
    compare_boot(rt, alloc, Seats::Few, &file, rounds)?;
    compare_boot(rt, alloc, Seats::All, &file, rounds)?;
    Ok(true)
}

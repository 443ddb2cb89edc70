//! Writes and reads of 64 bytes of a segment, each through its thread's seat.
use super::pauses::has_stopped;
use super::rooms::Roomy;
use super::samples::{Both, new_page};
use crate::asked::{asker, new_thread, object_in, shows_bytes};
use crate::timing::nanos_since;
use crate::work::Work;
use anyhow::{Result, bail};
use base::ObjectId;
use kernel_rules::Reply;
use published_copy::{Naming, Seat, Shared};
use std::alloc::Global;
use std::rt::Clock;
use std::sync::atomic::{AtomicBool, AtomicU64, Ordering};
use std::sync::{Mutex, Wait};
use std::thread;
use std::thread::Threads;
use std::time::Instant;

/// A thread's seat, apart from others'.
pub type Desk<'s, B> = Roomy<Mutex<Seat<'s, B>>>;

/// Threads that go on until those that are timed have ended, with so many looks between two calls.
#[derive(Drop)]
pub struct Others<'a, 's, B: Naming> {
    pub desks: &'a [Desk<'s, B>],
    pub work: Work,
    pub looks: u32,
}

// Whether a write was done, or the bytes that were written were read.
fn is_done<B: Naming, R: Wait>(
    rt: &R,
    seat: &mut Seat<'_, B>,
    work: Work,
    both: &Both,
    reply: &mut Reply,
) -> bool {
    match work {
        Work::Write => {
            seat.submit_into(rt, &both.call, reply).is_ok() && matches!(reply, Reply::Done)
        }
        Work::Read => seat.read_into(&both.query, reply).is_ok() && shows_bytes(reply),
    }
}

fn work_all<B: Naming, R: Wait>(
    rt: &R,
    desk: &Desk<'_, B>,
    work: Work,
    rounds: u64,
    done: &AtomicU64,
) {
    let both = Both::new();
    let mut seat = desk.value.lock(rt);
    let mut count = 0u64;
    let mut reply = Reply::Done;
    for _ in 0..rounds {
        if is_done(rt, &mut seat, work, &both, &mut reply) {
            count = count.wrapping_add(1);
        }
    }
    done.fetch_add(count, Ordering::SeqCst);
}

fn work_until<B: Naming, R: Wait>(
    rt: &R,
    desk: &Desk<'_, B>,
    work: Work,
    looks: u32,
    stop: &AtomicBool,
) {
    let both = Both::new();
    let mut seat = desk.value.lock(rt);
    let mut reply = Reply::Done;
    for _ in rt.forever() {
        if has_stopped(stop, looks) {
            return;
        }
        is_done(rt, &mut seat, work, &both, &mut reply);
    }
}

/// A new thread, which the boot thread makes.
fn make_thread<B: Naming, R: Wait>(rt: &R, boot: &mut Seat<'_, B>) -> Result<ObjectId> {
    let made = boot.submit(rt, &new_thread())?;
    match object_in(&made.reply) {
        Some(thread) => Ok(thread),
        None => bail!("no thread"),
    }
}

fn add_desk<'s, B: Naming, R: Wait>(
    rt: &R,
    shared: &'s Shared<B>,
    thread: ObjectId,
    desks: &mut Vec<Desk<'s, B>>,
) -> Result<()> {
    desks.push(Roomy::new(Mutex::new(shared.open_seat(rt, thread)?)))?;
    Ok(())
}

/// The segment with its bytes, and so many new threads with their seats.
fn fill<'s, B: Naming, R: Wait>(
    rt: &R,
    shared: &'s Shared<B>,
    boot: &mut Seat<'_, B>,
    threads: u64,
    desks: &mut Vec<Desk<'s, B>>,
) -> Result<()> {
    boot.submit(rt, &new_page())?;
    boot.submit(rt, &Both::new().call)?;
    for _ in 0..threads {
        let thread = make_thread(rt, boot)?;
        add_desk(rt, shared, thread, desks)?;
    }
    Ok(())
}

/// A segment of a page with the bytes, so many new threads with a seat each, and last the boot thread's seat.
pub fn add_desks<'s, B: Naming, R: Wait>(
    rt: &R,
    shared: &'s Shared<B>,
    threads: u64,
    desks: &mut Vec<Desk<'s, B>>,
) -> Result<()> {
    let mut boot = shared.open_seat(rt, asker())?;
    let filled = fill(rt, shared, &mut boot, threads, desks);
    desks.push(Roomy::new(Mutex::new(boot)))?;
    filled
}

/// The nanoseconds in which all desks at once do their work so often each, while it is counted what was done.
pub fn time_all<'s, B: Naming + Send, R: Threads + Wait + Clock + Sync>(
    rt: &R,
    desks: &[Desk<'s, B>],
    work: Work,
    rounds: u64,
    done: &AtomicU64,
) -> Result<u64> {
    let start = Instant::now(rt)?;
    thread::scope(thread::scope_env(), rt, |scope| {
        for desk in desks {
            let _ = scope.spawn(move || work_all(rt, desk, work, rounds, done));
        }
    });
    nanos_since(rt, start)
}

/// The same while others go on.
pub fn time_beside<'s, B: Naming + Send, R: Threads + Wait + Clock + Sync>(
    rt: &R,
    others: &Others<'_, 's, B>,
    desks: &[Desk<'s, B>],
    work: Work,
    rounds: u64,
    done: &AtomicU64,
) -> Result<u64> {
    let stop = AtomicBool::new(false);
    let (stop, theirs, looks) = (&stop, others.work, others.looks);
    thread::scope(thread::scope_env(), rt, |scope| {
        for desk in others.desks {
            let _ = scope.spawn(move || work_until(rt, desk, theirs, looks, stop));
        }
        let taken = time_all(rt, desks, work, rounds, done);
        stop.store(true, Ordering::SeqCst);
        taken
    })
}

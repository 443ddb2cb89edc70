//! Threads that call and read at once.
use super::cases::{Case, play_case};
use super::samples::{is_refused, is_shown_own, seated, submitted};
use anyhow::Result;
use base::{Limits, Meter, NoMemory, ObjectId};
use happy_calls::look::Look;
use happy_calls::samples::{MOST_PAGES, boot_thread, is_done, new_thread, plain};
use kept_events::events_of;
use kernel_rules::histories::{Answered, Event};
use kernel_rules::{Call, Reply};
use published_copy::{KeptEvent, Naming, Seat, Shared};
use std::alloc::Global;
use std::sync::{Mutex, Wait};
use std::thread;
use std::thread::Threads;
use syscall_core::{Machine, PlainKernel};

/// Limits with 128 pages.
pub const LIMITS: Limits = Limits {
    pages: 128,
    ..MOST_PAGES
};

/// How many threads are made, of which all but one get a seat.
const THREADS: u64 = 64;

/// How often each seat calls, and reads.
const CALLS: u64 = 100;

/// Whether a seat's thread is given its own label once more.
fn is_labelled<B: Naming, R: Wait>(rt: &R, seat: &mut Seat<'_, B>) -> bool {
    match submitted(rt, seat, &Call::SelfSetLabel { label: plain() }) {
        Ok(receipt) => is_done(receipt.reply),
        Err(_) => false,
    }
}

/// Whether each of a seat's calls is done, and each of its queries answered.
fn is_served<B: Naming, R: Wait>(rt: &R, seat: &mut Seat<'_, B>) -> bool {
    for _ in 0..CALLS {
        if !is_labelled(rt, seat) || !is_shown_own(seat) {
            return false;
        }
    }
    true
}

/// A seat that calls in a thread of its own, and whether all was answered.
#[derive(Drop)]
struct Worker<'a, B: Naming> {
    seat: Seat<'a, B>,
    served: bool,
}

fn serve<B: Naming, R: Wait>(rt: &R, worker: &Mutex<Worker<'_, B>>) {
    let mut worker = worker.lock(rt);
    worker.served = is_served(rt, &mut worker.seat);
}

/// Each worker calls in a thread of its own, all at once. False where a thread can't be started.
fn serve_at_once<'s, B: Naming + Send, R: Threads + Wait + Sync>(
    rt: &R,
    workers: &[Mutex<Worker<'s, B>>],
) -> bool {
    thread::scope(thread::scope_env(), rt, |scope| {
        let mut all = true;
        for worker in workers {
            if scope.spawn(move || serve(rt, worker)).is_err() {
                all = false;
            }
        }
        all
    })
}

/// Whether one reply is what the other is: the same object, or done.
fn is_same(one: &Reply, other: &Reply) -> bool {
    match (one, other) {
        (Reply::Object(one), Reply::Object(other)) => one == other,
        (one, other) => is_done(*one) && is_done(*other),
    }
}

/// Whether a plain kernel makes or does what the replies to a thread's calls say, in their order.
fn are_made(
    kernel: &mut PlainKernel,
    meter: &mut Meter,
    thread: ObjectId,
    calls: &[Answered],
) -> bool {
    for answered in calls {
        let same = match kernel.step(thread, &answered.call, meter) {
            Ok(reply) => is_same(&reply, &answered.reply),
            Err(_) => false,
        };
        if !same {
            return false;
        }
    }
    true
}

/// Whether a newly booted plain kernel makes or does what the events' replies say, in their order.
fn is_replayed(kernel: &mut PlainKernel, meter: &mut Meter, events: &[Event]) -> bool {
    for event in events {
        if !are_made(kernel, meter, event.thread, event.calls.as_slice()) {
            return false;
        }
    }
    true
}

/// Whether a thread has so many events, numbered from 1.
fn is_numbered(events: &[KeptEvent], thread: ObjectId, count: u64) -> bool {
    let mut number = 0u64;
    for event in events {
        if event.thread() == thread {
            number = number.saturating_add(1);
            if event.number() != number {
                return false;
            }
        }
    }
    number == count
}

fn add_worker<'s, B: Naming>(
    workers: &mut Vec<Mutex<Worker<'s, B>>>,
    seat: Seat<'s, B>,
) -> Result<()> {
    workers.push(Mutex::new(Worker {
        seat,
        served: false,
    }))?;
    Ok(())
}

/// The boot thread makes all others.
fn make_threads<B: Naming, R: Wait>(rt: &R, boot: &mut Seat<'_, B>) -> Result<()> {
    for _ in 0..THREADS {
        submitted(rt, boot, &new_thread())?;
    }
    Ok(())
}

/// A worker for each of them but the last.
fn hire_others<'s, B: Naming, R: Wait>(
    rt: &R,
    shared: &'s Shared<B>,
    workers: &mut Vec<Mutex<Worker<'s, B>>>,
) -> Result<()> {
    for id in 4..THREADS + 3 {
        add_worker(workers, seated(rt, shared, ObjectId::new(id))?)?;
    }
    Ok(())
}

/// A worker for the boot thread's seat, and those of the others.
fn hire<'s, B: Naming, R: Wait>(
    rt: &R,
    alloc: Global,
    shared: &'s Shared<B>,
) -> Result<Vec<Mutex<Worker<'s, B>>>> {
    let mut boot = seated(rt, shared, boot_thread())?;
    make_threads(rt, &mut boot)?;
    let mut workers = Vec::new(alloc);
    add_worker(&mut workers, boot)?;
    hire_others(rt, shared, &mut workers)?;
    Ok(workers)
}

/// Whether the events are those of all workers, each one's numbered from 1.
fn are_numbered(events: &[KeptEvent]) -> bool {
    let mut all = events.len() as u64 == THREADS + THREADS * CALLS
        && is_numbered(events, boot_thread(), THREADS + CALLS);
    for id in 4..THREADS + 3 {
        if !is_numbered(events, ObjectId::new(id), CALLS) {
            all = false;
        }
    }
    all
}

/// The journal's events, which are those of all workers.
fn numbered_events<B: Naming, R: Wait>(
    rt: &R,
    look: &mut Look,
    alloc: Global,
    shared: &Shared<B>,
) -> Result<Vec<Event>, NoMemory> {
    let book = shared.book(rt);
    look.sees(are_numbered(book.events()));
    events_of(alloc, book.events())
}

// The journal has every call, and a plain kernel answers them as it says.
fn replay<B: Naming, R: Wait>(
    rt: &R,
    look: &mut Look,
    alloc: Global,
    shared: &Shared<B>,
) -> Result<()> {
    let mut meter = Meter::new(alloc)?;
    let events = numbered_events(rt, look, alloc, shared)?;
    let mut kernel = PlainKernel::boot(alloc, &LIMITS)?;
    look.sees(is_replayed(&mut kernel, &mut meter, events.as_slice()));
    Ok(())
}

/// Workers call and read in threads of their own, all at once, and the journal has every call.
pub fn work_at<B: Naming + Send, R: Threads + Wait + Sync>(
    rt: &R,
    look: &mut Look,
    alloc: Global,
    shared: &Shared<B>,
) -> Result<()> {
    let workers = hire(rt, alloc, shared)?;
    look.sees(serve_at_once(rt, workers.as_slice()));
    for worker in &workers {
        look.sees(worker.lock(rt).served);
    }
    look.sees(is_refused(rt, shared, boot_thread(), 41));
    look.sees(is_refused(rt, shared, ObjectId::root(), 42));
    look.sees(is_refused(rt, shared, ObjectId::new(THREADS + 3), 43));
    replay(rt, look, alloc, shared)
}

fn the_journal_has_every_call<R: Threads + Wait + Sync + AllocGlobal>(
    rt: &R,
    look: &mut Look,
) -> Result<()> {
    look.part("the_journal_has_every_call");
    play_case(rt, look, rt.alloc(), Case::Threads)
}

/// Plays what there is memory for.
pub fn play<R: Threads + Wait + Sync + AllocGlobal>(rt: &R, look: &mut Look) -> Result<()> {
    the_journal_has_every_call(rt, look)
}

//! Two threads share a kernel: each makes a call through a seat of its own, and the journal is read
//! back. It prints how many events each thread has.
#![tactic(auto)]

ghost use Rattle.std.specs.Prelude.{◌≡◌};

use base::{Level, Limits, ObjectId};
use label_lattice::RawLabel;
use published_copy::{Boot, KeptEvent, Naming, Seat, SeatRefusal, Shared, SubmitRefusal};
use std::io;
use std::marker::Brand;
use std::sync::Wait;
use std::thread::{Threads, join};
use syscall_core::{Call, NewThread, Reply};
use thiserror::Error;

/// Why the kernel is not shared.
#[derive(Clone, Copy, Debug, Error)]
enum Fault {
    #[error("a seat was refused")]
    Seat(#[from] SeatRefusal),
    #[error("a call was not made")]
    Submit(#[from] SubmitRefusal),
}

/// How many events the boot thread and another one have.
#[derive(Clone, Copy)]
struct Counts {
    boot: usize,
    other: usize,
}

/// A new thread of the label {1} and the clearance {2}, in the root container.
fn new_thread() -> Call {
    Call::ThreadCreate(NewThread {
        container: ObjectId::root(),
        label: RawLabel::new(Level::L1, &[]),
        quota: 1,
        clearance: RawLabel::new(Level::L2, &[]),
        entry_point: 0,
    })
}

/// The object that was made, and the root where none was.
fn object_in(reply: &Reply) -> ObjectId {
    match reply {
        Reply::Object(id) => *id,
        _ => ObjectId::root(),
    }
}

fn count_of(events: &[KeptEvent], thread: ObjectId) -> usize {
    events
        .iter()
        .filter(|event| event.thread() == thread)
        .count()
}

/// Both seats make a category at once.
fn call_at_once<B: Naming + Send, R: Threads + Wait + Sync>(
    rt: &R,
    one: &mut Seat<'_, B>,
    other: &mut Seat<'_, B>,
) -> Result<(), Fault> {
    let (mine, theirs) = join(
        rt,
        || one.submit(rt, &Call::CatCreate),
        || other.submit(rt, &Call::CatCreate),
    );
    let _ = (mine?, theirs?);
    Ok(())
}

/// The boot thread makes another thread, and then both make a category at once. The other thread.
fn share_with<B: Naming + Send, R: Threads + Wait + Sync>(
    rt: &R,
    shared: &Shared<B>,
    seat: &mut Seat<'_, B>,
) -> Result<ObjectId, Fault> {
    let other = object_in(&seat.submit(rt, &new_thread())?.reply);
    let mut other_seat = shared.open_seat(rt, other)?;
    call_at_once(rt, seat, &mut other_seat)?;
    Ok(other)
}

/// The boot thread, through its seat, and another thread share a kernel.
fn share_at<B: Naming + Send, R: Threads + Wait + Sync>(
    rt: &R,
    shared: &Shared<B>,
) -> Result<Counts, Fault> {
    let boot = ObjectId::new(2);
    let mut seat = shared.open_seat(rt, boot)?;
    let other = share_with(rt, shared, &mut seat)?;
    let book = shared.book(rt);
    Ok(Counts {
        boot: count_of(book.events(), boot),
        other: count_of(book.events(), other),
    })
}

fn share<B: Naming + Send, R: Threads + Wait + Sync>(rt: &R, booted: Boot) -> Result<Counts, Fault>
    requires { booted ≡ B.boot }
{
    let shared: Shared<B> = booted.open::<B>();
    share_at(rt, &shared)
}

fn main(rt: HostRuntime) -> io::Result<()> {
    let limits = Limits {
        pages: 64,
        device: Level::L1,
        next_id: 4,
        next_category: 1,
    };
    let Ok(booted) = Boot::new(rt.alloc(), &limits) else {
        return println!(rt; "no boot");
    };
    match share::<Brand, HostRuntime>(&rt, booted) {
        Ok(counts) => println!(rt; "boot: {}, other: {}", counts.boot, counts.other),
        Err(fault) => println!(rt; "{fault}"),
    }
}

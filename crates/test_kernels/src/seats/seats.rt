//! Seats and books on their happy paths, and where they refuse.

use super::cases::{Case, play_case};
use super::samples::{
    asked, committed, first_bytes, is_at, is_done_as, is_made, is_refused, open_segment, passed,
    seated, submitted, write,
};
use anyhow::Result;
use base::{Data, Meter, ObjectId, Refusal};
use happy_calls::look::{Look, agree};
use happy_calls::samples::{MOST_PAGES, boot_thread, in_root, is_data, is_object, new_thread};
use kernel_rules::{Call, Reply};
use published_copy::{
    Boot, BootRefusal, KeptEvent, Naming, Pass, Receipt, Seat, SeatRefusal, Shared, SubmitRefusal,
    Unread,
};
use std::alloc::Global;
use std::marker::Brand;
use std::sync::Wait;
use std::thread::Threads;
use syscall_core::Kernel;

// A segment is made and written through a seat, and read.
fn use_seat<B: Naming, R: Wait>(rt: &R, look: &mut Look, seat: &mut Seat<'_, B>) -> Result<()> {
    let made = submitted(rt, seat, &open_segment())?;
    look.sees(is_made(&made, 4, 1, 1));
    let written = submitted(rt, seat, &write(4, Data::from_slice(b"ok")))?;
    look.sees(is_done_as(&written, 2, 2));
    let read = asked(seat, &first_bytes(4, 2))?;
    look.sees(is_data(read, b"ok"));
    Ok(())
}

/// The pass of a seat that was used so.
fn used_pass<B: Naming, R: Wait>(rt: &R, look: &mut Look, shared: &Shared<B>) -> Result<Pass<B>> {
    let mut seat = seated(rt, shared, boot_thread())?;
    use_seat(rt, look, &mut seat)?;
    Ok(passed(seat))
}

/// Whether a receipt tells that there was no such entry, as this event.
fn has_no_entry(receipt: &Receipt, number: u64, length: usize) -> bool {
    matches!(receipt.reply, Reply::Refused(Refusal::NoEntry))
        && receipt.number == number
        && receipt.length == length
}

/// Whether the last event is the boot thread's third.
fn ends_with_third(events: &[KeptEvent]) -> bool {
    match events.last() {
        Some(event) => event.thread() == boot_thread() && event.number() == 3,
        None => false,
    }
}

/// Whether the boot thread is one, and the segment is not.
fn has_threads(kernel: &Kernel, meter: &mut Meter) -> bool {
    kernel.is_thread(boot_thread(), meter) && !kernel.is_thread(ObjectId::new(4), meter)
}

/// A call is the next event, through a seat and under a lent book.
pub fn use_at<B: Naming, R: Wait>(
    rt: &R,
    look: &mut Look,
    alloc: Global,
    shared: &Shared<B>,
) -> Result<()> {
    let mut meter = Meter::new(alloc)?;
    let mut pass = used_pass(rt, look, shared)?;
    look.sees(pass.thread() == boot_thread() && is_at(&pass, 3, 2));
    let mut book = shared.book(rt);
    let receipt = committed(rt, &mut book, &mut pass, &write(5, Data::from_slice(b"no")))?;
    look.sees(has_no_entry(&receipt, 3, 3) && is_at(&pass, 4, 3));
    look.sees(book.limits() == &MOST_PAGES);
    look.sees(book.events().len() == 3 && ends_with_third(book.events()));
    look.sees(has_threads(book.kernel(), &mut meter));
    Ok(())
}

/// Whether they are two events of one thread and then the first one of the thread that it made.
fn are_three(events: &[KeptEvent]) -> bool {
    match events {
        [one, other, last] => {
            one.number() == 1
                && other.number() == 2
                && last.thread() == ObjectId::new(5)
                && last.number() == 1
        }
        _ => false,
    }
}

// A call under a book that is lent for it.
fn commit_one<B: Naming, R: Wait>(
    rt: &R,
    shared: &Shared<B>,
    pass: &mut Pass<B>,
    call: &Call,
) -> Result<(), SubmitRefusal> {
    let mut book = shared.book(rt);
    committed(rt, &mut book, pass, call)?;
    Ok(())
}

// Two calls under lent books, by the pass of the boot thread's seat.
fn commit_two<B: Naming, R: Wait>(rt: &R, shared: &Shared<B>) -> Result<()> {
    let mut pass = passed(seated(rt, shared, boot_thread())?);
    commit_one(rt, shared, &mut pass, &open_segment())?;
    commit_one(rt, shared, &mut pass, &new_thread())?;
    Ok(())
}

// One call through the seat of the thread that was made.
fn submit_one<B: Naming, R: Wait>(rt: &R, shared: &Shared<B>) -> Result<()> {
    let mut other = seated(rt, shared, ObjectId::new(5))?;
    submitted(rt, &mut other, &Call::CatCreate)?;
    Ok(())
}

fn call_thrice<B: Naming, R: Wait>(rt: &R, shared: &Shared<B>) -> Result<()> {
    commit_two(rt, shared)?;
    submit_one(rt, shared)
}

// What is closed is the book at the end, with the calls of seats and of lent books.
fn close_at<B: Naming, R: Wait>(
    rt: &R,
    look: &mut Look,
    shared: Shared<B>,
    meter: &mut Meter,
) -> Result<()> {
    let called = call_thrice(rt, &shared);
    let book = shared.close();
    look.sees(book.limits() == &MOST_PAGES && book.kernel().is_thread(ObjectId::new(5), meter));
    look.sees(are_three(book.into_events(rt).as_slice()));
    called
}

fn close_boot<B: Naming, R: Wait>(
    rt: &R,
    look: &mut Look,
    boot: Boot,
    meter: &mut Meter,
) -> Result<()> {
    close_at(rt, look, boot.open::<B>(), meter)
}

fn what_is_closed_has_every_call<R: Threads + Wait + Sync + AllocGlobal>(
    rt: &R,
    look: &mut Look,
) -> Result<()> {
    look.part("what_is_closed_has_every_call");
    let mut meter = Meter::new(rt.alloc())?;
    let boot = Boot::new(rt.alloc(), &MOST_PAGES)?;
    close_boot::<Brand, R>(rt, look, boot, &mut meter)
}

fn a_call_is_an_event<R: Threads + Wait + Sync + AllocGlobal>(
    rt: &R,
    look: &mut Look,
) -> Result<()> {
    look.part("a_call_is_an_event");
    play_case(rt, look, rt.alloc(), Case::Calls)
}

fn limits_are_tested<R: Threads + Wait + Sync + AllocGlobal>(
    rt: &R,
    look: &mut Look,
) -> Result<()> {
    look.part("limits_are_tested");
    let mut limits = MOST_PAGES;
    limits.pages = 1025;
    match Boot::new(rt.alloc(), &limits) {
        Ok(_) => look.sees(false),
        Err(refusal) => look.sees(agree(refusal.refusal().number(), 31)),
    }
    Ok(())
}

fn refusals_have_their_numbers<R: Threads + Wait + Sync + AllocGlobal>(
    rt: &R,
    look: &mut Look,
) -> Result<()> {
    look.part("refusals_have_their_numbers");
    look.sees(agree(BootRefusal::Unavailable.refusal().number(), 30));
    look.sees(agree(SubmitRefusal::Memory.refusal().number(), 40));
    look.sees(agree(SubmitRefusal::OutOfTurn.refusal().number(), 44));
    look.sees(agree(SeatRefusal::SeatTaken.refusal().number(), 41));
    look.sees(agree(SeatRefusal::NoThread.refusal().number(), 42));
    look.sees(agree(SeatRefusal::SeatsSpent.refusal().number(), 43));
    look.sees(agree(Unread.refusal().number(), 46));
    Ok(())
}

/// Whether a call made this object, or was done where none is told.
fn is_answered<B: Naming, R: Wait>(
    rt: &R,
    seat: &mut Seat<'_, B>,
    call: &Call,
    object: Option<u64>,
) -> bool {
    match (submitted(rt, seat, call), object) {
        (Ok(receipt), Some(id)) => is_object(receipt.reply, id),
        (Ok(receipt), None) => matches!(receipt.reply, Reply::Done),
        (Err(_), _) => false,
    }
}

/// A call that drops an entry of the root.
fn gone(id: u64) -> Call {
    Call::Unref { entry: in_root(id) }
}

// The boot thread makes threads 4 to 67 and a thread 68, which dies.
fn make_threads<B: Naming, R: Wait>(rt: &R, look: &mut Look, seat: &mut Seat<'_, B>) -> Result<()> {
    for id in 4..69u64 {
        look.sees(is_answered(rt, seat, &new_thread(), Some(id)));
    }
    look.sees(is_answered(rt, seat, &gone(68), None));
    Ok(())
}

/// With the boot thread's, 64 seats are opened, for threads up to 66.
pub fn refuse_seats_at<B: Naming, R: Wait>(
    rt: &R,
    look: &mut Look,
    shared: &Shared<B>,
) -> Result<()> {
    look.sees(is_refused(rt, shared, ObjectId::root(), 42));
    let mut seat = seated(rt, shared, boot_thread())?;
    make_threads(rt, look, &mut seat)?;
    look.sees(is_refused(rt, shared, ObjectId::new(68), 42));
    for id in 4..67u64 {
        look.sees(seated(rt, shared, ObjectId::new(id)).is_ok());
    }
    for (id, number) in [(67u64, 43u8), (68, 42), (66, 41), (2, 41)] {
        look.sees(is_refused(rt, shared, ObjectId::new(id), number));
    }
    look.sees(is_answered(rt, &mut seat, &gone(66), None));
    look.sees(is_refused(rt, shared, ObjectId::new(66), 41));
    Ok(())
}

fn seats_are_refused<R: Threads + Wait + Sync + AllocGlobal>(
    rt: &R,
    look: &mut Look,
) -> Result<()> {
    look.part("seats_are_refused");
    play_case(rt, look, rt.alloc(), Case::RefusedSeats)
}

/// Plays what there is memory for.
pub fn play<R: Threads + Wait + Sync + AllocGlobal>(rt: &R, look: &mut Look) -> Result<()> {
    what_is_closed_has_every_call(rt, look)?;
    a_call_is_an_event(rt, look)?;
    limits_are_tested(rt, look)?;
    refusals_have_their_numbers(rt, look)?;
    seats_are_refused(rt, look)
}

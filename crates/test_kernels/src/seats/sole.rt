//! A kernel of which only one thread calls at a time, without copies.

use super::samples::{first_bytes, first_in, open_segment, write};
use anyhow::Result;
use base::{Data, Limits, Meter, ObjectId};
use happy_calls::look::Look;
use happy_calls::samples::{MOST_PAGES, boot_thread, is_object, meter_again, new_thread};
use kernel_rules::{Call, Reply};
use published_copy::{BootRefusal, Naming, SoleBook};
use std::alloc::Global;
use std::marker::Brand;
use std::sync::Wait;
use std::thread::Threads;

/// Whether a call, made again where there was no memory, makes this object, as the event of this number.
fn makes<B: Naming>(
    book: &mut SoleBook<B>,
    thread: ObjectId,
    call: &Call,
    id: u64,
    number: u64,
    length: usize,
) -> bool {
    let mut reply = Reply::Done;
    let placed = match book.submit_into(thread, call, &mut reply) {
        Ok(placed) => Ok(placed),
        Err(_) => book.submit_into(thread, call, &mut reply),
    };
    match placed {
        Ok(placed) => { is_object(reply, id) && placed.number == number && placed.length == length }
        Err(_) => false,
    }
}

/// Whether a call, made again where there was no memory, is done.
fn does<B: Naming>(book: &mut SoleBook<B>, thread: ObjectId, call: &Call) -> bool {
    let mut reply = Reply::Done;
    let done = book.submit_into(thread, call, &mut reply).is_ok()
        || book.submit_into(thread, call, &mut reply).is_ok();
    done && matches!(reply, Reply::Done)
}

/// Whether a thread reads this first byte of a segment in the root.
fn reads<B: Naming>(book: &mut SoleBook<B>, thread: ObjectId, id: u64, byte: u8) -> bool {
    let mut reply = Reply::Done;
    book.read_into(thread, &first_bytes(id, 1), &mut reply);
    first_in(&reply) == Some(byte)
}

/// Whether a thread is given no seat, for the reason of this number.
fn refuses<B: Naming>(book: &mut SoleBook<B>, thread: u64, number: u8) -> bool {
    match book.seat(ObjectId::new(thread)) {
        Ok(()) => false,
        Err(refusal) => refusal.refusal().number() == number,
    }
}

// Two threads, each with a seat, write and read what the other wrote. No third one has a seat.
fn call_in_turn<B: Naming>(look: &mut Look, book: &mut SoleBook<B>) {
    let (boot, other) = (boot_thread(), ObjectId::new(4));
    look.sees(book.seat(boot).is_ok());
    look.sees(makes(book, boot, &new_thread(), 4, 1, 1));
    look.sees(makes(book, boot, &new_thread(), 5, 2, 2));
    look.sees(makes(book, boot, &open_segment(), 6, 3, 3));
    look.sees(refuses(book, 4096, 42));
    look.sees(book.seat(other).is_ok());
    look.sees(refuses(book, 4, 41) && refuses(book, 5, 43));
    look.sees(does(book, other, &write(6, Data::from_slice(b"x"))));
    look.sees(reads(book, boot, 6, b'x') && reads(book, other, 6, b'x'));
    look.sees(makes(book, other, &open_segment(), 7, 2, 5));
}

// At the end its journal has each call, and its kernel each thread.
fn close<B: Naming>(look: &mut Look, book: SoleBook<B>, meter: &mut Meter) {
    look.sees(book.kernel().is_thread(ObjectId::new(5), meter));
    look.sees(book.into_events().len() == 5);
}

fn use_alone<B: Naming>(
    look: &mut Look,
    alloc: Global,
    limits: &Limits,
    seats: usize,
) -> Result<()> {
    let mut meter = meter_again(alloc)?;
    let mut book = match SoleBook::<B>::boot(alloc, limits, seats) {
        Err(_) => SoleBook::<B>::boot(alloc, limits, seats)?,
        Ok(book) => book,
    };
    call_in_turn(look, &mut book);
    close(look, book, &mut meter);
    Ok(())
}

// Also where an allocation is refused: what is made again answers as if nothing had been.
fn want_of_memory_changes_nothing_alone<R: Threads + Wait + Sync + AllocGlobal>(
    rt: &R,
    look: &mut Look,
) -> Result<()> {
    look.part("want_of_memory_changes_nothing_alone");
    use_alone::<Brand>(look, rt.alloc(), &MOST_PAGES, 2)
}

fn is_out_of_range<B: Naming>(alloc: Global, limits: &Limits, seats: usize) -> bool {
    SoleBook::<B>::boot(alloc, limits, seats).err() == Some(BootRefusal::BadLimits)
}

fn limits_are_tested_alone<R: Threads + Wait + Sync + AllocGlobal>(
    rt: &R,
    look: &mut Look,
) -> Result<()> {
    look.part("limits_are_tested_alone");
    let limits = Limits {
        pages: 1025,
        ..MOST_PAGES
    };
    look.sees(is_out_of_range::<Brand>(rt.alloc(), &limits, 1));
    Ok(())
}

/// Plays what there is memory for.
pub fn play<R: Threads + Wait + Sync + AllocGlobal>(rt: &R, look: &mut Look) -> Result<()> {
    limits_are_tested_alone(rt, look)
}

/// Plays what is made again where there was no memory.
pub fn again<R: Threads + Wait + Sync + AllocGlobal>(rt: &R, look: &mut Look) -> Result<()> {
    want_of_memory_changes_nothing_alone(rt, look)
}

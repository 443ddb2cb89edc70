//! Threads that read while one writes, and while the lock is held.
use super::cases::{Case, play_case};
use super::samples::{
    event_count, first_byte, first_bytes, first_in, make_two, open_segment, passed, seated,
    submitted, write,
};
use anyhow::Result;
use base::{Data, Meter, ObjectId};
use happy_calls::look::Look;
use happy_calls::samples::{MOST_PAGES, boot_thread, new_thread};
use kept_events::events_of;
use kernel_rules::Reply;
use kernel_rules::histories::Event;
use published_copy::{Naming, Seat, Shared};
use std::alloc::Global;
use std::sync::{Mutex, Wait};
use std::thread;
use std::thread::Threads;
use syscall_core::{Machine, PlainKernel};

/// How many threads read, and how often each.
const READERS: u64 = 3;

const READS: u64 = 2000;

/// How often one writes meanwhile.
const WRITES: u8 = 200;

/// The segment, which the boot thread makes after the readers' threads.
const SEGMENT: u64 = READERS + 4;

/// The last byte that a seat reads of many, where each was read and none is less than the one
/// before.
fn read_up<B: Naming>(seat: &mut Seat<'_, B>) -> Option<u8> {
    let mut last = 0u8;
    for _ in 0..READS {
        let byte = first_byte(seat, SEGMENT)?;
        if byte < last {
            return None;
        }
        last = byte;
    }
    Some(last)
}

/// A seat that reads in a thread of its own, and what it read last.
#[derive(Drop)]
struct Reader<'a, B: Naming> {
    seat: Seat<'a, B>,
    last: Option<u8>,
}

fn read_all<B: Naming, R: Wait>(rt: &R, reader: &Mutex<Reader<'_, B>>) {
    let mut reader = reader.lock(rt);
    reader.last = read_up(&mut reader.seat);
}

/// Whether a byte is written to the beginning of the segment.
fn is_written<B: Naming, R: Wait>(rt: &R, boot: &mut Seat<'_, B>, byte: u8) -> bool {
    match submitted(rt, boot, &write(SEGMENT, Data::from_slice(&[byte]))) {
        Ok(receipt) => matches!(receipt.reply, Reply::Done),
        Err(_) => false,
    }
}

/// Whether 1, 2 and on are written.
fn are_written<B: Naming, R: Wait>(rt: &R, boot: &mut Seat<'_, B>) -> bool {
    let mut all = true;
    for byte in 1..=WRITES {
        if !is_written(rt, boot, byte) {
            all = false;
        }
    }
    all
}

/// Each reader reads in a thread of its own while the boot thread's seat writes 1, 2 and on. False
/// where a thread can't be started or a write is not done.
fn read_while_writing<'s, B: Naming + Send, R: Threads + Wait + Sync>(
    rt: &R,
    boot: &mut Seat<'s, B>,
    readers: &[Mutex<Reader<'s, B>>],
) -> bool {
    thread::scope(thread::scope_env(), rt, |scope| {
        let mut all = true;
        for reader in readers {
            if scope.spawn(move || read_all(rt, reader)).is_err() {
                all = false;
            }
        }
        are_written(rt, boot) && all
    })
}

/// Whether a plain kernel makes the calls of an event.
fn is_made(kernel: &mut PlainKernel, meter: &mut Meter, event: &Event) -> bool {
    for answered in &event.calls {
        if kernel.step(event.thread, &answered.call, meter).is_err() {
            return false;
        }
    }
    true
}

/// What a thread is answered by a plain kernel that makes the first events of a journal, so many.
fn byte_after(
    kernel: &mut PlainKernel,
    meter: &mut Meter,
    events: &[Event],
    length: u64,
    thread: ObjectId,
) -> Option<u8> {
    let mut left = length;
    for event in events {
        if left == 0 {
            break;
        }
        left = left.saturating_sub(1);
        if !is_made(kernel, meter, event) {
            return None;
        }
    }
    match kernel.ask(thread, &first_bytes(SEGMENT, 1), meter) {
        Ok(reply) => first_in(&reply),
        Err(_) => None,
    }
}

/// What a thread is answered by a newly booted plain kernel that makes the first events, so many.
fn replayed(
    alloc: Global,
    meter: &mut Meter,
    events: &[Event],
    length: u64,
    thread: ObjectId,
) -> Result<Option<u8>> {
    let mut kernel = PlainKernel::boot(alloc, &MOST_PAGES)?;
    Ok(byte_after(&mut kernel, meter, events, length, thread))
}

/// Whether what a reader read last is what a plain kernel answers after as many events as the
/// reader has seen.
fn is_replayed<B: Naming, R: Wait>(
    rt: &R,
    alloc: Global,
    shared: &Shared<B>,
    reader: Reader<'_, B>,
) -> Result<bool> {
    let Reader { seat, last } = reader;
    let pass = passed(seat);
    let (length, thread) = (pass.length(), pass.thread());
    let mut meter = Meter::new(alloc)?;
    let events = events_of(alloc, shared.book(rt).events())?;
    let byte = replayed(alloc, &mut meter, events.as_slice(), length, thread)?;
    Ok(last.is_some() && byte == last)
}

/// The readers' threads, and the segment.
fn make_readers<B: Naming, R: Wait>(rt: &R, boot: &mut Seat<'_, B>) -> Result<()> {
    for _ in 0..READERS {
        submitted(rt, boot, &new_thread())?;
    }
    submitted(rt, boot, &open_segment())?;
    Ok(())
}

fn add_reader<'s, B: Naming>(
    readers: &mut Vec<Mutex<Reader<'s, B>>>,
    seat: Seat<'s, B>,
) -> Result<()> {
    readers.push(Mutex::new(Reader { seat, last: None }))?;
    Ok(())
}

/// The seats of the readers' threads.
fn seat_readers<'s, B: Naming, R: Wait>(
    rt: &R,
    alloc: Global,
    shared: &'s Shared<B>,
) -> Result<Vec<Mutex<Reader<'s, B>>>> {
    let mut readers = Vec::new(alloc);
    for id in 4..SEGMENT {
        add_reader(&mut readers, seated(rt, shared, ObjectId::new(id))?)?;
    }
    Ok(readers)
}

/// Whether all readers read what a plain kernel answers.
fn are_replayed<B: Naming, R: Wait>(
    rt: &R,
    alloc: Global,
    shared: &Shared<B>,
    readers: Vec<Mutex<Reader<'_, B>>>,
) -> Result<bool> {
    let mut all = true;
    for reader in readers {
        if !is_replayed(rt, alloc, shared, reader.into_inner())? {
            all = false;
        }
    }
    Ok(all)
}

/// Readers read while one writes, and none reads less than before.
pub fn read_up_at<B: Naming + Send, R: Threads + Wait + Sync>(
    rt: &R,
    look: &mut Look,
    alloc: Global,
    shared: &Shared<B>,
) -> Result<()> {
    let mut boot = seated(rt, shared, boot_thread())?;
    make_readers(rt, &mut boot)?;
    let readers = seat_readers(rt, alloc, shared)?;
    look.sees(read_while_writing(rt, &mut boot, readers.as_slice()));
    look.sees(event_count(rt, shared) as u64 == READERS + 1 + WRITES as u64);
    look.sees(are_replayed(rt, alloc, shared, readers)?);
    Ok(())
}

fn reads_never_go_back<R: Threads + Wait + Sync + AllocGlobal>(
    rt: &R,
    look: &mut Look,
) -> Result<()> {
    look.part("reads_never_go_back");
    play_case(rt, look, rt.alloc(), Case::Readers)
}

fn read_first<B: Naming, R: Wait>(rt: &R, reader: &Mutex<Seat<'_, B>>) -> Option<u8> {
    first_byte(&mut reader.lock(rt), 5)
}

fn read_there<B: Naming + Send, R: Threads + Wait + Sync>(
    rt: &R,
    reader: &Mutex<Seat<'_, B>>,
) -> Option<u8> {
    thread::scope(thread::scope_env(), rt, |scope| {
        match scope.spawn(move || read_first(rt, reader)) {
            Ok(handle) => handle.join(rt),
            Err(_) => None,
        }
    })
}

// A read in another thread ends while this one has the lock, and so does one here.
fn read_while_lent_by<B: Naming + Send, R: Threads + Wait + Sync>(
    rt: &R,
    look: &mut Look,
    shared: &Shared<B>,
    boot: &mut Seat<'_, B>,
) -> Result<()> {
    make_two(rt, boot)?;
    write_a(rt, boot)?;
    let reader = Mutex::new(seated(rt, shared, ObjectId::new(4))?);
    let book = shared.book(rt);
    look.sees(read_there(rt, &reader) == Some(b'A'));
    look.sees(first_byte(boot, 5) == Some(b'A'));
    look.sees(book.events().len() == 3);
    Ok(())
}

/// The boot thread writes A to the segment 5.
fn write_a<B: Naming, R: Wait>(rt: &R, boot: &mut Seat<'_, B>) -> Result<()> {
    submitted(rt, boot, &write(5, Data::from_slice(b"A")))?;
    Ok(())
}

/// Reads are answered while the lock is held.
pub fn read_while_lent_at<B: Naming + Send, R: Threads + Wait + Sync>(
    rt: &R,
    look: &mut Look,
    shared: &Shared<B>,
) -> Result<()> {
    let mut boot = seated(rt, shared, boot_thread())?;
    read_while_lent_by(rt, look, shared, &mut boot)
}

fn reads_end_while_the_lock_is_held<R: Threads + Wait + Sync + AllocGlobal>(
    rt: &R,
    look: &mut Look,
) -> Result<()> {
    look.part("reads_end_while_the_lock_is_held");
    play_case(rt, look, rt.alloc(), Case::LentBook)
}

/// A seat reads in a thread of its own, while other seats are dropped here.
fn read_while_dropping<'s, B: Naming + Send, R: Threads + Wait + Sync>(
    rt: &R,
    reader: &Mutex<Seat<'s, B>>,
    others: Vec<Seat<'s, B>>,
) -> Option<u8> {
    thread::scope(thread::scope_env(), rt, |scope| {
        match scope.spawn(move || read_first(rt, reader)) {
            Ok(handle) => {
                drop(others);
                handle.join(rt)
            }
            Err(_) => None,
        }
    })
}

/// The seat of the thread 6, and the boot thread's.
fn others<'s, B: Naming, R: Wait>(
    rt: &R,
    alloc: Global,
    shared: &'s Shared<B>,
    boot: Seat<'s, B>,
) -> Result<Vec<Seat<'s, B>>> {
    let mut others = Vec::new(alloc);
    others.push(boot)?;
    others.push(seated(rt, shared, ObjectId::new(6))?)?;
    Ok(others)
}

/// The boot thread makes threads 4 and 6 and the segment 5, and writes A to it.
fn make_and_write<B: Naming, R: Wait>(rt: &R, boot: &mut Seat<'_, B>) -> Result<()> {
    make_two(rt, boot)?;
    submitted(rt, boot, &new_thread())?;
    write_a(rt, boot)
}

/// Seats are dropped while another one reads.
pub fn drop_at<B: Naming + Send, R: Threads + Wait + Sync>(
    rt: &R,
    look: &mut Look,
    alloc: Global,
    shared: &Shared<B>,
) -> Result<()> {
    let mut boot = seated(rt, shared, boot_thread())?;
    make_and_write(rt, &mut boot)?;
    let others = others(rt, alloc, shared, boot)?;
    let reader = Mutex::new(seated(rt, shared, ObjectId::new(4))?);
    look.sees(read_while_dropping(rt, &reader, others) == Some(b'A'));
    look.sees(event_count(rt, shared) == 4);
    Ok(())
}

fn seats_are_dropped_while_another_reads<R: Threads + Wait + Sync + AllocGlobal>(
    rt: &R,
    look: &mut Look,
) -> Result<()> {
    look.part("seats_are_dropped_while_another_reads");
    play_case(rt, look, rt.alloc(), Case::DroppedSeats)
}

/// Plays what there is memory for.
pub fn play<R: Threads + Wait + Sync + AllocGlobal>(rt: &R, look: &mut Look) -> Result<()> {
    reads_never_go_back(rt, look)?;
    reads_end_while_the_lock_is_held(rt, look)?;
    seats_are_dropped_while_another_reads(rt, look)
}

//! Each call without memory.
use super::cases::{Case, play_case};
use super::samples::{
    asked, committed, event_count, first_byte, is_made, is_shown_own, open_segment, passed, seated,
    submitted,
};
use anyhow::Result;
use base::ObjectId;
use happy_calls::look::Look;
use happy_calls::samples::{boot_thread, in_root, is_object, new_thread};
use kernel_rules::{Call, Query, Reply};
use published_copy::{BatchReceipt, BookGuard, Naming, Pass, Receipt, Seat, Shared, SubmitRefusal};
use std::sync::Wait;
use std::thread::Threads;

/// A call that is made again where there was no memory. None where the refusal was another one, or
/// changed the journal.
fn submit_again<B: Naming, R: Wait>(
    rt: &R,
    shared: &Shared<B>,
    seat: &mut Seat<'_, B>,
    call: &Call,
) -> Option<Receipt> {
    let events = event_count(rt, shared);
    match submitted(rt, seat, call) {
        Ok(receipt) => Some(receipt),
        Err(SubmitRefusal::Memory) if event_count(rt, shared) == events => {
            submitted(rt, seat, call).ok()
        }
        Err(_) => None,
    }
}

/// Whether a call, made again where there was no memory, made this object as this event.
fn is_submitted<B: Naming, R: Wait>(
    rt: &R,
    shared: &Shared<B>,
    seat: &mut Seat<'_, B>,
    call: &Call,
    id: u64,
    number: u64,
    length: usize,
) -> bool {
    match submit_again(rt, shared, seat, call) {
        Some(receipt) => is_made(&receipt, id, number, length),
        None => false,
    }
}

/// A call under a lent book, made again where there was no memory.
fn commit_again<B: Naming, R: Wait>(
    rt: &R,
    book: &mut BookGuard<'_, B>,
    pass: &mut Pass<B>,
    call: &Call,
) -> Option<Receipt> {
    let events = book.events().len();
    match committed(rt, book, pass, call) {
        Ok(receipt) => Some(receipt),
        Err(SubmitRefusal::Memory) if book.events().len() == events => {
            committed(rt, book, pass, call).ok()
        }
        Err(_) => None,
    }
}

/// Whether that call made this object as this event.
fn is_committed<B: Naming, R: Wait>(
    rt: &R,
    book: &mut BookGuard<'_, B>,
    pass: &mut Pass<B>,
    id: u64,
    number: u64,
    length: usize,
) -> bool {
    match commit_again(rt, book, pass, &open_segment()) {
        Some(receipt) => is_made(&receipt, id, number, length),
        None => false,
    }
}

/// Whether a segment has one page, for a seat.
fn is_one_page<B: Naming>(seat: &mut Seat<'_, B>, id: u64) -> bool {
    matches!(
        asked(seat, &Query::SegmentLen { entry: in_root(id) }),
        Ok(Reply::Pages(1))
    )
}

// Nine segments, each of which is read once it is made.
fn make_segments<B: Naming, R: Wait>(
    rt: &R,
    look: &mut Look,
    shared: &Shared<B>,
    seat: &mut Seat<'_, B>,
) -> Result<()> {
    look.sees(is_shown_own(seat));
    for number in 1..10u64 {
        let length = number as usize;
        look.sees(is_submitted(
            rt,
            shared,
            seat,
            &open_segment(),
            number + 3,
            number,
            length,
        ));
        look.sees(first_byte(seat, number + 3) == Some(0));
    }
    Ok(())
}

// A seat makes a segment that another one learns of.
fn make_for_another<B: Naming, R: Wait>(
    rt: &R,
    look: &mut Look,
    shared: &Shared<B>,
    seat: &mut Seat<'_, B>,
    other: &mut Seat<'_, B>,
) {
    look.sees(is_shown_own(other));
    look.sees(is_submitted(rt, shared, other, &open_segment(), 14, 1, 11));
    seat.learn(&other.note());
    look.sees(is_one_page(seat, 14));
}

// Nine segments, and a thread and a seat for it, which makes a segment that the first seat learns of.
fn make_another_seat<B: Naming, R: Wait>(
    rt: &R,
    look: &mut Look,
    shared: &Shared<B>,
    seat: &mut Seat<'_, B>,
) -> Result<()> {
    make_segments(rt, look, shared, seat)?;
    look.sees(is_submitted(rt, shared, seat, &new_thread(), 13, 10, 10));
    let mut other = seated(rt, shared, ObjectId::new(13))?;
    make_for_another(rt, look, shared, seat, &mut other);
    Ok(())
}

// Nine segments more, by calls under a lent book.
fn make_under_book<B: Naming, R: Wait>(
    rt: &R,
    look: &mut Look,
    shared: &Shared<B>,
    mut pass: Pass<B>,
) -> Result<()> {
    let mut book = shared.book(rt);
    for number in 11..20u64 {
        let length = number as usize + 1;
        look.sees(is_committed(rt, &mut book, &mut pass, number + 4, number, length));
    }
    Ok(())
}

/// Each read is answered, also after a call that found no memory and a seat that was opened then.
pub fn want_memory_at<B: Naming, R: Wait>(
    rt: &R,
    look: &mut Look,
    shared: &Shared<B>,
) -> Result<()> {
    let mut seat = seated(rt, shared, boot_thread())?;
    make_another_seat(rt, look, shared, &mut seat)?;
    make_under_book(rt, look, shared, passed(seat))
}

/// A batch of two segments, made again where there was no memory. None where the refusal was another one, or changed the
/// journal.
fn batch_again<B: Naming, R: Wait>(
    rt: &R,
    shared: &Shared<B>,
    seat: &mut Seat<'_, B>,
) -> Option<BatchReceipt> {
    let calls = [open_segment(), open_segment()];
    let events = event_count(rt, shared);
    match seat.submit_batch(rt, &calls) {
        Err(SubmitRefusal::Memory) if event_count(rt, shared) == events => {
            seat.submit_batch(rt, &calls).ok()
        }
        answer => answer.ok(),
    }
}

/// Whether a batch, made again where there was no memory, made this object and the next as this event.
fn is_batched<B: Naming, R: Wait>(
    rt: &R,
    shared: &Shared<B>,
    seat: &mut Seat<'_, B>,
    id: u64,
    number: u64,
) -> bool {
    match batch_again(rt, shared, seat) {
        Some(receipt) => match receipt.replies.as_slice() {
            [one, other] => {
                is_object(*one, id)
                    && is_object(*other, id.saturating_add(1))
                    && receipt.number == number
            }
            _ => false,
        },
        None => false,
    }
}

/// Five batches, each made again where there was no memory.
pub fn want_batches_at<B: Naming, R: Wait>(
    rt: &R,
    look: &mut Look,
    shared: &Shared<B>,
) -> Result<()> {
    let mut seat = seated(rt, shared, boot_thread())?;
    for number in 1..6u64 {
        look.sees(is_batched(rt, shared, &mut seat, number * 2 + 2, number));
    }
    Ok(())
}

// A batch for which there is no memory changes nothing.
fn want_of_memory_makes_no_batch_by_half<R: Threads + Wait + Sync + AllocGlobal>(
    rt: &R,
    look: &mut Look,
) -> Result<()> {
    look.part("want_of_memory_makes_no_batch_by_half");
    play_case(rt, look, rt.alloc(), Case::WantedBatches)
}

// Where an allocation is refused, nothing has changed: what is made again answers as if nothing had
// been.
fn want_of_memory_changes_nothing<R: Threads + Wait + Sync + AllocGlobal>(
    rt: &R,
    look: &mut Look,
) -> Result<()> {
    look.part("want_of_memory_changes_nothing");
    play_case(rt, look, rt.alloc(), Case::WantedMemory)
}

// A call finds no memory, and then a seat is opened, which reads all the same.
fn open_after_by<B: Naming, R: Wait>(
    rt: &R,
    look: &mut Look,
    shared: &Shared<B>,
    boot: &mut Seat<'_, B>,
) -> Result<()> {
    look.sees(is_submitted(rt, shared, boot, &new_thread(), 4, 1, 1));
    let _ = submitted(rt, boot, &Call::CatCreate);
    let mut other = seated(rt, shared, ObjectId::new(4))?;
    look.sees(is_shown_own(&mut other));
    Ok(())
}

/// A first call finds no memory, and then a seat is opened, which reads all the same.
pub fn open_after_at<B: Naming, R: Wait>(
    rt: &R,
    look: &mut Look,
    shared: &Shared<B>,
) -> Result<()> {
    let mut boot = seated(rt, shared, boot_thread())?;
    open_after_by(rt, look, shared, &mut boot)?;
    look.sees(is_shown_own(&mut boot));
    Ok(())
}

// Seats are opened and read where a call found no memory just before.
fn want_of_memory_lets_readers_in<R: Threads + Wait + Sync + AllocGlobal>(
    rt: &R,
    look: &mut Look,
) -> Result<()> {
    look.part("want_of_memory_lets_readers_in");
    play_case(rt, look, rt.alloc(), Case::WantedReaders)
}

/// Plays what is made again where there was no memory.
pub fn again<R: Threads + Wait + Sync + AllocGlobal>(rt: &R, look: &mut Look) -> Result<()> {
    want_of_memory_makes_no_batch_by_half(rt, look)?;
    want_of_memory_changes_nothing(rt, look)?;
    want_of_memory_lets_readers_in(rt, look)
}

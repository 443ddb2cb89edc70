//! What seats call and ask, and how their refusals and answers are looked at. What scenes call
//! has no contract here: a scene sees what it wants, and the prover need not carry the rest.
use anyhow::Result;
use base::{Data, Level, ObjectId};
use happy_calls::look::Look;
use happy_calls::samples::{everywhere, in_root, is_object, new_segment, new_thread};
use kernel_rules::{Call, Query, Reply};
use published_copy::{
    BookGuard, Naming, Pass, Receipt, Seat, SeatRefusal, Shared, SubmitRefusal, Unread,
};
use std::sync::Wait;

/// A call that makes a segment of one page that everyone observes.
pub fn open_segment() -> Call {
    new_segment(everywhere(Level::L1))
}

/// A call that writes to the beginning of a segment in the root.
pub fn write(id: u64, text: Data) -> Call {
    Call::SegmentWrite {
        entry: in_root(id),
        offset: 0,
        data: text,
    }
}

/// A query for the first bytes of a segment in the root.
pub fn first_bytes(id: u64, count: u32) -> Query {
    Query::SegmentRead {
        entry: in_root(id),
        offset: 0,
        count,
    }
}

/// A seat of this thread.
pub fn seated<'s, B: Naming, R: Wait>(
    rt: &R,
    shared: &'s Shared<B>,
    thread: ObjectId,
) -> Result<Seat<'s, B>, SeatRefusal> {
    shared.open_seat(rt, thread)
}

/// What a call through a seat answers.
pub fn submitted<B: Naming, R: Wait>(
    rt: &R,
    seat: &mut Seat<'_, B>,
    call: &Call,
) -> Result<Receipt, SubmitRefusal> {
    seat.submit(rt, call)
}

/// The boot thread makes a thread, 4, and a segment that everyone observes, 5.
pub fn make_two<B: Naming, R: Wait>(rt: &R, boot: &mut Seat<'_, B>) -> Result<(), SubmitRefusal> {
    submitted(rt, boot, &new_thread())?;
    submitted(rt, boot, &open_segment())?;
    Ok(())
}

/// What a call under a lent book answers.
pub fn committed<B: Naming, R: Wait>(
    rt: &R,
    book: &mut BookGuard<'_, B>,
    pass: &mut Pass<B>,
    call: &Call,
) -> Result<Receipt, SubmitRefusal> {
    book.commit(rt, pass, call)
}

/// What a query through a seat answers.
pub fn asked<B: Naming>(seat: &mut Seat<'_, B>, query: &Query) -> Result<Reply, Unread> {
    seat.read(query)
}

/// How many events there are.
pub fn event_count<B: Naming, R: Wait>(rt: &R, shared: &Shared<B>) -> usize {
    shared.book(rt).events().len()
}

/// Whether a receipt has this object, number and length.
pub fn is_made(receipt: &Receipt, id: u64, number: u64, length: usize) -> bool {
    is_object(receipt.reply, id) && receipt.number == number && receipt.length == length
}

/// Whether a call was done, as this event.
pub fn is_done_as(receipt: &Receipt, number: u64, length: usize) -> bool {
    matches!(receipt.reply, Reply::Done) && receipt.number == number && receipt.length == length
}

/// Whether a seat is refused by this number.
pub fn is_refused<B: Naming, R: Wait>(
    rt: &R,
    shared: &Shared<B>,
    thread: ObjectId,
    number: u8,
) -> bool {
    match shared.open_seat(rt, thread).err() {
        Some(refusal) => refusal.refusal().number() == number,
        None => false,
    }
}

/// The first byte that a reply has.
pub fn first_in(reply: &Reply) -> Option<u8> {
    match reply {
        Reply::Bytes(data) => data.as_slice().first().copied(),
        _ => None,
    }
}

/// The first byte of a segment in the root, as a seat reads it.
pub fn first_byte<B: Naming>(seat: &mut Seat<'_, B>, id: u64) -> Option<u8> {
    match asked(seat, &first_bytes(id, 1)) {
        Ok(reply) => first_in(&reply),
        Err(_) => None,
    }
}

/// How many events a seat has seen with a read of the first byte of a segment in the root, where that is 0.
pub fn length_of_read<B: Naming>(seat: &mut Seat<'_, B>, id: u64) -> Option<usize> {
    let receipt = seat.read_at(&first_bytes(id, 1)).ok()?;
    match first_in(&receipt.reply) {
        Some(0) => Some(receipt.length),
        _ => None,
    }
}

/// The pass of a seat that is used no more.
pub fn passed<B: Naming>(seat: Seat<'_, B>) -> Pass<B> {
    seat.into_pass()
}

/// Whether a pass has seen so many events, and its next event is of this number.
pub fn is_at<B: Naming>(pass: &Pass<B>, number: u64, length: u64) -> bool {
    pass.number() == number && pass.length() == length
}

/// Whether a seat's thread is shown its own values.
pub fn is_shown_own<B: Naming>(seat: &mut Seat<'_, B>) -> bool {
    matches!(seat.read(&Query::SelfGet), Ok(Reply::Own { .. }))
}

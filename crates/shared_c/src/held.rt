//! What C's memory holds: a seat at a kernel that is shared, or why there is none.
ghost use Rattle.std.specs.Prelude.{◌≡◌, Some, Ok};
ghost use Rattle.call_records.specs.Logs.{log_request_of};
ghost use Rattle.shared_c.specs.Asking.{batch_call_of, seat_request_of};
ghost use Rattle.shared_c.specs.Served.{has_log, IsAsked, IsCalled, IsDone, IsFirstSeat, IsKeptAs, IsOther, IsSeatBeside, IsServed, limits_of, number_of, seat_in};

use crate::asking::{SeatRequest, batch_call_into, seat_request_of, tell_count};
use crate::batches::{begin, keep, make_batch, tell_reply};
use crate::dumps::{answer_log, begin_dump};
use base::{Limits, Meter, ObjectId};
use call_records::{Answer, Request, call_into, level_of, log_request_of, query_of, tell};
use kernel_rules::{Call, Reply};
use shared_calls::{Seat, SeatDump, SubmitRefusal};
use std::alloc::Global;

/// A seat, with what its calls need beside it.
#[derive(Drop)]
pub struct KeptSeat {
    /// The seat.
    pub seat: Seat,
    /// Where its calls take memory.
    pub alloc: Global,
    /// What telling counts on.
    pub meter: Meter,
    /// The last call. A call is large, so none is made anew.
    pub call: Call,
    /// The last reply. A reply is large, so none is made anew.
    pub reply: Reply,
    /// The calls that are kept for a batch.
    pub calls: Vec<Call>,
    /// What the calls of the batch that was made last were answered.
    pub replies: Vec<Reply>,
    /// The piece of a dump that was made last.
    pub text: Vec<u8>,
    /// The dump that it is of, where more of it comes.
    pub dump: Option<SeatDump>,
}

/// A seat, or the number that tells why there is none: 30 for want of memory, 31 for limits out of range.
#[derive(Drop)]
pub struct HeldSeat {
    /// The seat, or why there is none.
    pub seat: Result<KeptSeat, u32>,
}

/// A seat with what its calls need, or why there is none.
fn kept_seat(alloc: Global, seat: Seat) -> Result<KeptSeat, u32>
    ensures { IsKeptAs seat (seat_in result) }
{
    match Meter::new(alloc) {
        Ok(meter) => Ok(KeptSeat {
            seat,
            alloc,
            meter,
            call: Call::CatCreate,
            reply: Reply::Done,
            calls: Vec::new(alloc),
            replies: Vec::new(alloc),
            text: Vec::new(alloc),
            dump: None,
        }),
        Err(_) => Err(30),
    }
}

/// The first seat of a kernel to share, or why there is none.
fn new_seat(alloc: Global, limits: &Limits, most: u64, is_logged: bool) -> Result<KeptSeat, u32>
    ensures { IsFirstSeat (Some limits.now) is_logged (seat_in result) }
{
    if !limits.is_in_range() {
        return Err(31);
    }
    match Seat::first(alloc, limits, most as usize, is_logged) {
        Ok(seat) => kept_seat(alloc, seat),
        Err(_) => Err(30),
    }
}

/// The first seat of a kernel to share, with these limits, or why there is none. Its list has a log unless `logs` is 0.
pub(crate) fn first(
    alloc: Global,
    pages: u32,
    device: u8,
    next_id: u64,
    next_category: u64,
    most: u64,
    logs: u8,
) -> HeldSeat
    ensures { IsFirstSeat (limits_of pages device next_id next_category) (has_log logs) (seat_in result.seat) }
{
    let Some(device) = level_of(device) else {
        return HeldSeat { seat: Err(31) };
    };
    let limits = Limits {
        pages,
        device,
        next_id,
        next_category,
    };
    HeldSeat {
        seat: new_seat(alloc, &limits, most, logs != 0),
    }
}

/// Another seat beside one, or why there is none.
fn seat_beside(alloc: Global, kept: &KeptSeat) -> Result<KeptSeat, u32>
    ensures { IsSeatBeside (Ok kept.now.seat) (seat_in result) }
{
    match kept.seat.beside(alloc) {
        Ok(seat) => kept_seat(alloc, seat),
        Err(_) => Err(30),
    }
}

/// Another seat beside the one that is held, or why there is none.
pub(crate) fn beside(held: &mut HeldSeat, alloc: Global) -> HeldSeat
    ensures { (held.new ≡ held.old) × IsSeatBeside (seat_in held.old.seat) (seat_in result.seat) }
{
    let seat = match &held.seat {
        Ok(kept) => seat_beside(alloc, kept),
        Err(why) => Err(*why),
    };
    HeldSeat { seat }
}

/// The number that tells why calls are not made: 40 for want of memory, 45 where they are no batch, 46 where another seat adds a batch
/// at this moment, 47 where the list has no room.
pub(crate) fn refusal_number(refusal: SubmitRefusal) -> u32
    ensures { result ≡ number_of refusal }
{
    match refusal {
        SubmitRefusal::Memory => 40,
        SubmitRefusal::BadBatch => 45,
        SubmitRefusal::Busy => 46,
        SubmitRefusal::Full => 47,
    }
}

/// Makes the call that stands in the seat, and gives the number of the refusal: 0 for none.
fn make(kept: &mut KeptSeat, thread: ObjectId, answer: &mut Answer) -> u32
    ensures { IsCalled kept.old.call thread kept.old kept.new result answer.old answer.new }
{
    let made = kept
        .seat
        .submit_into(kept.alloc, thread, &kept.call, &mut kept.reply);
    match made {
        Ok(()) => tell(&kept.reply, answer, &mut kept.meter),
        Err(refusal) => refusal_number(refusal),
    }
}

/// Does what is asked of the seat, and gives the number of the refusal: 48 where the list has fewer batches than a note tells.
#[inline(never)]
fn answer_asked(
    kept: &mut KeptSeat,
    asked: SeatRequest,
    thread: ObjectId,
    answer: &mut Answer,
) -> u32
    ensures { IsAsked asked thread kept.old kept.new result answer.old answer.new }
{
    match asked {
        SeatRequest::Seen => {
            tell_count(kept.seat.count() as u64, answer);
            0
        }
        SeatRequest::Learn { count } => {
            if kept.seat.learn(count as usize) {
                return 0;
            }
            48
        }
        SeatRequest::Begin => {
            begin(kept);
            0
        }
        SeatRequest::Make => make_batch(kept, thread),
        SeatRequest::Told { at } => tell_reply(kept, at, answer),
        SeatRequest::DumpTo { count } => begin_dump(kept, count),
    }
}

/// Answers what is no call and no query, and gives the number of the refusal: 45 where the record asks for nothing.
#[inline(never)]
fn answer_other(kept: &mut KeptSeat, request: &Request, answer: &mut Answer) -> u32
    ensures { IsOther (seat_request_of request.now) (log_request_of request.now)
        (batch_call_of request.now) request.now.thread
        kept.old kept.new result answer.old answer.new }
{
    if let Some(asked) = seat_request_of(request) {
        return answer_asked(kept, asked, ObjectId::new(request.thread), answer);
    }
    if let Some(asked) = log_request_of(request) {
        return answer_log(kept, asked, answer);
    }
    if batch_call_into(request, &mut kept.call).is_some() {
        return keep(kept);
    }
    45
}

/// Does what the record asks for, and gives the number of the refusal: 45 where the record asks for nothing.
fn answer_kept(kept: &mut KeptSeat, request: &Request, answer: &mut Answer) -> u32
    ensures { IsDone request.now kept.old kept.new result answer.old answer.new }
{
    let thread = ObjectId::new(request.thread);
    if call_into(request, &mut kept.call).is_some() {
        return make(kept, thread, answer);
    }
    if let Some(query) = query_of(request) {
        kept.seat.read_into(thread, &query, &mut kept.reply);
        return tell(&kept.reply, answer, &mut kept.meter);
    }
    answer_other(kept, request, answer)
}

/// The same, or why there is no seat.
pub(crate) fn serve(held: &mut HeldSeat, request: &Request, answer: &mut Answer) -> u32
    ensures { IsServed request.now held.old.seat held.new.seat result answer.old answer.new }
{
    match &mut held.seat {
        Ok(kept) => answer_kept(kept, request, answer),
        Err(why) => *why,
    }
}

/// Gives back what a seat took.
pub(crate) fn end_seat(held: HeldSeat) {
    drop(held);
}

/// What may be handed to another thread.
fn crosses<T: Send>(_value: &T) {}

/// A seat in C's memory may be called by one thread and then by another, while others call other seats.
fn seat_crosses(held: &HeldSeat) {
    crosses(held);
}

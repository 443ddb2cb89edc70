//! Readers of one seat's kernel at once, each in C's memory.
ghost use Rattle.std.specs.Prelude.{◌≡◌, Ok};
ghost use Rattle.call_records.specs.Queries.{query_of};
ghost use Rattle.shared_c.specs.Readers.{IsAskedOf, IsReaderOf, IsReadBy, reader_in};
ghost use Rattle.shared_c.specs.Served.{seat_in};

use crate::held::{HeldSeat, KeptSeat};
use base::{Meter, ObjectId};
use call_records::{Answer, Request, query_of, tell};
use kernel_rules::Reply;
use shared_calls::Reader;
use std::alloc::Global;

/// A reader, with what its reads need beside it.
#[derive(Drop)]
pub struct KeptReader {
    /// The reader.
    pub reader: Reader,
    /// What its reads count on.
    pub meter: Meter,
    /// The last reply. A reply is large, so none is made anew.
    pub reply: Reply,
}

/// A reader, or the number that tells why there is none: 30 for want of memory, or why there is no seat.
#[derive(Drop)]
pub struct HeldReader {
    /// The reader, or why there is none.
    pub reader: Result<KeptReader, u32>,
}

/// A reader of a seat's kernel, or why there is none.
fn new_reader(alloc: Global, kept: &KeptSeat) -> Result<KeptReader, u32>
    ensures { IsReaderOf (Ok kept.now.seat) (reader_in result) }
{
    let Ok(reader) = kept.seat.reader() else {
        return Err(30);
    };
    match Meter::new(alloc) {
        Ok(meter) => Ok(KeptReader {
            reader,
            meter,
            reply: Reply::Done,
        }),
        Err(_) => Err(30),
    }
}

/// A reader of the kernel of the seat that is held, or why there is none.
pub(crate) fn reader_of(held: &mut HeldSeat, alloc: Global) -> HeldReader
    ensures { (held.new ≡ held.old) × IsReaderOf (seat_in held.old.seat) (reader_in result.reader) }
{
    let reader = match &held.seat {
        Ok(kept) => new_reader(alloc, kept),
        Err(why) => Err(*why),
    };
    HeldReader { reader }
}

/// Answers the query that the record asks, and gives the number of the refusal: 45 where it asks none.
fn answer_query(kept: &mut KeptReader, request: &Request, answer: &mut Answer) -> u32
    ensures same { kept.new.reader ≡ kept.old.reader }
    ensures told { IsAskedOf (query_of request.now) request.now.thread kept.old.reader result answer.old answer.new }
{
    let Some(query) = query_of(request) else {
        return 45;
    };
    let thread = ObjectId::new(request.thread);
    kept.reader
        .ask_into(thread, &query, &mut kept.reply, &mut kept.meter);
    tell(&kept.reply, answer, &mut kept.meter)
}

/// The same, or why there is no reader.
pub(crate) fn read(held: &mut HeldReader, request: &Request, answer: &mut Answer) -> u32
    ensures { IsReadBy request.now held.old.reader held.new.reader result answer.old answer.new }
{
    match &mut held.reader {
        Ok(kept) => answer_query(kept, request, answer),
        Err(why) => *why,
    }
}

/// Gives back what a reader took.
pub(crate) fn end_reader(held: HeldReader) {
    drop(held);
}

/// What may be handed to another thread.
fn crosses<T: Send>(_value: &T) {}

/// A reader in C's memory may be called by one thread and then by another, while others call other readers.
fn reader_crosses(held: &HeldReader) {
    crosses(held);
}

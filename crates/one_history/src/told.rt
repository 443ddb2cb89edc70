//! What is told of one history.
ghost use Rattle.std.specs.Prelude.{◌≡◌, IfOk};
ghost use mathlib.Core.List.{IsPrefix};
ghost use Rattle.one_history.specs.OneHistory.{IsAnswered, IsCalled, IsOneHistory};

use crate::faults::RoundFault;
use crate::kept::{KeptParts, Looked, kept_of};
use base::{Meter, ObjectId};
use kernel_rules::{Call, Query, Reply};
use published_copy::{BatchReceipt, Naming, Note, Pass, Shared};
use std::sync::Wait;

/// What is asked: a batch of calls of one thread, then a query of another, then what is looked at. Neither thread has a seat or
/// an event.
#[derive(Clone, Copy)]
pub struct Round<'a> {
    /// The thread that calls.
    pub writer: ObjectId,
    /// Its calls, 1 to 16.
    pub calls: &'a [Call],
    /// The thread that reads.
    pub reader: ObjectId,
    /// Its query.
    pub query: &'a Query,
    /// What is looked at in the book's kernel.
    pub looked: &'a Looked,
}

/// What is told.
#[derive(Drop)]
pub struct RoundAnswers {
    /// What the calls were answered, and where their event stands.
    pub receipt: BatchReceipt,
    /// What the query was answered.
    pub reply: Reply,
    /// What the book's kernel keeps.
    pub kept: KeptParts,
}

/// A thread's first batch, through a seat, and the note of it.
fn called<B: Naming, R: Wait>(
    rt: &R,
    shared: &Shared<B>,
    thread: ObjectId,
    calls: &[Call],
) -> Result<(BatchReceipt, Note<B>), RoundFault>
    ensures { IfOk result (λ told. IsCalled B.boot.limits thread calls.now told.0 told.1) }
{
    let mut seat = shared.open_seat(rt, thread)?;
    let receipt = seat.submit_batch(rt, calls)?;
    Ok((receipt, seat.note()))
}

/// A thread's query, through a seat that has learnt a note, and what it has seen then.
fn answered<B: Naming, R: Wait>(
    rt: &R,
    shared: &Shared<B>,
    note: &Note<B>,
    thread: ObjectId,
    query: &Query,
) -> Result<(Reply, Pass<B>), RoundFault>
    ensures { IfOk result (λ told. IsAnswered B.boot.limits note.now thread query.now told.0 told.1.seen) }
{
    let mut seat = shared.open_seat(rt, thread)?;
    seat.learn(note);
    let reply = seat.read(query)?;
    Ok((reply, seat.into_pass()))
}

/// A thread makes a batch of calls, another one learns of it and reads, and then the book is looked at: all three are told of one
/// legal history. It waits for the lock, and for those who read the copy that takes the calls in. An error tells which step was
/// refused; the steps before it are made.
pub fn told_by<B: Naming, R: Wait>(
    rt: &R,
    shared: &Shared<B>,
    asked: &Round<'_>,
    meter: &mut Meter,
) -> Result<RoundAnswers, RoundFault>
    ensures { IfOk result (λ told. IsOneHistory B.boot.limits asked.now.writer asked.now.calls.now asked.now.reader
        asked.now.query.now asked.now.looked.now told.receipt told.reply told.kept) }
{
    let (receipt, note) = called(rt, shared, asked.writer, asked.calls)?;
    let (reply, pass) = answered(rt, shared, &note, asked.reader, asked.query)?;
    let book = shared.book(rt);
    if !book.has_seen(&pass) {
        return Err(RoundFault::Behind);
    }
    // For the proof alone: the journal is legal.
    let _legal = book.events().len();
    let kept = kept_of(book.kernel(), asked.looked, meter);
    Ok(RoundAnswers {
        receipt,
        reply,
        kept,
    })
}

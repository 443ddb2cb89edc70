//! A thread's place at a kernel that it shares.
ghost use Rattle.std.specs.Prelude.{◌≡◌, ◌∷◌, [], IfOk, IfErr, OnOk, OnErr};
ghost use mathlib.Core.List.{IsPrefix};
ghost use Rattle.kernel_rules.specs.History.{IsLegal};
ghost use Rattle.published_copy.specs.Turns.{IsSubmitted, IsBatchSubmitted, IsNotSubmitted, IsRead, IsReadAt, IsLearnt};
ghost use Rattle.published_copy.specs.Turns.{seat_with, receipt_with};

use crate::books::Book;
use crate::log_positions::LogPosition;
use crate::naming::Naming;
use crate::notes::Note;
use crate::passes::Pass;
use crate::read_handles::ReadHandle;
use crate::receipts::{BatchReceipt, Placed, ReadReceipt, Receipt};
use crate::refusals::{SubmitRefusal, Unread};
use base::Meter;
use kernel_rules::{Call, Query, Reply};
use std::marker::Model;
use std::sync::{Mutex, Wait};

/// A thread's place at a kernel that it shares: the thread calls and reads through it. A contract
/// sees it as its pass and the longest list of events that it was told of. It has a reader of the published copy at all
/// times.
#[derive(Drop)]
pub struct Seat<'a, B: Naming> {
    lock: &'a Mutex<Book<B>>,
    pass: Pass<B>,
    told: LogPosition<B>,
    handle: Option<ReadHandle<B>>,
    meter: Meter,
}

impl<'a, B: Naming> Model for Seat<'a, B> {
    ghost use mathlib.Core.List.{IsPrefix};
    ghost use Rattle.std.specs.Prelude.{IsSome};
    ghost use Rattle.published_copy.specs.Turns.{SeatView, seat_with};

    ghost Value = { SeatView };

    ghost view = { λ s. seat_with s.pass s.told };

    ghost invariant = { λ s. IsPrefix s.told s.pass.seen × IsSome s.handle };
}

impl<'a, B: Naming> Seat<'a, B> {
    /// The seat of a pass at the book under a lock, which was told of what the pass has seen.
    #[tactic(auto, using(crate::proofs::Prefixes::prefix_self))]
    pub(crate) fn new(
        lock: &'a Mutex<Book<B>>,
        pass: Pass<B>,
        handle: ReadHandle<B>,
        meter: Meter,
    ) -> Seat<'a, B>
        ensures { result ≡ seat_with pass pass.seen }
    {
        let told = pass.position().again();
        Seat {
            lock,
            pass,
            told,
            handle: Some(handle),
            meter,
        }
    }
}

impl<B: Naming> Seat<'_, B> {
    /// Makes a call, which waits for the lock and is then one event of the journal: the seat's next
    /// number's, after all that the seat had seen. An error changes nothing; `Memory` is want of
    /// memory, and `OutOfTurn` comes where `BookGuard::commit` says.
    pub fn submit<R: Wait>(&mut self, rt: &R, call: &Call) -> Result<Receipt, SubmitRefusal>
        ensures done { IfOk result
            (λ receipt. IsSubmitted B.boot.limits self.old call.now receipt self.new) }
        ensures refused { IfErr result
            (λ refusal. IsNotSubmitted B.boot.limits self.old.pass (call.now ∷ []) refusal) }
        ensures kept { OnErr result (self.new ≡ self.old) }
    {
        let mut reply = Reply::Done;
        let placed = self.submit_into(rt, call, &mut reply)?;
        Ok(placed.receipt(&reply))
    }

    /// Makes a call as `submit` does, with its reply put where the caller wants it: a reply is large.
    /// It tells where the event stands.
    #[tactic(auto, using(crate::proofs::Prefixes::prefix_self))]
    pub fn submit_into<R: Wait>(
        &mut self,
        rt: &R,
        call: &Call,
        reply: &mut Reply,
    ) -> Result<Placed, SubmitRefusal>
        ensures done { IfOk result (λ placed. IsSubmitted B.boot.limits self.old call.now
            (receipt_with reply.new placed) self.new) }
        ensures refused { IfErr result
            (λ refusal. IsNotSubmitted B.boot.limits self.old.pass (call.now ∷ []) refusal) }
        ensures kept { OnErr result (self.new ≡ self.old) }
    {
        let made = self.lock.lock(rt).commit(rt, &mut self.pass, call, reply);
        match made {
            Ok(placed) => {
                self.told = self.pass.position().again();
                Ok(placed)
            }
            Err(refusal) => Err(refusal),
        }
    }

    /// Makes 1 to 16 calls, which waits for the lock; they are then one event of the journal, as `BookGuard::commit_batch` says.
    /// An error changes nothing; `BadBatch` comes exactly where there are other numbers of calls.
    #[tactic(auto, using(crate::proofs::Prefixes::prefix_self))]
    pub fn submit_batch<R: Wait>(
        &mut self,
        rt: &R,
        calls: &[Call],
    ) -> Result<BatchReceipt, SubmitRefusal>
        ensures done { IfOk result (λ receipt.
            IsBatchSubmitted B.boot.limits self.old calls.now receipt self.new) }
        ensures refused { IfErr result
            (λ refusal. IsNotSubmitted B.boot.limits self.old.pass calls.now refusal) }
        ensures kept { OnErr result (self.new ≡ self.old) }
    {
        let made = self.lock.lock(rt).commit_batch(rt, &mut self.pass, calls);
        match made {
            Ok(receipt) => {
                self.told = self.pass.position().again();
                Ok(receipt)
            }
            Err(refusal) => Err(refusal),
        }
    }

    /// Asks the copy that is published, which is no event, and no step behind what the seat has
    /// seen. It waits for nobody and takes no memory. `Unread` comes where no reader is let in any
    /// more, and changes nothing.
    pub fn read(&mut self, query: &Query) -> Result<Reply, Unread>
        ensures done { IfOk result
            (λ reply. IsRead B.boot.limits self.old query.now reply self.new) }
        ensures kept { OnErr result (self.new ≡ self.old) }
    {
        let mut reply = Reply::Done;
        self.read_into(query, &mut reply)?;
        Ok(reply)
    }

    /// Asks as `read` does, and tells how many events the seat has then seen, in the state after which the reply is.
    pub fn read_at(&mut self, query: &Query) -> Result<ReadReceipt, Unread>
        ensures done { IfOk result
            (λ receipt. IsReadAt B.boot.limits self.old query.now receipt self.new) }
        ensures kept { OnErr result (self.new ≡ self.old) }
    {
        let reply = self.read(query)?;
        let length = self.pass.length() as usize;
        Ok(ReadReceipt { reply, length })
    }

    /// Asks as `read` does, with the answer put where the caller wants it.
    #[tactic(auto, using(crate::proofs::Prefixes::prefix_trans))]
    pub fn read_into(&mut self, query: &Query, reply: &mut Reply) -> Result<(), Unread>
        ensures done { OnOk result
            (IsRead B.boot.limits self.old query.now reply.new self.new) }
        ensures kept { OnErr result (self.new ≡ self.old) }
    {
        let Some(handle) = self.handle.take() else {
            return Err(Unread);
        };
        let (handle, position) = handle.read(self.pass.thread(), query, reply, &mut self.meter);
        self.handle = Some(handle);
        let Some(position) = position else {
            return Err(Unread);
        };
        if !position.has(self.pass.position()) {
            return Err(Unread);
        }
        let _length = position.len();
        self.pass.see(position);
        Ok(())
    }

    /// A law, which does nothing when it is called: what the seat was told begins what it has seen, which is a legal list.
    pub fn told_begins_seen(&self)
        ensures begins { IsPrefix self.now.told self.now.pass.seen }
        ensures legal { IsLegal B.boot.limits self.now.pass.seen }
    {
        let _length = self.pass.length();
    }

    /// A note of what the seat had by its opening, its submits and the notes that it learnt. What
    /// it has seen by reads alone is not in it.
    pub fn note(&self) -> Note<B>
        ensures { result ≡ self.now.told }
    {
        Note::new(self.told.again())
    }

    /// The seat has then seen what the note has.
    #[tactic(auto, using(crate::proofs::Prefixes::prefix_self, crate::proofs::Prefixes::prefix_trans))]
    pub fn learn(&mut self, note: &Note<B>)
        ensures { IsLearnt self.old note.now self.new }
    {
        let position = note.position();
        if position.has(self.pass.position()) {
            self.told = position.again();
            self.pass.see(position.again());
            return;
        }
        if position.has(&self.told) {
            self.told = position.again();
        }
    }

    /// The seat's pass, for a caller that commits to a book that it was guard.
    pub fn into_pass(self) -> Pass<B>
        ensures { result ≡ self.entry.pass }
    {
        let Seat {
            lock: _,
            pass,
            told: _,
            handle: _,
            meter: _,
        } = self;
        pass
    }
}

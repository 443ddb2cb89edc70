//! A kernel that workers share, as one of them has it.
ghost use Rattle.std.specs.Prelude.{◌≡◌, [], ◌∷◌, List, length, Ok, IfOk, IfErr, OnOk};
ghost use mathlib.Core.List.{IsPrefix};
ghost use Rattle.kernel_rules.specs.Events.{by};
ghost use Rattle.kernel_rules.specs.History.{state_of};
ghost use Rattle.kernel_rules.specs.Runs.{replies_to};
ghost use Rattle.kernel_rules.specs.Step.{answer, query_answer};
ghost use Rattle.script_runner.specs.Desks.{IsGiven, IsSubmitted, events_in, noted_in, seat_in};
ghost use Rattle.script_runner.specs.Shared.{AreLearnt};

use crate::faults::PlayFault;
use base::{ObjectId, Refusal};
use kernel_rules::{Call, Query, Reply};
use published_copy::{Naming, Note, Pass, ReadReceipt, Seat, Shared};
use std::alloc::Global;
use std::marker::Model;
use std::sync::Wait;

/// A worker's seat. A contract sees its thread, the events that it has seen, and those that its note tells the others.
#[derive(Drop)]
pub struct SharedDesk<'s, B: Naming> {
    seat: Seat<'s, B>,
}

impl<'s, B: Naming> Model for SharedDesk<'s, B> {
    ghost use Rattle.script_runner.specs.Desks.{SeatPlace, place};

    ghost Value = { SeatPlace };

    ghost view = { λ d. place d.seat.pass.thread d.seat.pass.seen d.seat.told };
}

impl<'s, B: Naming> SharedDesk<'s, B> {
    /// A seat for a thread, or what refuses it one. Its note tells all that it has then seen. It waits for the lock.
    pub fn open<R: Wait>(
        rt: &R,
        shared: &'s Shared<B>,
        thread: ObjectId,
    ) -> Result<SharedDesk<'s, B>, Option<Refusal>>
        ensures given { IsGiven B.boot.limits B.boot.seats thread (seat_in result) }
        ensures noted { noted_in result ≡ events_in result }
    {
        match shared.open_seat(rt, thread) {
            Ok(seat) => Ok(SharedDesk { seat }),
            Err(refusal) => Err(Some(refusal.refusal())),
        }
    }
}

impl<B: Naming> SharedDesk<'_, B> {
    /// Makes a call, whose reply is put in its place. It waits for the lock. The error is want of memory.
    pub fn submit<R: Wait>(
        &mut self,
        rt: &R,
        call: &Call,
        reply: &mut Reply,
    ) -> Result<(), PlayFault>
        ensures { OnOk result (IsSubmitted B.boot.limits
            (λ s. reply.new ≡ answer s self.old.thread call.now) self.old (call.now ∷ []) self.new) }
    {
        match self.seat.submit_into(rt, call, reply) {
            Ok(_) => Ok(()),
            Err(_) => Err(PlayFault::Memory),
        }
    }

    /// Makes up to 16 calls, which are one event where there is one, and gives their replies. It waits for the lock. The error is
    /// want of memory, or more calls.
    pub fn submit_all<R: Wait>(
        &mut self,
        rt: &R,
        alloc: Global,
        calls: &[Call],
    ) -> Result<Vec<Reply>, PlayFault>
        ensures { IfOk result (λ replies. IsSubmitted B.boot.limits
            (λ s. replies.items ≡ replies_to s (by self.old.thread calls.now)) self.old calls.now self.new) }
    {
        if calls.is_empty() {
            return Ok(Vec::new(alloc));
        }
        match self.seat.submit_batch(rt, calls) {
            Ok(receipt) => Ok(receipt.replies),
            Err(_) => Err(PlayFault::Memory),
        }
    }

    /// Asks a query, and tells the reply with how many events the worker has then seen. It waits for nobody. An error comes where no
    /// reader is let in any more.
    pub fn ask(&mut self, query: &Query) -> Result<ReadReceipt, PlayFault>
        ensures seen { OnOk result (IsPrefix self.old.events self.new.events) }
        ensures thread { OnOk result (self.new.thread ≡ self.old.thread) }
        ensures noted { OnOk result (self.new.noted ≡ self.old.noted) }
        ensures length { IfOk result (λ receipt. receipt.length ≡ length self.new.events) }
        ensures reply { IfOk result (λ receipt. receipt.reply
            ≡ query_answer (state_of B.boot.limits self.new.events) self.old.thread query.now) }
    {
        match self.seat.read_at(query) {
            Ok(receipt) => Ok(receipt),
            Err(_) => Err(PlayFault::Memory),
        }
    }

    /// What it tells the others: all that it had seen by its opening, its calls and the notes that it learnt.
    pub fn note(&self) -> Note<B>
        ensures { result ≡ self.now.noted }
    {
        self.seat.note()
    }

    /// It has then seen what notes tell, and tells that itself.
    pub fn learn(&mut self, notes: &[Note<B>])
        ensures thread { self.new.thread ≡ self.old.thread }
        ensures seen { IsPrefix self.old.events self.new.events }
        ensures noted { IsPrefix self.old.noted self.new.noted }
        ensures learnt { AreLearnt notes.now self.new.noted }
        ensures begins { IsPrefix self.new.noted self.new.events }
    {
        for note in notes {
            self.seat.learn(note);
        }
        self.seat.told_begins_seen();
    }

    /// The pass of the seat, which has seen the same.
    pub fn into_pass(self) -> Pass<B>
        ensures seen { result.seen ≡ self.entry.events }
        ensures thread { result.thread ≡ self.entry.thread }
    {
        self.seat.into_pass()
    }
}

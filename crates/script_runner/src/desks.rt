//! The kernel of a run whose workers take turns.
ghost use Rattle.std.specs.Prelude.{◌≡◌, [], ◌∷◌, true, None, length, IfOk, OnOk};
ghost use Rattle.kernel_rules.specs.Events.{by};
ghost use Rattle.kernel_rules.specs.History.{state_of, IsLegal};
ghost use Rattle.base.specs.Limits.{in_range};
ghost use Rattle.kernel_rules.specs.Runs.{replies_to};
ghost use Rattle.kernel_rules.specs.Scratch.{scratch};
ghost use Rattle.kernel_rules.specs.Step.{answer, query_answer};
ghost use Rattle.script_rules.specs.Asking.{with_calls};
ghost use Rattle.script_rules.specs.Run.{refusal_by, unless_refused};
ghost use Rattle.script_runner.specs.Turns.{seated_after};

use base::{Limits, Meter, NoMemory, ObjectId, Refusal};
use kept_events::KeptEvent;
use kernel_rules::{Call, Query, Reply, Tables};
use published_copy::{BootRefusal, Naming, SoleBook};
use std::alloc::Global;
use std::marker::Model;

/// A book of which one caller has all threads, with how many events it has. A contract sees what it sees of the book.
#[derive(Drop)]
pub struct SoleDesk<B: Naming> {
    alloc: Global,
    book: SoleBook<B>,
    count: usize,
}

impl<B: Naming> Model for SoleDesk<B> {
    ghost use Rattle.std.specs.Prelude.{◌≡◌, length};
    ghost use Rattle.published_copy.specs.Books.{BookView};

    ghost Value = { BookView };

    ghost view = { λ d. d.book };

    ghost invariant = { λ d. d.count ≡ length d.book.journal };
}

impl<B: Naming> SoleDesk<B> {
    /// A newly booted kernel for so many seats, with no events. The error is as the book's.
    pub fn boot(alloc: Global, limits: &Limits, seats: usize) -> Result<SoleDesk<B>, BootRefusal>
        requires limits { limits.now ≡ B.boot.limits }
        requires seats { seats ≡ B.boot.seats }
        ensures journal { IfOk result (λ desk. desk.journal ≡ []) }
        ensures seated { IfOk result (λ desk. desk.seated ≡ []) }
        ensures limits { OnOk result (in_range limits.now ≡ true) }
    {
        let book = SoleBook::<B>::boot(alloc, limits, seats)?;
        Ok(SoleDesk {
            alloc,
            book,
            count: 0,
        })
    }

    /// A seat for a thread, or why it is given none.
    pub fn seat(&mut self, thread: ObjectId) -> Result<ObjectId, Option<Refusal>>
        ensures seat { result ≡ unless_refused thread
            (refusal_by B.boot.limits B.boot.seats self.old.journal self.old.seated thread) }
        ensures seated { self.new.seated ≡ seated_after self.old.seated None result }
        ensures journal { self.new.journal ≡ self.old.journal }
    {
        match self.book.seat(thread) {
            Ok(()) => Ok(thread),
            Err(refusal) => Err(Some(refusal.refusal())),
        }
    }

    /// Makes a call of a thread, whose reply is put in its place. The error is want of memory.
    pub fn submit(
        &mut self,
        thread: ObjectId,
        call: &Call,
        reply: &mut Reply,
    ) -> Result<(), NoMemory>
        ensures reply { OnOk result (reply.new ≡ answer (state_of B.boot.limits self.old.journal) thread call.now) }
        ensures journal { OnOk result
            (self.new.journal ≡ with_calls B.boot.limits thread self.old.journal (call.now ∷ [])) }
        ensures seated { self.new.seated ≡ self.old.seated }
    {
        let placed = self.book.submit_into(thread, call, reply)?;
        self.count = placed.length;
        Ok(())
    }

    /// Makes up to 16 calls of a thread, which are one event where there is one, and gives their replies. The error is want
    /// of memory, or more calls.
    pub fn submit_all(&mut self, thread: ObjectId, calls: &[Call]) -> Result<Vec<Reply>, NoMemory>
        ensures replies { IfOk result
            (λ replies. replies.items ≡ replies_to (state_of B.boot.limits self.old.journal) (by thread calls.now)) }
        ensures journal { OnOk result (self.new.journal ≡ with_calls B.boot.limits thread self.old.journal calls.now) }
        ensures seated { self.new.seated ≡ self.old.seated }
    {
        if calls.is_empty() {
            return Ok(Vec::new(self.alloc));
        }
        let Ok(receipt) = self.book.submit_batch(thread, calls) else {
            return Err(NoMemory);
        };
        self.count = receipt.length;
        Ok(receipt.replies)
    }

    /// Asks a query of a thread, whose reply is put in its place, and tells how many events there are.
    pub fn ask(&mut self, thread: ObjectId, query: &Query, reply: &mut Reply) -> usize
        ensures reply { reply.new ≡ query_answer (state_of B.boot.limits self.old.journal) thread query.now }
        ensures length { result ≡ length self.old.journal }
        ensures kept { self.new ≡ self.old }
    {
        self.book.read_into(thread, query, reply);
        self.count
    }

    /// The tables of the state that the journal leads to. The error is want of memory.
    pub fn tables(&self, alloc: Global) -> Result<Tables, NoMemory>
        ensures { IfOk result (λ tables. tables ≡ scratch (state_of B.boot.limits self.now.journal)) }
    {
        let mut meter = Meter::new(alloc)?;
        self.book.kernel().tables(&mut meter)
    }

    /// The journal.
    pub fn into_events(self) -> Vec<KeptEvent>
        ensures journal { result.items ≡ self.journal }
        ensures legal { IsLegal B.boot.limits self.journal }
    {
        let SoleDesk {
            alloc: _,
            book,
            count: _,
        } = self;
        book.into_events()
    }
}

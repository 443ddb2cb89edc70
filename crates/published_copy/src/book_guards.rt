//! The lock's holder has the book.
ghost use Rattle.std.specs.Prelude.{◌≡◌, ◌↔◌, ◌∷◌, [], true, false, IfOk, OnOk, OnErr, IsErrOf};
ghost use Rattle.std.specs.Sync.Mutex.{mutex_guard_value};
ghost use mathlib.Core.List.{IsPrefix};
ghost use Rattle.kernel_rules.specs.History.{IsLegal, is_batch};
ghost use Rattle.published_copy.specs.Turns.{is_turn, with_event, receipt_of, passed_on, TellsBatch};

use crate::books::Book;
use crate::naming::Naming;
use crate::passes::Pass;
use crate::receipts::{BatchReceipt, Receipt};
use crate::refusals::SubmitRefusal;
use kernel_rules::{Call, Reply};
use std::marker::Model;
use std::ops::Deref;
use std::sync::{MutexGuard, Wait};

/// The book of a shared kernel, which no one else has while this is kept. It is read as a `Book`
/// is, and changes by `commit` alone: no one who has it has a `&mut Book`, so it stays the book of
/// its kernel.
#[derive(Drop)]
pub struct BookGuard<'a, B: Naming> {
    guard: MutexGuard<'a, Book<B>>,
}

impl<'a, B: Naming> Model for BookGuard<'a, B> {
    ghost use Rattle.std.specs.Sync.Mutex.{mutex_guard_value};
    ghost use Rattle.published_copy.specs.Books.{BookView};

    ghost Value = { BookView };

    ghost view = { λ l. mutex_guard_value l.guard };
}

impl<'a, B: Naming> BookGuard<'a, B> {
    /// The book that a guard has.
    pub(crate) fn new(guard: MutexGuard<'a, Book<B>>) -> BookGuard<'a, B>
        ensures { result ≡ mutex_guard_value guard.entry }
    {
        BookGuard { guard }
    }
}

impl<B: Naming> BookGuard<'_, B> {
    /// Makes a call as the pass's thread, which is one event more at the journal's end, and waits
    /// for those who still read the copy that takes it in. The error is `OutOfTurn` exactly where
    /// the pass's number is not its thread's next in the journal, or the pass has seen more events
    /// than the journal has, and else, for want of memory, `Memory`. An error changes nothing.
    pub fn commit<R: Wait>(
        &mut self,
        rt: &R,
        pass: &mut Pass<B>,
        call: &Call,
    ) -> Result<Receipt, SubmitRefusal>
        ensures receipt { IfOk result (λ receipt. receipt
            ≡ receipt_of B.boot.limits self.old.journal pass.old call.now) }
        ensures journal { OnOk result
            (self.new.journal ≡ with_event B.boot.limits self.old.journal pass.old (call.now ∷ [])) }
        ensures seated { self.new.seated ≡ self.old.seated }
        ensures pass { OnOk result
            (pass.new ≡ passed_on B.boot.limits self.old.journal pass.old (call.now ∷ [])) }
        ensures begins { OnOk result (IsPrefix pass.old.seen self.old.journal) }

        ensures turn { IsErrOf result SubmitRefusal.OutOfTurn
            ↔ (is_turn self.old.journal pass.old ≡ false) }
        ensures good { IsErrOf result SubmitRefusal.BadBatch → ⊥ }
        ensures kept { OnErr result ((self.new ≡ self.old) × (pass.new ≡ pass.old)) }
        ensures legal { IsLegal B.boot.limits self.new.journal }
    {
        let mut reply = Reply::Done;
        let placed = self.guard.commit(rt, pass, call, &mut reply)?;
        Ok(placed.receipt(&reply))
    }

    /// Makes 1 to 16 calls as the pass's thread, which are one event more at the journal's end, and waits for those who
    /// still read the copy that takes them in: nobody reads a state between two of them. Each call is answered in the state
    /// that those before it leave; one that is refused changes nothing, and the rest are made. The error is `BadBatch`
    /// exactly where there are other numbers of calls, else `OutOfTurn` where `commit` says so, and else, for want of memory,
    /// `Memory`. An error changes nothing.
    pub fn commit_batch<R: Wait>(
        &mut self,
        rt: &R,
        pass: &mut Pass<B>,
        calls: &[Call],
    ) -> Result<BatchReceipt, SubmitRefusal>
        ensures receipt { IfOk result (λ receipt.
            TellsBatch B.boot.limits self.old.journal pass.old calls.now receipt) }
        ensures journal { OnOk result
            (self.new.journal ≡ with_event B.boot.limits self.old.journal pass.old calls.now) }
        ensures seated { self.new.seated ≡ self.old.seated }
        ensures pass { OnOk result
            (pass.new ≡ passed_on B.boot.limits self.old.journal pass.old calls.now) }
        ensures begins { OnOk result (IsPrefix pass.old.seen self.old.journal) }

        ensures good { IsErrOf result SubmitRefusal.BadBatch ↔ (is_batch calls.now ≡ false) }
        ensures turn { IsErrOf result SubmitRefusal.OutOfTurn
            ↔ ((is_batch calls.now ≡ true) × (is_turn self.old.journal pass.old ≡ false)) }
        ensures kept { OnErr result ((self.new ≡ self.old) × (pass.new ≡ pass.old)) }
        ensures legal { IsLegal B.boot.limits self.new.journal }
    {
        self.guard.commit_batch(rt, pass, calls)
    }
}

impl<B: Naming> Deref for BookGuard<'_, B> {
    type Target = Book<B>;

    ghost deref_gives = { λ guard book. book ≡ guard };

    fn deref(&self) -> &Book<B> {
        &self.guard
    }
}

//! What lies under the lock.
ghost use Rattle.std.specs.Prelude.{◌≡◌, ◌≤◌, ◌<◌, ◌+◌, ◌↔◌, ◌++◌, ◌∷◌, true, false, [], length};
ghost use Rattle.std.specs.Prelude.{IfOk, IfErr, OnOk, OnErr, IsErrOf, Some, None};
ghost use Rattle.std.specs.Prelude.{◌^◌, IsTrue, IfNone, vec_len, vec_capacity};
ghost use Rattle.base.specs.declared.kinds.Kind.TheVariants as kinds;
ghost use Rattle.kernel_rules.specs.History.{IsLegal, state_of, count, is_batch};
ghost use Rattle.kernel_rules.specs.Step.{answer};
ghost use Rattle.kernel_rules.specs.State.{is_live_kind};
ghost use Rattle.syscall_core.specs.Kernel.{kernel_state};
ghost use Rattle.published_copy.specs.Books.{places_with};
ghost use Rattle.published_copy.specs.Seats.{seat_refused};
ghost use Rattle.published_copy.specs.Tallies.{IsTallied};
ghost use Rattle.published_copy.specs.Turns.{turn, is_turn, with_event, receipt_of, receipt_with};
ghost use Rattle.published_copy.specs.Turns.{passed_on, Has, TellsBatch};
ghost use mathlib.Core.List.{IsPrefix};

use crate::naming::Naming;
use crate::notes::Note;
use crate::pairs::Pair;
use crate::passes::Pass;
use crate::places::Places;
use crate::read_handles::ReadHandle;
use crate::receipts::{BatchReceipt, Placed, tell_last};
use crate::refusals::{SeatRefusal, SubmitRefusal};
use crate::seating::seat_refusal;
use crate::tallies::{Tally, count_events, events_of};
use base::{Limits, Meter, NoMemory, ObjectId};
use kept_events::{KeptEvent, replies_room, split_batch};
use kernel_rules::{Call, Reply};
use std::marker::Model;
use std::sync::Wait;
use syscall_core::Kernel;

/// A kernel in its two copies, the journal of all calls that were made to it, and the threads
/// that were given seats. A contract sees it as the journal, which is legal, and in whose state the
/// published copy is, at all times, and those threads.
#[derive(Drop)]
pub struct Book<B: Naming> {
    limits: Limits,
    meter: Meter,
    journal: Vec<KeptEvent>,
    tallies: Vec<Tally>,
    places: Places,
    pair: Pair<B>,
}

impl<B: Naming> Model for Book<B> {
    ghost use Rattle.std.specs.Prelude.{◌≡◌};
    ghost use Rattle.kernel_rules.specs.History.{IsLegal};
    ghost use Rattle.published_copy.specs.Books.{BookView};
    ghost use Rattle.published_copy.specs.Tallies.{IsTallied};

    ghost Value = { BookView };

    ghost view = { λ b. record { journal = b.journal.items; seated = b.places.seated } };

    ghost invariant = { λ b. (b.limits ≡ B.boot.limits) × IsLegal B.boot.limits b.journal.items
        × IsTallied b.tallies.items b.journal.items
        × (b.pair ≡ b.journal.items) × (b.places.seats ≡ B.boot.seats) };
}

/// Whether a pass's number is its thread's next, and the journal has all that the pass has seen.
fn is_turn<B: Naming>(journal: &[KeptEvent], tallies: &[Tally], pass: &Pass<B>) -> bool
    requires { IsTallied tallies.now journal.now }
    ensures turn { result ≡ is_turn journal.now pass.now }
    ensures number { IsTrue result → pass.now.number ≡ count pass.now.thread journal.now + 1 }
    ensures fits { IsTrue result → pass.now.number + 1 < 2 ^ 64 }
    ensures within { IsTrue result → length pass.now.seen ≤ length journal.now }
{
    pass.number() == events_of(tallies, pass.thread()) + 1 && pass.length() <= journal.len() as u64
}

/// There is room for one event and one tally more. Nothing else changes, also without memory.
pub(crate) fn make_room(
    journal: &mut Vec<KeptEvent>,
    tallies: &mut Vec<Tally>,
) -> Result<(), NoMemory>
    ensures journal_room { OnOk result (vec_len journal.new < vec_capacity journal.new) }
    ensures tallies_room { OnOk result (vec_len tallies.new < vec_capacity tallies.new) }
    ensures journal { journal.new.items ≡ journal.old.items }
    ensures tallies { tallies.new.items ≡ tallies.old.items }
{
    journal.reserve(1)?;
    tallies.reserve(1)?;
    Ok(())
}

impl<B: Naming> Book<B> {
    /// The book of a boot, with no event and no seat given.
    pub(crate) fn new(
        limits: Limits,
        meter: Meter,
        journal: Vec<KeptEvent>,
        tallies: Vec<Tally>,
        places: Places,
        pair: Pair<B>,
    ) -> Book<B>
        requires limits { limits ≡ B.boot.limits }
        requires empty { (journal.items ≡ []) × (tallies.items ≡ []) }
        requires free { places ≡ places_with [] B.boot.seats }
        requires pair { pair ≡ [] }
        ensures journal { result.journal ≡ [] }
        ensures seated { result.seated ≡ [] }
    {
        Book {
            limits,
            meter,
            journal,
            tallies,
            places,
            pair,
        }
    }

    /// The limits of the boot.
    pub fn limits(&self) -> &Limits
        ensures { result.now ≡ B.boot.limits }
    {
        &self.limits
    }

    /// The journal: every event since the boot, the oldest first. Each event's reply is the answer
    /// of the rules in the state of the events before it, and each thread's events are numbered
    /// from 1.
    pub fn events(&self) -> &[KeptEvent]
        ensures journal { result.now ≡ self.now.journal }
        ensures legal { IsLegal B.boot.limits self.now.journal }
    {
        self.journal.as_slice()
    }

    /// Whether the journal has no fewer events than a note has, which it has in every run. Of the lists of one boot the
    /// shorter begins the longer, so the note begins the journal.
    pub fn has(&self, note: &Note<B>) -> bool
        ensures { Has result self.now.journal note.now }
    {
        self.pair
            .position(self.journal.len() as u64)
            .has(note.position())
    }

    /// Whether the journal has no fewer events than a pass has seen, which it has in every run. Then what the pass has seen
    /// begins the journal.
    pub fn has_seen(&self, pass: &Pass<B>) -> bool
        ensures { Has result self.now.journal pass.now.seen }
    {
        self.pair
            .position(self.journal.len() as u64)
            .has(pass.position())
    }

    /// The kernel, in the state that the journal leads to.
    pub fn kernel(&self) -> &Kernel
        ensures { kernel_state result.now ≡ state_of B.boot.limits self.now.journal }
    {
        self.pair.kernel()
    }

    /// The journal, of a book that is used no more. The copies' memory is given back, once no
    /// reader has one; a book that is dropped keeps it.
    pub fn into_events<R: Wait>(self, rt: &R) -> Vec<KeptEvent>
        ensures journal { result.items ≡ self.journal }
        ensures legal { IsLegal B.boot.limits self.journal }
    {
        let Book {
            limits: _,
            meter: _,
            journal,
            tallies: _,
            places: _,
            pair,
        } = self;
        pair.close(rt);
        journal
    }

    /// Makes a batch whose turn it is. The reply becomes the first call's answer. Which threads were given seats stays as
    /// it is.
    fn make<R: Wait>(
        &mut self,
        rt: &R,
        pass: &mut Pass<B>,
        call: &Call,
        more: &[Call],
        reply: &mut Reply,
    ) -> Result<Placed, NoMemory>
        requires size { is_batch (call.now ∷ more.now) ≡ true }
        requires number { pass.old.number ≡ count pass.old.thread self.old.journal + 1 }
        requires fits { pass.old.number + 1 < 2 ^ 64 }
        requires within { length pass.old.seen ≤ length self.old.journal }
        ensures number { IfOk result (λ placed. placed.number ≡ pass.old.number) }
        ensures length { IfOk result (λ placed. placed.length ≡ length self.old.journal + 1) }
        ensures reply { OnOk result (reply.new
            ≡ answer (state_of B.boot.limits self.old.journal) pass.old.thread call.now) }
        ensures journal { OnOk result (self.new.journal ≡ with_event B.boot.limits
            self.old.journal pass.old (call.now ∷ more.now)) }
        ensures seated { self.new.seated ≡ self.old.seated }
        ensures pass { OnOk result (pass.new ≡ passed_on B.boot.limits
            self.old.journal pass.old (call.now ∷ more.now)) }
        ensures begins { OnOk result (IsPrefix pass.old.seen self.old.journal) }
        ensures kept { OnErr result ((self.new ≡ self.old) × (pass.new ≡ pass.old)) }
        ensures legal { IsLegal B.boot.limits self.new.journal }
    {
        let events = self.journal.len() as u64;
        let _begins = self.pair.position(events).has(pass.position());
        make_room(&mut self.journal, &mut self.tallies)?;
        let event = self.pair.commit(rt, pass, call, more, events + 1, reply)?;
        self.journal.push_reserved(event);
        count_events(&mut self.tallies, pass.thread(), pass.number());
        let position = self.pair.position(events + 1);
        Ok(pass.pass_on(self.journal.len(), position))
    }

    /// Makes a call as the pass's thread, as `BookGuard::commit` says. The reply becomes the event's.
    /// Which threads were given seats stays as it is.
    pub(crate) fn commit<R: Wait>(
        &mut self,
        rt: &R,
        pass: &mut Pass<B>,
        call: &Call,
        reply: &mut Reply,
    ) -> Result<Placed, SubmitRefusal>
        ensures receipt { IfOk result (λ placed. receipt_with reply.new placed
            ≡ receipt_of B.boot.limits self.old.journal pass.old call.now) }
        ensures journal { OnOk result (self.new.journal
            ≡ with_event B.boot.limits self.old.journal pass.old (call.now ∷ [])) }
        ensures seated { self.new.seated ≡ self.old.seated }
        ensures pass { OnOk result
            (pass.new ≡ passed_on B.boot.limits self.old.journal pass.old (call.now ∷ [])) }
        ensures begins { OnOk result (IsPrefix pass.old.seen self.old.journal) }

        ensures turn { IsErrOf result SubmitRefusal.OutOfTurn
            ↔ (is_turn self.old.journal pass.old ≡ false) }
        ensures good { IsErrOf result SubmitRefusal.BadBatch → ⊥ }
        ensures kept { OnErr result ((self.new ≡ self.old) × (pass.new ≡ pass.old)) }
        ensures legal { IsLegal B.boot.limits self.new.journal }
    {
        if !is_turn(&self.journal, &self.tallies, pass) {
            return Err(SubmitRefusal::OutOfTurn);
        }
        Ok(self.make(rt, pass, call, &[], reply)?)
    }

    /// Makes a batch as the pass's thread, as `BookGuard::commit_batch` says. Which threads were given seats stays as it is.
    pub(crate) fn commit_batch<R: Wait>(
        &mut self,
        rt: &R,
        pass: &mut Pass<B>,
        calls: &[Call],
    ) -> Result<BatchReceipt, SubmitRefusal>
        ensures receipt { IfOk result (λ receipt.
            TellsBatch B.boot.limits self.old.journal pass.old calls.now receipt) }
        ensures journal { OnOk result (self.new.journal
            ≡ with_event B.boot.limits self.old.journal pass.old calls.now) }
        ensures seated { self.new.seated ≡ self.old.seated }
        ensures pass { OnOk result
            (pass.new ≡ passed_on B.boot.limits self.old.journal pass.old calls.now) }
        ensures begins { OnOk result (IsPrefix pass.old.seen self.old.journal) }

        ensures good { IsErrOf result SubmitRefusal.BadBatch ↔ (is_batch calls.now ≡ false) }
        ensures turn { IsErrOf result SubmitRefusal.OutOfTurn
            ↔ ((is_batch calls.now ≡ true) × (is_turn self.old.journal pass.old ≡ false)) }
        ensures kept { OnErr result ((self.new ≡ self.old) × (pass.new ≡ pass.old)) }
        ensures legal { IsLegal B.boot.limits self.new.journal }
    {
        let _events = self.journal.len();
        let Some((call, more)) = split_batch(calls) else {
            return Err(SubmitRefusal::BadBatch);
        };
        if !is_turn(&self.journal, &self.tallies, pass) {
            return Err(SubmitRefusal::OutOfTurn);
        }
        let mut replies = replies_room(self.pair.alloc(), calls)?;
        let mut reply = Reply::Done;
        let placed = self.make(rt, pass, call, more, &mut reply)?;
        tell_last(&mut replies, self.journal.as_slice());
        Ok(placed.batch_receipt(replies))
    }

    /// Why a thread is given no seat, if anything: the least that holds.
    fn seat_refused(&mut self, thread: ObjectId) -> Option<SeatRefusal>
        ensures row { result ≡ seat_refused B.boot self.old thread }
        ensures live { IfNone result
            (is_live_kind (state_of B.boot.limits self.old.journal) kinds.Thread thread ≡ true) }
        ensures first { IfNone result (count thread self.old.journal ≡ 0) }
        ensures room { IfNone result (length self.old.seated < B.boot.seats) }
        ensures within { length self.old.seated ≤ B.boot.seats }
        ensures legal { IsLegal B.boot.limits self.old.journal }
        ensures kept { self.new ≡ self.old }
    {
        let kernel = self.pair.kernel();
        seat_refusal(&self.places, &self.tallies, kernel, thread, &mut self.meter)
    }

    /// A pass, a reader and a meter for a live thread that was given no seat and has no event: it
    /// is given one of the seats. The journal stays as it is, and an error changes nothing.
    pub(crate) fn seat<R: Wait>(
        &mut self,
        rt: &R,
        thread: ObjectId,
    ) -> Result<(Pass<B>, ReadHandle<B>, Meter), SeatRefusal>
        ensures pass { IfOk result (λ seat. seat.0 ≡ turn thread 1 self.old.journal) }
        ensures free { OnOk result (seat_refused B.boot self.old thread ≡ None) }
        ensures row { IfErr result
            (λ refusal. seat_refused B.boot self.old thread ≡ Some refusal) }
        ensures live { OnOk result
            (is_live_kind (state_of B.boot.limits self.old.journal) kinds.Thread thread ≡ true) }
        ensures first { OnOk result (count thread self.old.journal ≡ 0) }
        ensures given { OnOk result (self.new.seated ≡ self.old.seated ++ thread ∷ []) }
        ensures journal { self.new.journal ≡ self.old.journal }
        ensures kept { OnErr result (self.new ≡ self.old) }
        ensures within { length self.old.seated ≤ B.boot.seats }
        ensures legal { IsLegal B.boot.limits self.old.journal }
    {
        if let Some(refusal) = self.seat_refused(thread) {
            return Err(refusal);
        }
        let handle = self.pair.handle(rt);
        let meter = self.places.give(thread);
        let position = self.pair.position(self.journal.len() as u64);
        Ok((Pass::new(thread, 1, position), handle, meter))
    }
}

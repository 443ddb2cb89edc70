//! A kernel for threads of which only one calls at a time.
//!
//! A kernel in two copies makes each call twice, so that no reader waits. One caller who has all threads needs no copies. The
//! contract is that of a shared book: a legal journal, the kernel in its state, seats by the same rule.
ghost use Rattle.std.specs.Prelude.{◌≡◌, ◌↔◌, ◌+◌, ◌++◌, ◌∷◌, [], true, false, length, IfOk, OnOk, OnErr};
ghost use Rattle.std.specs.Prelude.{IsErrOf, IfErr, Some, None};
ghost use Rattle.base.specs.Limits.{in_range};
ghost use Rattle.kernel_rules.specs.History.{IsLegal, count, is_batch, state_of};
ghost use Rattle.kernel_rules.specs.Step.{answer, query_answer};
ghost use Rattle.syscall_core.specs.Kernel.{kernel_state};
ghost use Rattle.published_copy.specs.Seats.{seat_refused};
ghost use Rattle.published_copy.specs.Tallies.{IsTallied};
ghost use Rattle.published_copy.specs.Turns.{next_turn, receipt_of, receipt_with, with_event, TellsBatch};

use crate::books::make_room;
use crate::further::Further;
use crate::naming::Naming;
use crate::places::Places;
use crate::receipts::{BatchReceipt, Placed, tell_last};
use crate::refusals::{SeatRefusal, SubmitRefusal};
use crate::seating::seat_refusal;
use crate::tallies::{Tally, count_events, events_of};
use base::{Limits, Meter, NoMemory, ObjectId};
use kept_events::{KeptCalls, KeptEvent, KeptReply, call_answers, replies_room, split_batch};
use kernel_rules::{Call, Query, Reply};
use std::alloc::Global;
use std::marker::{Model, PhantomData};
use syscall_core::{BootRefusal, Kernel};

/// A kernel that one caller has, who calls and asks as each of its threads in turn, with the journal of all calls and the
/// threads that were given seats. It answers as the book of a `Shared` would where its seats were used one after another,
/// and has one kernel where that has two copies, and no lock and no log. A contract sees what it sees of a `Book`.
#[derive(Drop)]
pub struct SoleBook<B: Naming> {
    alloc: Global,
    limits: Limits,
    kernel: Kernel,
    meter: Meter,
    journal: Vec<KeptEvent>,
    tallies: Vec<Tally>,
    further: Further,
    places: Places,
    of: PhantomData<B>,
}

impl<B: Naming> Model for SoleBook<B> {
    ghost use Rattle.std.specs.Prelude.{◌≡◌};
    ghost use Rattle.kernel_rules.specs.History.{IsLegal, state_of};
    ghost use Rattle.syscall_core.specs.Kernel.{kernel_state};
    ghost use Rattle.published_copy.specs.Books.{BookView};
    ghost use Rattle.published_copy.specs.Tallies.{IsTallied};

    ghost Value = { BookView };

    ghost view = { λ b. record { journal = b.journal.items; seated = b.places.seated } };

    ghost invariant = { λ b. (b.limits ≡ B.boot.limits) × IsLegal B.boot.limits b.journal.items
        × IsTallied b.tallies.items b.journal.items
        × (kernel_state b.kernel ≡ state_of B.boot.limits b.journal.items)
        × (b.places.seats ≡ B.boot.seats) };
}

/// The number of a thread's next event.
fn next_number(journal: &[KeptEvent], tallies: &[Tally], thread: ObjectId) -> u64
    requires { IsTallied tallies.now journal.now }
    ensures { result ≡ count thread journal.now + 1 }
{
    let _length = journal.len();
    events_of(tallies, thread) + 1
}

impl<B: Naming> SoleBook<B> {
    /// Boots a kernel with an empty journal, for so many seats. The error is `BadLimits` exactly where a limit is
    /// out of its range, and else, for want of memory, `Unavailable`.
    pub fn boot(alloc: Global, limits: &Limits, seats: usize) -> Result<SoleBook<B>, BootRefusal>
        requires limits { limits.now ≡ B.boot.limits }
        requires seats { seats ≡ B.boot.seats }
        ensures book { IfOk result (λ book. (book.journal ≡ []) × (book.seated ≡ [])) }
        ensures limits { IsErrOf result BootRefusal.BadLimits ↔ (in_range limits.now ≡ false) }
    {
        let kernel = Kernel::boot(alloc, limits)?;
        let (Ok(meter), Ok(places), Ok(further)) = (
            Meter::new(alloc),
            Places::new(alloc, seats),
            Further::new(alloc),
        ) else {
            return Err(BootRefusal::Unavailable);
        };
        Ok(SoleBook {
            alloc,
            limits: *limits,
            kernel,
            meter,
            journal: Vec::new(alloc),
            tallies: Vec::new(alloc),
            further,
            places,
            of: PhantomData,
        })
    }

    /// The kernel, in the state that the journal leads to.
    pub fn kernel(&self) -> &Kernel
        ensures state { kernel_state result.now ≡ state_of B.boot.limits self.now.journal }
    {
        &self.kernel
    }

    /// The journal: every event since the boot, the oldest first. Each event's reply is the answer of the rules in the
    /// state of the events before it, and each thread's events are numbered from 1.
    pub fn into_events(self) -> Vec<KeptEvent>
        ensures journal { result.items ≡ self.journal }
        ensures legal { IsLegal B.boot.limits self.journal }
    {
        let SoleBook {
            alloc: _,
            limits: _,
            kernel: _,
            meter: _,
            journal,
            tallies: _,
            further: _,
            places: _,
            of: _,
        } = self;
        journal
    }

    /// Gives a live thread, that has had no seat, a seat. It takes no memory. The errors are those of `Shared::open_seat`,
    /// and change nothing.
    pub fn seat(&mut self, thread: ObjectId) -> Result<(), SeatRefusal>
        ensures free { OnOk result (seat_refused B.boot self.old thread ≡ None) }
        ensures row { IfErr result
            (λ refusal. seat_refused B.boot self.old thread ≡ Some refusal) }
        ensures given { OnOk result (self.new.seated ≡ self.old.seated ++ thread ∷ []) }
        ensures journal { self.new.journal ≡ self.old.journal }
        ensures kept { OnErr result (self.new ≡ self.old) }
    {
        let (places, meter) = (&mut self.places, &mut self.meter);
        if let Some(refusal) = seat_refusal(places, &self.tallies, &self.kernel, thread, meter) {
            return Err(refusal);
        }
        let _meter = places.give(thread);
        Ok(())
    }

    /// Makes a batch as a thread. The reply becomes the first call's answer.
    fn make(
        &mut self,
        thread: ObjectId,
        call: &Call,
        more: &[Call],
        reply: &mut Reply,
    ) -> Result<Placed, NoMemory>
        requires size { is_batch (call.now ∷ more.now) ≡ true }
        ensures number { IfOk result (λ placed. placed.number ≡ count thread self.old.journal + 1) }
        ensures length { IfOk result (λ placed. placed.length ≡ length self.old.journal + 1) }
        ensures reply { OnOk result
            (reply.new ≡ answer (state_of B.boot.limits self.old.journal) thread call.now) }
        ensures journal { OnOk result (self.new.journal ≡ with_event B.boot.limits self.old.journal
            (next_turn thread self.old.journal) (call.now ∷ more.now)) }
        ensures seated { self.new.seated ≡ self.old.seated }
        ensures kept { OnErr result (self.new ≡ self.old) }
        ensures legal { IsLegal B.boot.limits self.new.journal }
    {
        let number = next_number(&self.journal, &self.tallies, thread);
        make_room(&mut self.journal, &mut self.tallies)?;
        let kept = KeptCalls::new(self.alloc, call, more)?;
        let (kernel, meter) = (&mut self.kernel, &mut self.meter);
        self.further.make(kernel, meter, thread, call, more, reply);
        call_answers();
        let further = self.further.replies();
        let event = kept.event(thread, number, KeptReply::new(reply), further);
        self.journal.push_reserved(event);
        count_events(&mut self.tallies, thread, number);
        Ok(Placed {
            number,
            length: self.journal.len(),
        })
    }

    /// Makes a call as a thread, which is one event more at the journal's end, with the thread's next number. The reply
    /// becomes the event's. The error is want of memory, and changes nothing.
    pub fn submit_into(
        &mut self,
        thread: ObjectId,
        call: &Call,
        reply: &mut Reply,
    ) -> Result<Placed, NoMemory>
        ensures receipt { IfOk result (λ placed. receipt_with reply.new placed
            ≡ receipt_of B.boot.limits self.old.journal (next_turn thread self.old.journal) call.now) }
        ensures journal { OnOk result (self.new.journal ≡ with_event B.boot.limits self.old.journal
            (next_turn thread self.old.journal) (call.now ∷ [])) }
        ensures seated { self.new.seated ≡ self.old.seated }
        ensures kept { OnErr result (self.new ≡ self.old) }
        ensures legal { IsLegal B.boot.limits self.new.journal }
    {
        self.make(thread, call, &[], reply)
    }

    /// Makes 1 to 16 calls as a thread, which are one event more at the journal's end, with the thread's next number. Each
    /// is answered in the state that those before it leave; one that is refused changes nothing, and the rest are made.
    /// The error is `BadBatch` exactly where there are other numbers of calls, and else want of memory; it changes nothing.
    pub fn submit_batch(
        &mut self,
        thread: ObjectId,
        calls: &[Call],
    ) -> Result<BatchReceipt, SubmitRefusal>
        ensures receipt { IfOk result (λ receipt. TellsBatch B.boot.limits self.old.journal
            (next_turn thread self.old.journal) calls.now receipt) }
        ensures journal { OnOk result (self.new.journal ≡ with_event B.boot.limits self.old.journal
            (next_turn thread self.old.journal) calls.now) }
        ensures seated { self.new.seated ≡ self.old.seated }
        ensures good { IsErrOf result SubmitRefusal.BadBatch ↔ (is_batch calls.now ≡ false) }
        ensures turn { IsErrOf result SubmitRefusal.OutOfTurn → ⊥ }
        ensures kept { OnErr result (self.new ≡ self.old) }
        ensures legal { IsLegal B.boot.limits self.new.journal }
    {
        let _events = self.journal.len();
        let Some((call, more)) = split_batch(calls) else {
            return Err(SubmitRefusal::BadBatch);
        };
        let mut replies = replies_room(self.alloc, calls)?;
        let mut reply = Reply::Done;
        let placed = self.make(thread, call, more, &mut reply)?;
        tell_last(&mut replies, self.journal.as_slice());
        Ok(placed.batch_receipt(replies))
    }

    /// Asks as a thread, which is no event. The reply becomes the answer in the state that the journal leads to.
    pub fn read_into(&mut self, thread: ObjectId, query: &Query, reply: &mut Reply)
        ensures reply { reply.new
            ≡ query_answer (state_of B.boot.limits self.old.journal) thread query.now }
        ensures kept { self.new ≡ self.old }
    {
        self.kernel.ask_into(thread, query, reply, &mut self.meter);
    }
}

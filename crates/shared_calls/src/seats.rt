//! A place at a kernel that threads share.
ghost use Rattle.std.specs.Prelude.{◌≡◌, ◌↔◌, ◌+◌, ◌<◌, ◌++◌, ◌∷◌, [], IfOk, IfSome, OnOk, OnErr, IsErrOf, IsTrue, length, false, MatchBool};
ghost use Rattle.std.specs.Arc.{arc_value};
ghost use mathlib.Core.List.{IsPrefix};
ghost use Rattle.kernel_rules.specs.History.{is_batch};
ghost use Rattle.kernel_rules.specs.Runs.{booted};
ghost use Rattle.kernel_rules.specs.Step.{query_answer};
ghost use Rattle.shared_calls.specs.Cursors.{IsPlaced};
ghost use Rattle.shared_calls.specs.Dumps.{IsDumpTo, dump_at};
ghost use Rattle.shared_calls.specs.Knowledge.{IsKnown};
ghost use Rattle.shared_calls.specs.Lists.{AreMarked, Lacks};
ghost use Rattle.shared_calls.specs.Seats.{Has, IsBatchSubmitted, IsBeside, IsFirst, IsLater, IsLearned, IsRead, IsSubmitted, seat_with, state_of};
ghost use Rattle.syscall_core.specs.Kernel.{kernel_state};

use crate::beginnings::{end_at, telling_since, whole_telling};
use crate::chairs::Chair;
use crate::cursors::Cursor;
use crate::dumps::SeatDump;
use crate::lists::{CallList, Known};
use crate::playing::{make_all, play};
use crate::readers::Reader;
use crate::refusals::{DumpRefusal, SeatRefusal, SubmitRefusal};
use crate::rules::Asked;
use base::{Limits, Meter, NoMemory, ObjectId};
use kept_events::{KeptCall, kept_calls, replies_room, split_batch};
use kernel_rules::{Call, Query, Reply};
use std::alloc::Global;
use std::marker::Model;
use std::sync::Arc;
use syscall_core::Kernel;

/// A place at a kernel that threads share: one thread at a time calls and reads through it. A contract sees the limits of the
/// kernel's boot, which list its calls stand in and whether that has a log, the beginning of the list that the seat has seen, and the
/// mark of its next batch. Its own kernel is in the state that the calls of that beginning lead to.
#[derive(Drop)]
pub struct Seat {
    chair: Chair,
    kernel: Arc<Kernel>,
    meter: Meter,
    reply: Reply,
    known: Known,
}

impl Model for Seat {
    ghost use Rattle.std.specs.Prelude.{◌≡◌};
    ghost use Rattle.std.specs.Arc.{arc_value};
    ghost use Rattle.syscall_core.specs.Kernel.{kernel_state};
    ghost use Rattle.shared_calls.specs.Knowledge.{IsKnown};
    ghost use Rattle.shared_calls.specs.Seats.{SeatView, seat_with, state_of};

    ghost Value = { SeatView };

    ghost view = { λ s. seat_with (arc_value s.chair.list).limits (arc_value s.chair.list).start.book (arc_value s.chair.list).is_logged
        s.known.cursor.seen.log s.known.pen.nib.key };

    ghost invariant = { λ s. IsKnown (arc_value s.chair.list).start.book s.known
        × (kernel_state (arc_value s.kernel) ≡ state_of (arc_value s.chair.list).limits s.known.cursor.seen.log) };
}

/// A kernel that readers may share. The error is want of memory.
fn shared(alloc: Global, kernel: Kernel) -> Result<Arc<Kernel>, NoMemory>
    ensures { IfOk result (λ shared. arc_value shared ≡ kernel) }
{
    Ok(Arc::new(alloc, kernel)?)
}

/// A chair for a seat that has seen a list so far, and what it knows then. None where the list has as many seats as it may have.
fn taken(list: Arc<CallList>, cursor: Cursor) -> Option<(Chair, Known)>
    requires placed { IsPlaced cursor }
    requires list { cursor.seen.book ≡ (arc_value list).start.book }
    ensures list { IfSome result (λ it. it.0.list ≡ list) }
    ensures known { IfSome result (λ it. IsKnown (arc_value list).start.book it.1) }
    ensures seen { IfSome result (λ it. it.1.cursor.seen ≡ cursor.seen) }
{
    let number = cursor.block.number;
    let known = list.known_at(cursor);
    let chair = Chair::new(list, number)?;
    Some((chair, known))
}

/// The same of a new list, whose first block is laid. The error is want of memory.
fn first_chair(
    alloc: Global,
    limits: &Limits,
    most: usize,
    is_logged: bool,
) -> Result<(Chair, Known), NoMemory>
    ensures limits { IfOk result (λ it. (arc_value it.0.list).limits ≡ limits.now) }
    ensures log { IfOk result (λ it. (arc_value it.0.list).is_logged ≡ is_logged) }
    ensures known { IfOk result (λ it. IsKnown (arc_value it.0.list).start.book it.1) }
    ensures seen { IfOk result (λ it. it.1.cursor.seen.log ≡ []) }
{
    let list = CallList::new(alloc, limits, most, is_logged)?;
    let list = Arc::new(alloc, list)?;
    let Ok(()) = list.lay(alloc, 0) else {
        return Err(NoMemory);
    };
    let Some(cursor) = list.beginning() else {
        return Err(NoMemory);
    };
    match taken(list, cursor) {
        Some(it) => Ok(it),
        None => Err(NoMemory),
    }
}

/// The same of the list of a seat, for another that has seen as much. The error is `TooMany` where the list has as many seats as it may
/// have, or want of memory.
fn chair_beside(chair: &Chair, known: &Known) -> Result<(Chair, Known), SeatRefusal>
    requires { IsKnown (arc_value chair.now.list).start.book known.now }
    ensures list { IfOk result (λ it. arc_value it.0.list ≡ arc_value chair.now.list) }
    ensures known { IfOk result (λ it. IsKnown (arc_value chair.now.list).start.book it.1) }
    ensures seen { IfOk result (λ it. it.1.cursor.seen ≡ known.now.cursor.seen) }
{
    let cursor = known.cursor.again()?;
    let list = chair.list_again()?;
    match taken(list, cursor) {
        Some(it) => Ok(it),
        None => Err(SeatRefusal::TooMany),
    }
}

impl Seat {
    /// The first seat of a kernel that is booted with these limits, and of its list. A seat of the list may lack so many batches, up to
    /// 4,194,304; a list with a log may have so many. Both are rounded up to whole blocks of 256, and one more. The error is want of
    /// memory.
    pub fn first(
        alloc: Global,
        limits: &Limits,
        most: usize,
        is_logged: bool,
    ) -> Result<Seat, NoMemory>
        ensures { IfOk result (λ seat. IsFirst limits.now is_logged seat) }
    {
        let (chair, known) = first_chair(alloc, limits, most, is_logged)?;
        let meter = Meter::new(alloc)?;
        let Ok(kernel) = Kernel::boot(alloc, limits) else {
            return Err(NoMemory);
        };
        let kernel = shared(alloc, kernel)?;
        Ok(Seat {
            chair,
            kernel,
            meter,
            reply: Reply::Done,
            known,
        })
    }

    /// Another seat of the same list, which has seen what this one has: its kernel is a copy of this one's. The error is `TooMany` where the
    /// list has 4,096 seats, or want of memory.
    pub fn beside(&self, alloc: Global) -> Result<Seat, SeatRefusal>
        ensures { IfOk result (λ seat. IsBeside self.now seat) }
    {
        let (chair, known) = chair_beside(&self.chair, &self.known)?;
        let meter = Meter::new(alloc)?;
        let kernel = self.kernel.copy(alloc)?;
        let kernel = shared(alloc, kernel)?;
        Ok(Seat {
            chair,
            kernel,
            meter,
            reply: Reply::Done,
            known,
        })
    }

    /// Plays the next batch of the list, and tells whether it did: not where there is none, and not while there are readers of the kernel.
    #[tactic(auto, using(crate::proofs::Prefixes::prefix_self, crate::proofs::Prefixes::prefix_append, crate::proofs::Taking::state_more))]
    fn take_next(&mut self) -> bool
        ensures { IsLater self.old self.new }
    {
        if !self.chair.reach(&mut self.known.cursor) {
            return false;
        }
        let cursor = &self.known.cursor;
        let Some(next) = cursor.block.next(cursor.at, &cursor.seen) else {
            return false;
        };
        let Some(kernel) = Arc::get_mut(&mut self.kernel) else {
            return false;
        };
        play(kernel, next, &mut self.reply, &mut self.meter);
        let seen = next.seen.again();
        self.known.cursor.step(seen);
        true
    }

    /// Plays all that stands in the list. While there are readers of its kernel, it sees no more.
    #[tactic(auto, using(crate::proofs::Prefixes::prefix_self, crate::proofs::Prefixes::prefix_trans))]
    pub fn catch_up(&mut self)
        ensures { IsLater self.old self.new }
    {
        for _ in 0..u64::MAX {
            if !self.take_next() {
                return;
            }
        }
    }

    /// How many batches of the list it has seen: a note for another seat.
    pub fn count(&self) -> usize
        ensures { result ≡ length self.now.seen }
    {
        self.known.cursor.count
    }

    /// Whether the seat has seen no fewer batches than another of the same list. Of the two beginnings of the list the shorter
    /// begins the longer.
    pub fn has(&self, other: &Seat) -> bool
        requires { other.now.list ≡ self.now.list }
        ensures { Has result self.now.seen other.now.seen }
    {
        self.known.cursor.has(&other.known.cursor)
    }

    /// Whether the seat has seen all that a dump of its list tells. Of the two beginnings of the list the shorter begins the longer: so
    /// a dump up to the note of a seat tells what that seat has seen.
    pub fn has_dumped(&self, dump: &SeatDump) -> bool
        requires { dump.now.list ≡ self.now.list }
        ensures { Has result self.now.seen dump.now.seen }
    {
        self.known.cursor.has(dump.end())
    }

    /// Of two seats of one list: no batch that the other has seen has the mark of this seat's next batch. So what this seat was
    /// refused is in nobody's list: a refusal leaves the mark as it was. And no two batches have one mark.
    pub fn has_its_mark(&mut self, other: &Seat)
        requires { other.now.list ≡ self.old.list }
        ensures same { self.new ≡ self.old }
        ensures lacks { Lacks self.old.mark other.now.seen }
        ensures marked { AreMarked other.now.seen }
    {
        self.chair
            .list
            .look(&mut self.known, &other.known.cursor.seen);
    }

    /// Plays all that stands in the list, and tells whether the seat has then seen so many batches: what a note of another seat of the
    /// list tells. It has, where that seat had seen as many before the note came here.
    pub fn learn(&mut self, count: usize) -> bool
        ensures { IsLearned count self.old result self.new }
    {
        self.catch_up();
        self.known.cursor.count >= count
    }

    /// Asks as a thread, in the state of what the seat has then seen. It waits for nobody and takes no memory.
    pub fn read_into(&mut self, thread: ObjectId, query: &Query, reply: &mut Reply)
        ensures { IsRead thread self.old query.now reply.new self.new }
    {
        self.catch_up();
        self.kernel.ask_into(thread, query, reply, &mut self.meter);
    }

    /// A reader of the seat's kernel as it stands. As long as there is one, the seat sees no more, and a batch is refused as busy. The error is
    /// want of memory.
    pub fn reader(&self) -> Result<Reader, NoMemory>
        ensures { IfOk result (λ reader. reader ≡ state_of self.now.limits self.now.seen) }
    {
        Reader::of(&self.kernel)
    }

    /// Makes a call as a thread, which is then the last of the list. The reply becomes the answer. Where there is an error the
    /// call is not in the list, the seat has only seen more of it, and its mark is as it was.
    pub fn submit_into(
        &mut self,
        alloc: Global,
        thread: ObjectId,
        call: &Call,
        reply: &mut Reply,
    ) -> Result<(), SubmitRefusal>
        ensures done { OnOk result (IsSubmitted thread self.old call.now reply.new self.new) }
        ensures kept { OnErr result (IsLater self.old self.new) }
        ensures same { OnErr result (reply.new ≡ reply.old) }
        ensures good { IsErrOf result SubmitRefusal.BadBatch → ⊥ }
    {
        let kept = KeptCall::new(alloc, call)?;
        self.catch_up();
        let asked = Asked {
            thread,
            call,
            more: &[],
        };
        self.chair.room(alloc, &mut self.known.cursor)?;
        let Some(kernel) = Arc::get_mut(&mut self.kernel) else {
            return Err(SubmitRefusal::Busy);
        };
        let list = &self.chair.list;
        list.add(&mut self.known, &asked, kept, Vec::new(alloc))?;
        kernel.step_into(thread, call, reply, &mut self.meter);
        Ok(())
    }

    /// Makes 1 to 16 calls as a thread, which are then the last batch of the list, and gives their replies. Each is answered in the
    /// state that those before it leave; one that is refused changes nothing, and the rest are made. The error is `BadBatch`
    /// exactly where there are other numbers of calls. Where there is an error no call is in the list, the seat has only seen more
    /// of it, and its mark is as it was.
    pub fn submit_batch(
        &mut self,
        alloc: Global,
        thread: ObjectId,
        calls: &[Call],
    ) -> Result<Vec<Reply>, SubmitRefusal>
        ensures done { IfOk result (λ replies.
            IsBatchSubmitted thread self.old calls.now replies.items self.new) }
        ensures kept { OnErr result (IsLater self.old self.new) }
        ensures good { IsErrOf result SubmitRefusal.BadBatch ↔ (is_batch calls.now ≡ false) }
        ensures bad { IsErrOf result SubmitRefusal.BadBatch → self.new ≡ self.old }
    {
        let Some((call, more)) = split_batch(calls) else {
            return Err(SubmitRefusal::BadBatch);
        };
        let kept = KeptCall::new(alloc, call)?;
        let kept_more = kept_calls(alloc, more)?;
        let mut replies = replies_room(alloc, calls)?;
        self.catch_up();
        let asked = Asked { thread, call, more };
        self.chair.room(alloc, &mut self.known.cursor)?;
        let Some(kernel) = Arc::get_mut(&mut self.kernel) else {
            return Err(SubmitRefusal::Busy);
        };
        let list = &self.chair.list;
        list.add(&mut self.known, &asked, kept, kept_more)?;
        make_all(kernel, &mut self.meter, thread, calls, &mut replies);
        Ok(replies)
    }

    /// The dump of what the seat has seen, of which no piece was told: an event for each batch, with the answers of its calls. What is
    /// seen later is not in it. The error is `NoLog` exactly where the list has no log, `TooMany`, or want of memory.
    pub fn begin_dump(&self, alloc: Global) -> Result<SeatDump, DumpRefusal>
        ensures begun { IfOk result (λ dump. dump ≡ dump_at self.now) }
        ensures log { IsErrOf result DumpRefusal.NoLog ↔ (self.now.is_logged ≡ false) }
    {
        if !self.chair.list.is_logged {
            return Err(DumpRefusal::NoLog);
        }
        let telling = whole_telling(alloc, &self.chair, &self.known.cursor)?;
        Ok(SeatDump::begun(telling))
    }

    /// The dump of what the list has more than this seat has seen, up to so many batches, as the note of another seat tells them; no piece was
    /// told. It begins at a checkpoint of this seat's state, where the numbers of threads begin anew, so the list needs no log: what
    /// this seat lacks is not given back. The error is `Ahead` exactly where this seat has seen more, `Short` where the list has fewer,
    /// `TooMany`, or want of memory.
    pub fn begin_dump_to(&self, alloc: Global, count: usize) -> Result<SeatDump, DumpRefusal>
        ensures begun { IfOk result (λ dump. IsDumpTo count self.now dump) }
        ensures ahead { IsErrOf result DumpRefusal.Ahead ↔ (count < length self.now.seen) }
        ensures short { IsErrOf result DumpRefusal.Short → length self.now.seen < count }
        ensures log { IsErrOf result DumpRefusal.NoLog → ⊥ }
    {
        let cursor = &self.known.cursor;
        if count < cursor.count {
            return Err(DumpRefusal::Ahead);
        }
        let end = end_at(&self.chair, cursor, count)?;
        let telling = telling_since(alloc, &self.chair, &self.kernel, cursor, end)?;
        Ok(SeatDump::begun(telling))
    }
}

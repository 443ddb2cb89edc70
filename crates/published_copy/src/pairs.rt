//! The log of a boot's events, and the two copies of their state.
ghost use Rattle.core.specs.Mem.{manually_drop_value};
ghost use Rattle.std.specs.Prelude.{◌≡◌, ◌+◌, ◌≤◌, ◌<◌, ◌^◌, ◌∷◌, [], true, false, drop, length};
ghost use Rattle.std.specs.Prelude.{OnOk, OnErr, IfOk, IfSome, OnSome};
ghost use Rattle.std.specs.Arc.{arc_value};
ghost use Rattle.kernel_rules.specs.History.{state_of, count, is_batch};
ghost use Rattle.kernel_rules.specs.Step.{answer};
ghost use Rattle.syscall_core.specs.Kernel.{kernel_state};
ghost use Rattle.published_copy.specs.Absorbed.{list_of};
ghost use Rattle.published_copy.specs.Entries.{made, weight};
ghost use Rattle.published_copy.specs.Rules.{head_of};
ghost use Rattle.published_copy.specs.Shares.{IsShown};
ghost use Rattle.published_copy.specs.Turns.{event_at, with_event};

use crate::log_positions::LogPosition;
use crate::logs::{Head, SeenLog};
use crate::naming::Naming;
use crate::ops::Op;
use crate::passes::Pass;
use crate::read_handles::ReadHandle;
use crate::whole_logs::WholeLog;
use crate::writers::{Copies, Writer};
use base::NoMemory;
use kept_events::{KeptCalls, KeptEvent, KeptReply, call_answers};
use kernel_rules::{Call, Reply};
use std::alloc::Global;
use std::marker::Model;
use std::mem::ManuallyDrop;
use std::sync::{Arc, Wait};
use syscall_core::Kernel;

/// The log of a boot's events, and the two copies, of which the published one is in the state that
/// the events lead to. Contracts see the events.
#[derive(Drop)]
pub(crate) struct Pair<B: Naming> {
    alloc: Global,
    whole: WholeLog<B>,
    head: Arc<Head>,
    copies: Copies<B>,
}

impl<B: Naming> Model for Pair<B> {
    ghost use Rattle.std.specs.Prelude.{◌≡◌, List, []};
    ghost use Rattle.std.specs.Arc.{arc_value};
    ghost use Rattle.kernel_rules.specs.History.{IsLegal};
    ghost use Rattle.kernel_rules.specs.Events.{Event};
    ghost use Rattle.published_copy.specs.Entries.{made};
    ghost use Rattle.published_copy.specs.Rules.{head_of};

    ghost Value = { List Event };

    ghost view = { λ p. made p.whole };

    ghost invariant = { λ p. (arc_value p.head ≡ head_of B.boot.log)
        × (p.copies.list ≡ made p.whole) × (p.copies.pending ≡ [])
        × IsLegal B.boot.limits (made p.whole) };
}

/// The batch is tried in the log, and has an owner of the head for the copies' operation. What the log
/// has made stays. None where the log or the head's owners are too many to count, and then nothing
/// changes.
fn attempt<B: Naming, R: Wait>(
    rt: &R,
    whole: &mut WholeLog<B>,
    head: &Arc<Head>,
    kernel: &Kernel,
    pass: &Pass<B>,
    call: &Call,
    more: &[Call],
) -> Option<Arc<Head>>
    requires head { arc_value head.now ≡ head_of B.boot.log }
    requires state { kernel_state kernel.now ≡ state_of B.boot.limits (made whole.old) }
    ensures same { made whole.new ≡ made whole.old }
    ensures head { IfSome result (λ owner. arc_value owner ≡ head_of B.boot.log) }
    ensures list { OnSome result (list_of false whole.new
        ≡ with_event B.boot.limits (made whole.old) pass.now (call.now ∷ more.now)) }
    ensures room { OnSome result (weight whole.new + 1 < 2 ^ 64) }
{
    if whole.weight() >= u64::MAX - 3 {
        return None;
    }
    let owner = Arc::try_clone(head).ok()?;
    whole.attempt(rt, head, kernel, pass, call, more);
    Some(owner)
}

/// The batch as an operation for the copies, which makes so many events: the log was last tried with
/// it.
fn operation<B: Naming>(
    whole: &WholeLog<B>,
    head: Arc<Head>,
    pass: &Pass<B>,
    call: Box<Call>,
    more: Vec<Call>,
    events: u64,
) -> Op
    requires head { arc_value head ≡ head_of B.boot.log }
    requires few { length more.items ≤ 15 }
    ensures thread { result.thread ≡ pass.now.thread }
    ensures call { result.call ≡ call }
    ensures more { result.more.items ≡ more.items }
    ensures length { result.length ≡ events }
    ensures book { result.seen.book ≡ B.boot.log }
    ensures log { result.seen.log ≡ whole.now }
{
    Op {
        thread: pass.thread(),
        call,
        more,
        length: events,
        weight: whole.weight(),
        seen: whole.seen(),
        head,
    }
}

/// The same calls, in memory of their own, where there are any.
fn copied(alloc: Global, calls: &[Call]) -> Result<Vec<Call>, NoMemory>
    ensures { IfOk result (λ copied. copied.items ≡ calls.now) }
{
    let mut copied = Vec::new(alloc);
    if !calls.is_empty() {
        copied.reserve_exact(calls.len())?;
        copied.extend_from_slice(calls)?;
    }
    Ok(copied)
}

impl<B: Naming> Pair<B> {
    /// The memory that it grows in.
    pub(crate) fn alloc(&self) -> Global {
        self.alloc
    }

    /// The log and the copies of a boot, with no event.
    pub(crate) fn new(
        alloc: Global,
        seen: SeenLog,
        head: Arc<Head>,
        writer: ManuallyDrop<Writer>,
    ) -> Pair<B>
        requires empty { seen.log ≡ [] }
        requires log { seen.book ≡ B.boot.log }
        requires head { arc_value head ≡ head_of B.boot.log }
        requires shown { IsShown B.boot (manually_drop_value writer).desk.shown.value [] }
        requires pending { drop (manually_drop_value writer).behind
            (manually_drop_value writer).log.items ≡ [] }
        ensures { result ≡ [] }
    {
        Pair {
            alloc,
            whole: WholeLog::new(seen),
            head,
            copies: Copies::new(writer),
        }
    }

    /// All events, which are so many, as they were seen.
    pub(crate) fn position(&self, events: u64) -> LogPosition<B>
        requires { events ≡ length self.now }
        ensures { result ≡ self.now }
    {
        LogPosition::of(events, self.whole.seen())
    }

    /// The kernel of the published copy, in the state of the events.
    pub(crate) fn kernel(&self) -> &Kernel
        ensures { kernel_state result.now ≡ state_of B.boot.limits self.now }
    {
        self.copies.kernel()
    }

    /// Makes a pass's batch, as the event that comes next: the log tries it and has made it, and then
    /// readers are shown the copy that has it, with all of its calls. The reply becomes the answer to the
    /// first. The calls are written out for the copies, and the event is given back as it is kept. Without
    /// memory nothing changes.
    pub(crate) fn commit<R: Wait>(
        &mut self,
        rt: &R,
        pass: &Pass<B>,
        call: &Call,
        more: &[Call],
        events: u64,
        reply: &mut Reply,
    ) -> Result<KeptEvent, NoMemory>
        requires size { is_batch (call.now ∷ more.now) ≡ true }
        requires number { pass.now.number ≡ count pass.now.thread self.old + 1 }
        requires events { events ≡ length self.old + 1 }
        ensures event { IfOk result (λ kept. kept
            ≡ event_at (state_of B.boot.limits self.old) pass.now (call.now ∷ more.now)) }
        ensures journal { OnOk result (self.new
            ≡ with_event B.boot.limits self.old pass.now (call.now ∷ more.now)) }
        ensures reply { OnOk result
            (reply.new ≡ answer (state_of B.boot.limits self.old) pass.now.thread call.now) }
        ensures kept { OnErr result (self.new ≡ self.old) }
    {
        let first = Box::new(self.alloc, *call)?;
        let others = copied(self.alloc, more)?;
        let kept = KeptCalls::new(self.alloc, call, more)?;
        let kernel = self.copies.kernel();
        let tried = attempt(rt, &mut self.whole, &self.head, kernel, pass, call, more);
        let Some(head) = tried else {
            return Err(NoMemory);
        };
        let op = operation(&self.whole, head, pass, first, others, events);
        self.copies.queue(op)?;
        self.whole.settle(rt, &self.head);
        self.copies.publish(rt, &self.whole, reply);
        call_answers();
        let further = self.copies.further();
        let (thread, number) = (pass.thread(), pass.number());
        Ok(kept.event(thread, number, KeptReply::new(reply), further))
    }

    /// A reader of the copies, which knows their boot.
    pub(crate) fn handle<R: Wait>(&mut self, rt: &R) -> ReadHandle<B>
        ensures { self.new ≡ self.old }
    {
        self.copies.handle(rt)
    }

    /// Gives back the copies' memory, once no reader has one.
    pub(crate) fn close<R: Wait>(self, rt: &R) {
        let Pair {
            alloc: _,
            whole: _,
            head: _,
            copies,
        } = self;
        copies.close(rt)
    }
}

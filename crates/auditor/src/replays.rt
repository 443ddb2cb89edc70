//! Playing calls again.
ghost use Rattle.std.specs.Prelude.{◌≡◌, ◌≤◌, ◌++◌, ◌∷◌, [], length, map, take, IfOk, OnOk, List, true, false};
ghost use Rattle.std.specs.BTreeMap.{get};
ghost use Rattle.std.specs.Option.{unwrap_or};
ghost use Rattle.std.specs.Ordering.{nat_cmp};
ghost use Rattle.kernel_rules.specs.Runs.{state_after};
ghost use Rattle.kernel_rules.specs.Events.{by, told};
ghost use Rattle.kernel_rules.specs.History.{Start, answered};
ghost use Rattle.plain_core.specs.Kernel.{kernel_state};
ghost use Rattle.dump_text.specs.Reads.{are_placed};
ghost use Rattle.kernel_rules.specs.Events.{Event as Happened};
ghost use Rattle.auditor.specs.Replay.{IsReplay, Takes, TakesAll, thread_after, true_read};
ghost use Rattle.auditor.specs.Told.{HasNoNumber, StopsBetween, TellsAll};

use base::{Meter, NoMemory, ObjectId};
use dump_text::{PlacedRead, Read, raw_reply};
use kernel_rules::histories::{Answered, Event};
use kernel_rules::{Call, Mapping, Reply};
use plain_core::{Machine, PlainKernel};
use std::alloc::Global;
use std::collections::BTreeMap;

/// A kernel that takes calls again, with the events that they are by the rules.
#[derive(Drop)]
pub struct Replay {
    /// The kernel, in the state of the events.
    pub kernel: PlainKernel,
    /// What counts the kernel's work.
    pub meter: Meter,
    /// The events so far.
    pub events: Vec<Event>,
    /// The number of each thread's last event.
    pub counts: BTreeMap<u64, u64>,
}

/// The number of a thread's last event, 0 where it had none.
fn last_of(counts: &BTreeMap<u64, u64>, thread: ObjectId) -> u64
    ensures { result ≡ unwrap_or (get nat_cmp counts.now thread) 0 }
{
    match counts.get(&thread.number()) {
        None => 0,
        Some(number) => *number,
    }
}

/// Adds a call and its reply.
fn tell(all: &mut Vec<Answered>, call: &Call, reply: &Reply) -> Result<(), NoMemory>
    ensures { OnOk result (all.new.items ≡ all.old.items ++ told call.now reply.now ∷ []) }
{
    let _named: Option<Mapping> = None;
    let answered = Answered {
        call: *call,
        reply: *reply,
    };
    let (_call, _reply) = (&answered.call, &answered.reply);
    all.push(answered)?;
    Ok(())
}

/// Makes the calls of a thread, and tells them with their answers.
fn make(
    alloc: Global,
    kernel: &mut PlainKernel,
    meter: &mut Meter,
    thread: ObjectId,
    calls: &[Answered],
) -> Result<Vec<Answered>, NoMemory>
    ensures answers { IfOk result (λ made. made.items
        ≡ answered (kernel_state kernel.old) thread (map (λ a. a.call) calls.now)) }
    ensures state { OnOk result (kernel_state kernel.new
        ≡ state_after (kernel_state kernel.old) (by thread (map (λ a. a.call) calls.now))) }
{
    let mut made = Vec::with_capacity(alloc, calls.len())?;
    for earlier in calls {
        let reply = kernel.step(thread, &earlier.call, meter)?;
        tell(&mut made, &earlier.call, &reply)?;
    }
    Ok(made)
}

/// The thread that a read is told of after a read of a thread at a place.
fn thread_after(place: usize, thread: ObjectId, read: &PlacedRead) -> ObjectId
    ensures { result ≡ thread_after place thread read.now }
{
    let own = read.read.thread;
    if read.place == place && !(thread.number() <= own.number()) {
        thread
    } else {
        own
    }
}

impl Replay {
    /// Takes an event's calls again, where its thread has a next number below 2^64, and else none. The error is want of memory.
    fn take(&mut self, alloc: Global, event: &Event) -> Result<bool, NoMemory>
        ensures taken { IfOk result (λ taken. taken ≡ true → (start : Start) → IsReplay start self.old
            → Takes start self.old event.now self.new) }
        ensures stopped { IfOk result (λ taken. taken ≡ false → (start : Start) → IsReplay start self.old
            → (self.new ≡ self.old) × HasNoNumber start self.old.events.items event.now) }
    {
        let thread = event.thread;
        let Some(number) = last_of(&self.counts, thread).checked_add(1) else {
            return Ok(false);
        };
        let calls = make(
            alloc,
            &mut self.kernel,
            &mut self.meter,
            thread,
            event.calls.as_slice(),
        )?;
        self.events.push(Event {
            thread,
            number,
            calls,
        })?;
        self.counts.insert(thread.number(), number)?;
        Ok(true)
    }

    /// Takes the calls of events again, from one place among them to another, up to an event whose thread has no next number
    /// below 2^64. The error is want of memory.
    fn take_between(
        &mut self,
        alloc: Global,
        events: &[Event],
        from: usize,
        to: usize,
    ) -> Result<bool, NoMemory>
        requires order { from ≤ to }
        requires within { to ≤ length events.now }
        ensures taken { IfOk result (λ taken. taken ≡ true → (start : Start)
            → TakesAll start (take from events.now) self.old → TakesAll start (take to events.now) self.new) }
        ensures stopped { IfOk result (λ taken. taken ≡ false → (start : Start)
            → TakesAll start (take from events.now) self.old → StopsBetween start events.now from to self.new) }
    {
        for place in from..to {
            if !self.take(alloc, &events[place])? {
                return Ok(false);
            }
        }
        Ok(true)
    }

    /// A read as this thread's, with the rules' reply. The error is want of memory.
    fn answer(&mut self, thread: ObjectId, earlier: &PlacedRead) -> Result<PlacedRead, NoMemory>
        ensures told { IfOk result (λ told. (start : Start) (events : List Happened)
            → TakesAll start (take earlier.now.place events) self.old
            → told ≡ true_read start events thread earlier.now) }
        ensures kept { (start : Start) (events : List Happened) → TakesAll start events self.old
            → TakesAll start events self.new }
    {
        let _named: Option<Mapping> = None;
        let query = earlier.read.query;
        let reply = self.kernel.ask(thread, &query, &mut self.meter)?;
        Ok(PlacedRead {
            place: earlier.place,
            read: Read {
                thread,
                query,
                reply: raw_reply(&reply, &mut self.meter),
            },
        })
    }

    /// Takes the calls of events again, and tells the reads among them with the rules' replies, and with threads that rise at
    /// each place; up to an event whose thread has no next number below 2^64, if there is one. The error is want of memory.
    pub fn take_all(
        &mut self,
        alloc: Global,
        events: &[Event],
        reads: &[PlacedRead],
    ) -> Result<Vec<PlacedRead>, NoMemory>
        requires { are_placed 0 (length events.now) reads.now ≡ true }
        ensures { IfOk result (λ told. (start : Start) → IsReplay start self.old → self.old.events.items ≡ []
            → TellsAll start events.now reads.now self.new told.items) }
    {
        let mut told = Vec::with_capacity(alloc, reads.len())?;
        let mut place = 0;
        let mut thread = ObjectId::new(0);
        for read in reads {
            if !self.take_between(alloc, events, place, read.place)? {
                return Ok(told);
            }
            thread = thread_after(place, thread, read);
            place = read.place;
            told.push(self.answer(thread, read)?)?;
        }
        let _all = self.take_between(alloc, events, place, events.len())?;
        Ok(told)
    }
}

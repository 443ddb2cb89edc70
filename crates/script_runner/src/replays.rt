//! The reads of a run, as its dump tells them: a kernel makes the calls of the run again, and answers each read where
//! its thread stood.
//!
//! The journal begins with all that a seat had seen, but no contract of a seat says so, since threads share the journal.
//! So each read is asked again, and left out where it would be answered otherwise: no read of a run is.
ghost use Rattle.std.specs.Prelude.{◌≡◌, ◌≤◌, [], ◌∷◌, length, List, map, take, true, IfOk, OnOk};
ghost use Rattle.base.specs.Limits.{in_range};
ghost use Rattle.base.specs.declared.ranges.Limits.{Limits as Booted};
ghost use Rattle.kernel_rules.specs.Events.{by, calls_in};
ghost use Rattle.kernel_rules.specs.History.{state_of};
ghost use Rattle.kernel_rules.specs.Runs.{state_after};
ghost use Rattle.kernel_rules.specs.Step.{query_answer};
ghost use Rattle.syscall_core.specs.Kernel.{kernel_state};
ghost use Rattle.script_runner.specs.Reads.{if_printed, may_follow, told_reads, told_with, Stands};
ghost use Rattle.script_runner.specs.declared.reads.SeenRead.{SeenRead as Seen};

use crate::reads::SeenRead;
use base::{Limits, Meter, NoMemory, ObjectId};
use call_text::write_reply;
use dump_text::{PlacedRead, Read, ReadReply, raw_reply};
use kept_events::KeptEvent;
use kernel_rules::histories::{Answered, Event};
use kernel_rules::{Mapping, Reply};
use std::alloc::Global;
use syscall_core::Kernel;

/// A kernel that makes the calls of a run again, with the reads that were told so far.
#[derive(Drop)]
pub struct Replay {
    /// The kernel.
    pub kernel: Kernel,
    /// What counts the kernel's work.
    pub meter: Meter,
    /// How many events it made.
    pub place: usize,
    /// The thread of the last read there.
    pub thread: ObjectId,
    /// The reads.
    pub told: Vec<PlacedRead>,
}

/// Makes the calls of a thread.
fn make(kernel: &mut Kernel, thread: ObjectId, calls: &[Answered], meter: &mut Meter)
    ensures { kernel_state kernel.new
        ≡ state_after (kernel_state kernel.old) (by thread (map (λ a. a.call) calls.now)) }
{
    let mut reply = Reply::Done;
    for answered in calls {
        kernel.step_into(thread, &answered.call, &mut reply, meter);
    }
}

/// Makes the calls of an event.
fn make_event(kernel: &mut Kernel, event: &Event, meter: &mut Meter)
    ensures { kernel_state kernel.new
        ≡ state_after (kernel_state kernel.old) (by event.now.thread (calls_in event.now)) }
{
    make(kernel, event.thread, event.calls.as_slice(), meter);
}

/// Makes the calls of an event that is kept. The error is want of memory.
fn make_kept(
    alloc: Global,
    kernel: &mut Kernel,
    kept: &KeptEvent,
    meter: &mut Meter,
) -> Result<(), NoMemory>
    ensures { OnOk result (kernel_state kernel.new
        ≡ state_after (kernel_state kernel.old) (by kept.now.thread (calls_in kept.now))) }
{
    let event = kept.event(alloc)?;
    make_event(kernel, &event, meter);
    Ok(())
}

/// Makes the calls of events from one place among them to another. The error is want of memory.
fn make_between(
    alloc: Global,
    kernel: &mut Kernel,
    events: &[KeptEvent],
    from: usize,
    to: usize,
    meter: &mut Meter,
) -> Result<(), NoMemory>
    requires order { from ≤ to }
    requires within { to ≤ length events.now }
    ensures { OnOk result ((limits : Booted)
        → kernel_state kernel.old ≡ state_of limits (take from events.now)
        → kernel_state kernel.new ≡ state_of limits (take to events.now)) }
{
    for place in from..to {
        make_kept(alloc, kernel, &events[place], meter)?;
    }
    Ok(())
}

/// Whether a read may come after one of a thread at a place, among so many events.
fn may_follow(all: usize, place: usize, thread: ObjectId, read: &SeenRead) -> bool
    ensures { result ≡ may_follow all place thread read.now }
{
    place <= read.length
        && read.length <= all
        && (read.length != place || thread.number() <= read.thread.number())
}

/// What a kernel answers a read, where the read was answered so. The error is want of memory.
fn right_reply(
    alloc: Global,
    kernel: &Kernel,
    read: &SeenRead,
    meter: &mut Meter,
) -> Result<Option<ReadReply>, NoMemory>
    ensures { IfOk result (λ found. found ≡ if_printed read.now.text.items
        (query_answer (kernel_state kernel.now) read.now.thread read.now.query)) }
{
    let mut reply = Reply::Done;
    kernel.ask_into(read.thread, &read.query, &mut reply, meter);
    let text = write_reply(alloc, &reply, &[])?;
    if text.as_slice() == read.text.as_slice() {
        Ok(Some(raw_reply(&reply, meter)))
    } else {
        Ok(None)
    }
}

impl Replay {
    /// A replay of a boot after the first events. The error is want of memory.
    fn begin(
        alloc: Global,
        limits: &Limits,
        events: &[KeptEvent],
        first: usize,
    ) -> Result<Replay, NoMemory>
        requires limits { in_range limits.now ≡ true }
        requires within { first ≤ length events.now }
        ensures stands { IfOk result (Stands limits.now events.now) }
        ensures told { IfOk result (λ r. (reads : List Seen)
            → told_with limits.now first events.now r reads ≡ told_reads limits.now first events.now reads) }
    {
        let mut meter = Meter::new(alloc)?;
        let Ok(mut kernel) = Kernel::boot(alloc, limits) else {
            return Err(NoMemory);
        };
        make_between(alloc, &mut kernel, events, 0, first, &mut meter)?;
        Ok(Replay {
            kernel,
            meter,
            place: first,
            thread: ObjectId::new(0),
            told: Vec::new(alloc),
        })
    }

    /// Tells a read, in a dump whose checkpoint tells the first events. The error is want of memory.
    fn take(
        &mut self,
        alloc: Global,
        events: &[KeptEvent],
        first: usize,
        read: &SeenRead,
    ) -> Result<(), NoMemory>
        ensures { OnOk result ((limits : Booted) → Stands limits events.now self.old
            → Stands limits events.now self.new × ((rest : List Seen)
            → told_with limits first events.now self.new rest
            ≡ told_with limits first events.now self.old (read.now ∷ rest))) }
    {
        let _named: Option<Mapping> = None;
        if !may_follow(events.len(), self.place, self.thread, read) {
            return Ok(());
        }
        make_between(
            alloc,
            &mut self.kernel,
            events,
            self.place,
            read.length,
            &mut self.meter,
        )?;
        self.place = read.length;
        self.thread = read.thread;
        if let Some(reply) = right_reply(alloc, &self.kernel, read, &mut self.meter)? {
            self.told.push(PlacedRead {
                place: read.length.saturating_sub(first),
                read: Read {
                    thread: read.thread,
                    query: read.query,
                    reply,
                },
            })?;
        }
        Ok(())
    }

    /// Tells reads, one after another. The error is want of memory.
    fn take_all(
        &mut self,
        alloc: Global,
        events: &[KeptEvent],
        first: usize,
        reads: &[SeenRead],
    ) -> Result<(), NoMemory>
        ensures { OnOk result ((limits : Booted) → Stands limits events.now self.old
            → Stands limits events.now self.new × (told_with limits first events.now self.new []
            ≡ told_with limits first events.now self.old reads.now)) }
    {
        for read in reads {
            self.take(alloc, events, first, read)?;
        }
        Ok(())
    }
}

/// What a dump tells of the reads of a run, where its checkpoint tells the first events: those reads that had seen these
/// and were answered as the rules say, in the order of the dump. The error is want of memory.
pub fn told_reads(
    alloc: Global,
    limits: &Limits,
    events: &[KeptEvent],
    first: usize,
    reads: &[SeenRead],
) -> Result<Vec<PlacedRead>, NoMemory>
    requires limits { in_range limits.now ≡ true }
    requires within { first ≤ length events.now }
    ensures { IfOk result (λ told. told.items ≡ told_reads limits.now first events.now reads.now) }
{
    if reads.is_empty() {
        return Ok(Vec::new(alloc));
    }
    let mut replay = Replay::begin(alloc, limits, events, first)?;
    replay.take_all(alloc, events, first, reads)?;
    let Replay {
        kernel: _,
        meter: _,
        place: _,
        thread: _,
        told,
    } = replay;
    Ok(told)
}

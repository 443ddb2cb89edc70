//! Keeping calls in a log.
ghost use Rattle.std.specs.Prelude.{◌≡◌, ◌+◌, ◌<◌, ◌≤◌, ◌==◌, ◌++◌, ◌∷◌, [], ℕ, List, Some, cond, true, IfOk, IfSome, OnOk, OnErr, length, take, drop, vec_len, vec_capacity};
ghost use Rattle.std.specs.BTreeMap.{get};
ghost use Rattle.std.specs.Ordering.{nat_cmp};
ghost use Rattle.base.specs.Limits.{in_range};
ghost use Rattle.checkpoints.specs.Restorable.{is_restorable};
ghost use Rattle.checkpoints.specs.Restored.{restored};
ghost use Rattle.checkpoints.specs.Starts.{number_of};
ghost use Rattle.checkpoints.specs.declared.checkpoints.NextNumber.{NextNumber as FirstNumber};
ghost use Rattle.dump_text.specs.Fits.{FitsLine};
ghost use Rattle.dump_text.specs.Pieces.{piece_at};
ghost use Rattle.dump_text.specs.declared.lines.Line.TheVariants as lines;
ghost use Rattle.kernel_rules.specs.Events.{told};
ghost use Rattle.kernel_rules.specs.History.{count};
ghost use Rattle.kernel_rules.specs.Scratch.{scratch};
ghost use Rattle.kernel_rules.specs.Step.{answer, next};
ghost use Rattle.syscall_core.specs.Kernel.{kernel_state};
ghost use Rattle.logged_kernel.specs.Entries.{among, events_of};
ghost use Rattle.logged_kernel.specs.Logged.{FitsPiece, IsTextOf, piece_text};
ghost use Rattle.logged_kernel.specs.Numbers.{AreLast};
ghost use Rattle.logged_kernel.specs.ReadLines.{line_of, read_of};
ghost use Rattle.logged_kernel.specs.declared.entries.Entry.TheVariants as entries;

use crate::entries::{Entry, KeptRead, entries_text, place_of};
use crate::numbers::{later, number_of};
use base::{Limits, Meter, NoMemory, ObjectId};
use checkpoints::Checkpoint;
use dump_text::{Piece, dump_of, head_text, legal_is_dump, piece_at, tables_text};
use kept_events::{KeptCalls, KeptReply, call_answers};
use kernel_rules::{Call, Query, Reply, Tables};
use std::alloc::Global;
use std::collections::BTreeMap;
use syscall_core::Kernel;

/// What is kept of calls, the oldest first, and where it takes memory.
#[derive(Drop)]
pub struct EventLog {
    /// Where it takes memory.
    pub alloc: Global,
    /// The events, and the reads among them.
    pub entries: Vec<Entry>,
    /// The number of each thread's last event, so that its next one takes no walk over the events.
    pub last: BTreeMap<ObjectId, u64>,
}

impl EventLog {
    /// A log of nothing.
    pub(crate) fn new(alloc: Global) -> EventLog
        ensures entries { result.entries.items ≡ [] }
        ensures last { (first : List FirstNumber) → AreLast first result.last [] }
    {
        EventLog {
            alloc,
            entries: Vec::new(alloc),
            last: BTreeMap::new(alloc),
        }
    }
}

/// The number of a thread's next event after events that begin at the checkpoint; none where the last number was taken.
fn next_number(origin: &Checkpoint, log: &EventLog, thread: ObjectId) -> Option<u64>
    requires { AreLast origin.now.next log.now.last (events_of log.now.entries.items) }
    ensures { IfSome result (λ number.
        number ≡ count thread (events_of log.now.entries.items) + number_of origin.now.next thread) }
{
    match log.last.get(&thread) {
        Some(number) => later(*number),
        None => Some(number_of(origin.next.as_slice(), thread)),
    }
}

/// Notes the number of a thread's last event. Without memory nothing is noted.
fn note_last(
    last: &mut BTreeMap<ObjectId, u64>,
    thread: ObjectId,
    number: u64,
) -> Result<(), NoMemory>
    ensures noted { OnOk result ((t : ℕ)
        → get nat_cmp last.new t ≡ cond (thread == t) (Some number) (get nat_cmp last.old t)) }
    ensures kept { OnErr result ((t : ℕ) → get nat_cmp last.new t ≡ get nat_cmp last.old t) }
{
    last.insert(thread, number)?;
    Ok(())
}

/// Keeps a call, with room for its event. Nothing else changes, also without memory.
fn keep_call(log: &mut EventLog, call: &Call) -> Result<KeptCalls, NoMemory>
    ensures kept { IfOk result (λ kept. kept ≡ call.now ∷ []) }
    ensures room { OnOk result (vec_len log.new.entries < vec_capacity log.new.entries) }
    ensures same { log.new.entries.items ≡ log.old.entries.items }
    ensures last { log.new.last ≡ log.old.last }
{
    log.entries.reserve(1)?;
    KeptCalls::new(log.alloc, call, &[])
}

/// A kernel makes a call of a thread, whose event is kept last, with the thread's next number since the checkpoint. The reply
/// becomes the answer. The error is want of memory, or that the thread has no next number: no call is made then, and no event
/// is kept.
pub(crate) fn make_kept(
    kernel: &mut Kernel,
    origin: &Checkpoint,
    log: &mut EventLog,
    thread: ObjectId,
    call: &Call,
    reply: &mut Reply,
    meter: &mut Meter,
) -> Result<(), NoMemory>
    requires { AreLast origin.now.next log.old.last (events_of log.old.entries.items) }
    ensures last { AreLast origin.now.next log.new.last (events_of log.new.entries.items) }
    ensures state { OnOk result
        (kernel_state kernel.new ≡ next (kernel_state kernel.old) thread call.now) }
    ensures reply { OnOk result (reply.new ≡ answer (kernel_state kernel.old) thread call.now) }
    ensures event { OnOk result (log.new.entries.items ≡ log.old.entries.items ++ entries.Event (record {
      thread = thread;
      number = count thread (events_of log.old.entries.items) + number_of origin.now.next thread;
      calls = told call.now (answer (kernel_state kernel.old) thread call.now) ∷ [];
    }) ∷ []) }
    ensures kernel { OnErr result (kernel.new ≡ kernel.old) }
    ensures kept { OnErr result (log.new.entries.items ≡ log.old.entries.items) }
{
    let Some(number) = next_number(origin, log, thread) else {
        return Err(NoMemory);
    };
    let kept = keep_call(log, call)?;
    note_last(&mut log.last, thread, number)?;
    kernel.step_into(thread, call, reply, meter);
    call_answers();
    let event = kept.event(thread, number, KeptReply::new(reply), &[]);
    log.entries.push_reserved(Entry::Event(event));
    Ok(())
}

/// Keeps a thread's query with its reply. Without memory nothing is kept.
pub(crate) fn keep_read(
    log: &mut EventLog,
    thread: ObjectId,
    query: &Query,
    reply: &Reply,
    meter: &mut Meter,
) -> Result<(), NoMemory>
    ensures kept { OnOk result (log.new.entries.items
        ≡ among (line_of (read_of thread query.now reply.now)) log.old.entries.items) }
    ensures fits { OnOk result (FitsLine (lines.Read (read_of thread query.now reply.now))) }
    ensures same { OnErr result (log.new.entries.items ≡ log.old.entries.items) }
    ensures last { log.new.last ≡ log.old.last }
{
    let read = KeptRead::new(log.alloc, thread, query, reply, meter)?;
    let place = place_of(log.entries.as_slice(), thread);
    log.entries.insert(place, Entry::Read(read))?;
    Ok(())
}

/// The text of a checkpoint's dump, with no events. Want of memory is the only error.
pub(crate) fn checkpoint_text_of(
    alloc: Global,
    limits: &Limits,
    checkpoint: Checkpoint,
    tables: Tables,
) -> Result<Vec<u8>, NoMemory>
    requires range { in_range limits.now ≡ true }
    requires fit { is_restorable limits.now checkpoint ≡ true }
    requires tables { tables ≡ scratch (restored limits.now checkpoint) }
    ensures { IfOk result (λ text. IsTextOf limits.now checkpoint text.items) }
{
    legal_is_dump();
    let (events, reads) = (Vec::new(alloc), Vec::new(alloc));
    let text = dump_of(alloc, limits, Some(checkpoint), events, reads, tables)?;
    Ok(text)
}

/// Up to 64 entries from a place on.
fn entries_from(entries: &[Entry], from: usize) -> &[Entry]
    requires { from ≤ length entries.now }
    ensures { result.now ≡ take 64 (drop from entries.now) }
{
    let rest = &entries[from..];
    if rest.len() <= 64 {
        return rest;
    }
    &entries[from..from + 64]
}

/// A piece of the dump of what is kept after a checkpoint, which has led a kernel to its state. Want of memory is the only
/// error.
pub(crate) fn piece_of(
    log: &EventLog,
    limits: &Limits,
    origin: &Checkpoint,
    kernel: &Kernel,
    number: u64,
    meter: &mut Meter,
) -> Result<Vec<u8>, NoMemory>
    ensures text { IfOk result (λ text. text.items
        ≡ piece_text limits.now origin.now (kernel_state kernel.now) log.now.entries.items number) }
    ensures fits { OnOk result (FitsPiece origin.now (kernel_state kernel.now) log.now.entries.items
        (piece_at (length log.now.entries.items) number)) }
{
    match piece_at(log.entries.len(), number) {
        Piece::Head => head_text(log.alloc, limits, origin),
        Piece::Events { from } => {
            entries_text(log.alloc, entries_from(log.entries.as_slice(), from))
        }
        Piece::Tables => tables_text(log.alloc, kernel.tables(meter)?),
        Piece::Nothing => Ok(Vec::new(log.alloc)),
    }
}

//! What a log keeps: events, and reads among them.
ghost use Rattle.std.specs.Prelude.{◌≡◌, ◌≤◌, ◌++◌, ◌∷◌, ℕ, List, IfOk, OnOk, length, take, drop};
ghost use Rattle.std.specs.List.{AllByRecursion, flat_map};
ghost use Rattle.dump_text.specs.Fits.{FitsLine};
ghost use Rattle.dump_text.specs.declared.lines.Line.TheVariants as lines;
ghost use Rattle.logged_kernel.specs.Entries.{FitsEntry, among, entry_text, is_later};
ghost use Rattle.logged_kernel.specs.ReadLines.{line_of, read_of};
ghost use Rattle.logged_kernel.specs.declared.entries.Entry.TheVariants as told;

use base::{Meter, NoMemory, ObjectId};
use dump_text::{Read, put_event, put_read_line, raw_reply};
use kept_events::KeptEvent;
use kernel_rules::{Query, Reply};
use std::alloc::Global;
use std::marker::Model;

/// A read as a log keeps it: its thread, and its line in a dump. A contract sees the line's bytes.
#[derive(Drop)]
pub struct KeptRead {
    thread: ObjectId,
    line: Vec<u8>,
}

impl Model for KeptRead {
    ghost use Rattle.logged_kernel.specs.ReadLines.{ReadLine};

    ghost Value = { ReadLine };

    ghost view = { λ r. record { thread = r.thread; line = r.line.items } };
}

/// What a log keeps.
#[derive(Drop)]
pub enum Entry {
    /// The event of a write call.
    Event(KeptEvent),
    /// A query with its answer.
    Read(KeptRead),
}

impl KeptRead {
    /// A thread's query with its reply. The error is want of memory.
    pub(crate) fn new(
        alloc: Global,
        thread: ObjectId,
        query: &Query,
        reply: &Reply,
        meter: &mut Meter,
    ) -> Result<KeptRead, NoMemory>
        ensures line { IfOk result (λ kept. kept ≡ line_of (read_of thread query.now reply.now)) }
        ensures fits { OnOk result (FitsLine (lines.Read (read_of thread query.now reply.now))) }
    {
        let read = Read {
            thread,
            query: *query,
            reply: raw_reply(reply, meter),
        };
        let mut line = Vec::new(alloc);
        put_read_line(&mut line, &read)?;
        Ok(KeptRead { thread, line })
    }
}

/// Whether an entry is a read by a greater thread.
fn is_later(thread: ObjectId, entry: &Entry) -> bool
    ensures { result ≡ is_later thread entry.now }
{
    match entry {
        Entry::Event(_) => false,
        Entry::Read(read) => thread.number() < read.thread.number(),
    }
}

/// Where a thread's read goes that is the last so far: before the last reads by greater threads.
pub(crate) fn place_of(entries: &[Entry], thread: ObjectId) -> usize
    ensures within { result ≤ length entries.now }
    ensures place { (line : List ℕ)
        → take result entries.now ++ told.Read (record { thread = thread; line = line }) ∷ drop result entries.now
        ≡ among (record { thread = thread; line = line }) entries.now }
{
    let mut at = entries.len();
    while at > 0 && is_later(thread, &entries[at - 1]) {
        at -= 1;
    }
    at
}

/// Adds the lines of an entry. Want of memory is the only error.
fn put_entry(alloc: Global, out: &mut Vec<u8>, entry: &Entry) -> Result<(), NoMemory>
    ensures text { OnOk result (out.new.items ≡ out.old.items ++ entry_text entry.now) }
    ensures fits { OnOk result (FitsEntry entry.now) }
{
    match entry {
        Entry::Event(kept) => {
            let event = kept.event(alloc)?;
            put_event(out, &event)
        }
        Entry::Read(read) => {
            out.extend_from_slice(read.line.as_slice())?;
            Ok(())
        }
    }
}

/// The text of the lines of entries. Want of memory is the only error.
pub(crate) fn entries_text(alloc: Global, entries: &[Entry]) -> Result<Vec<u8>, NoMemory>
    ensures text { IfOk result (λ text. text.items ≡ flat_map entry_text entries.now) }
    ensures fits { OnOk result (AllByRecursion FitsEntry entries.now) }
{
    let mut out = Vec::new(alloc);
    for entry in entries {
        put_entry(alloc, &mut out, entry)?;
    }
    Ok(out)
}

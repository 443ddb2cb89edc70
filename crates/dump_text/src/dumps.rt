//! Reading dumps.
ghost use Rattle.std.specs.Prelude.{◌≡◌, ◌<◌, ◌++◌, ◌∷◌, [], ℕ, List, IfOk, OnOk};
ghost use Rattle.dump_text.specs.Lists.{DumpLists};
ghost use Rattle.dump_text.specs.Dump.{IsDump, DumpFaultsAt, event_of};
ghost use Rattle.dump_text.specs.Reading.{ReadsDump, Takes, added, with_call, nothing};

use crate::checkpoint_lines::with_state;
use crate::errors::DumpError;
use crate::events::Single;
use crate::line_words::Batch;
use crate::lines::{Line, read_line};
use crate::places::{Place, START, ends, next};
use crate::read_replies::ReadReply;
use crate::reads::Read;
use crate::tables::{Dump, DumpTables, PlacedRead};
use base::{Level, Limits};
use call_text::parted;
use kernel_rules::Query;
use kernel_rules::histories::{Answered, Event};
use std::alloc::{AllocError, Global};

/// Lines of no kind, and limits that nothing told yet.
fn nothing(alloc: Global) -> Dump
    ensures { result ≡ nothing }
{
    Dump {
        limits: Limits {
            pages: 8,
            device: Level::L1,
            next_id: 4,
            next_category: 1,
        },
        checkpoint: None,
        events: Vec::new(alloc),
        reads: Vec::new(alloc),
        tables: DumpTables {
            live: Vec::new(alloc),
            uses: Vec::new(alloc),
            maps: Vec::new(alloc),
            labels: Vec::new(alloc),
            orders: Vec::new(alloc),
        },
    }
}

/// Adds an item at the end.
fn push<T: Copy + Drop>(items: &mut Vec<T>, item: &T) -> Result<(), AllocError>
    ensures { OnOk result (items.new.items ≡ items.old.items ++ item.now ∷ []) }
{
    items.push(*item)?;
    Ok(())
}

/// Adds the head of a batch: an event that has no call yet.
fn add_batch(alloc: Global, events: &mut Vec<Event>, batch: &Batch) -> Result<(), AllocError>
    ensures { OnOk result (events.new.items ≡ events.old.items
        ++ record { thread = batch.now.thread; number = batch.now.number; calls = [] } ∷ []) }
{
    events.push(Event {
        thread: batch.thread,
        number: batch.number,
        calls: Vec::new(alloc),
    })?;
    Ok(())
}

/// Adds a call to the last event.
fn add_call(events: &mut Vec<Event>, answered: &Answered) -> Result<(), AllocError>
    ensures { OnOk result (events.new.items ≡ with_call answered.now events.old.items) }
{
    if let Some(mut event) = events.pop() {
        push(&mut event.calls, answered)?;
        events.push(event)?;
    }
    Ok(())
}

/// Adds an event of one call.
fn add_single(alloc: Global, events: &mut Vec<Event>, single: &Single) -> Result<(), AllocError>
    ensures { OnOk result (events.new.items ≡ events.old.items ++ event_of single.now ∷ []) }
{
    let mut calls = Vec::with_capacity(alloc, 1)?;
    push(&mut calls, &single.answered)?;
    events.push(Event {
        thread: single.thread,
        number: single.number,
        calls,
    })?;
    Ok(())
}

/// Adds a read, whose place is after these events.
fn add_read(reads: &mut Vec<PlacedRead>, place: usize, read: &Read) -> Result<(), AllocError>
    ensures { OnOk result (reads.new.items
        ≡ reads.old.items ++ record { place = place; read = read.now } ∷ []) }
{
    let _named: (Option<Query>, Option<ReadReply>) = (None, None);
    reads.push(PlacedRead { place, read: *read })?;
    Ok(())
}

/// Adds what the line tells.
fn add(alloc: Global, dump: &mut Dump, line: &Line) -> Result<(), AllocError>
    ensures { OnOk result (dump.new ≡ added line.now dump.old) }
{
    match line {
        Line::Version(_) => {}
        Line::Limits(limits) => dump.limits = *limits,
        Line::State(line) => {
            dump.checkpoint = with_state(alloc, line, dump.checkpoint.take())?;
        }
        Line::Event(single) => add_single(alloc, &mut dump.events, single)?,
        Line::Batch(batch) => add_batch(alloc, &mut dump.events, batch)?,
        Line::Call(answered) => add_call(&mut dump.events, answered)?,
        Line::Read(read) => add_read(&mut dump.reads, dump.events.len(), read)?,
        Line::Live(id) => push(&mut dump.tables.live, id)?,
        Line::Use(used) => push(&mut dump.tables.uses, used)?,
        Line::Map(shown) => push(&mut dump.tables.maps, shown)?,
        Line::Label(stored) => push(&mut dump.tables.labels, stored)?,
        Line::Order(order) => push(&mut dump.tables.orders, order)?,
        Line::End => {}
    }
    Ok(())
}

/// Adds the line that the text spells, where it may come, and tells where the reader stands after it.
fn take(
    alloc: Global,
    text: &[u8],
    place: Place,
    dump: &mut Dump,
) -> Result<Option<Place>, AllocError>
    ensures { IfOk result (λ later. Takes text.now place dump.old dump.new later) }
{
    let mut line = Line::End;
    if !read_line(alloc, text, &mut line)? {
        return Ok(None);
    }
    let Some(later) = next(place, &line) else {
        return Ok(None);
    };
    add(alloc, dump, &line)?;
    Ok(Some(later))
}

/// The one dump that the bytes spell. `Line` tells the first line at which they stop being the beginning of a dump, the
/// next after the last where they end too early.
pub fn read_dump(alloc: Global, bytes: &[u8]) -> Result<Dump, DumpError>
    ensures { ReadsDump bytes.now result }
{
    let mut dump = nothing(alloc);
    let mut place = START;
    let mut rest = bytes;
    let mut count = 0u64;
    while !rest.is_empty() {
        let Some((line, more)) = parted(rest, b'\n') else {
            return Err(DumpError::Line(count + 1));
        };
        let Some(later) = take(alloc, line, place, &mut dump)? else {
            return Err(DumpError::Line(count + 1));
        };
        place = later;
        rest = more;
        count += 1;
    }
    if !ends(place) {
        return Err(DumpError::Line(count + 1));
    }
    Ok(dump)
}

/// A law, which does nothing when it is called: bytes spell one dump, what spells one has no faulty line, and the first
/// faulty line is one.
pub fn one_reading()
    ensures value { (bytes : List ℕ) (a b : DumpLists) → IsDump bytes a → IsDump bytes b → a ≡ b }
    ensures fault { (bytes : List ℕ) (n : ℕ) (a : DumpLists)
        → DumpFaultsAt bytes n → IsDump bytes a → ⊥ }
    ensures line { (bytes : List ℕ) (n m : ℕ)
        → DumpFaultsAt bytes n → DumpFaultsAt bytes m → n ≡ m }
{}

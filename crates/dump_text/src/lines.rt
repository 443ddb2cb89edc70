//! The lines of dumps.
ghost use Rattle.std.specs.Prelude.{◌≡◌, ◌++◌, codes, IfOk};
ghost use Rattle.dump_text.specs.Making.{Fills};
ghost use Rattle.dump_text.specs.Event.{answered_text, IsAnswered, single_text, IsSingle};
ghost use Rattle.dump_text.specs.Line.{line_text, IsLine};
ghost use Rattle.dump_text.specs.Read.{read_text, IsRead};
ghost use Rattle.dump_text.specs.Reads.{read_line};
ghost use Rattle.text_words.specs.Reading.{Reads};
ghost use Rattle.dump_text.specs.CheckpointLines.{slot_line, packet_line, next_line};
ghost use Rattle.dump_text.specs.declared.lines.Line.TheVariants as told;

use crate::events::{Single, read_answered, read_single};
use crate::line_words::{Batch, read_worded};
use crate::reads::{Read, read_read};
use crate::state_lines::{Part, StateLine};
use crate::state_reading::read_state_line;
use crate::stripping::after;
use crate::tables::{PlacedRead, Stored};
use base::{Data, Limits, ObjectId};
use checkpoints::{FilledSlot, NextNumber};
use kernel_rules::histories::Answered;
use kernel_rules::{Call, Compared, Reply, Shown, Used};
use std::alloc::{AllocError, Global};
use text_words::is_same;
use text_words::spoken_calls::ArgKind;

/// A format of dumps.
#[derive(Clone, Copy, PartialEq, Eq)]
pub enum Format {
    /// The events of a run from its boot on.
    One,
    /// A checkpoint, and the events after it.
    Two,
}

/// A line of a dump.
#[derive(Clone, Copy)]
pub enum Line {
    /// `histar-dump 1` or `histar-dump 2`.
    Version(Format),
    /// What the machine was booted with.
    Limits(Limits),
    /// A line of the checkpoint.
    State(StateLine),
    /// An event of one call.
    Event(Single),
    /// The head of an event of several calls.
    Batch(Batch),
    /// One of these calls.
    Call(Answered),
    /// A query, and what it was answered.
    Read(Read),
    /// A live id.
    Live(ObjectId),
    Use(Used),
    /// What a slot shows.
    Map(Shown),
    Label(Stored),
    Order(Compared),
    /// `end`.
    End,
}

/// What fills a line.
pub trait AsLine {
    ghost use Rattle.dump_text.specs.declared.lines.Line.{Line};

    /// Its line.
    ghost line: { Self → Line };

    /// Its line.
    fn as_line(&self) -> Line
        ensures { result ≡ line self.now };
}

impl AsLine for Answered {
    ghost line = { told.Call };

    fn as_line(&self) -> Line {
        Line::Call(*self)
    }
}

impl AsLine for PlacedRead {
    ghost line = { read_line };

    fn as_line(&self) -> Line {
        Line::Read(self.read)
    }
}

impl AsLine for FilledSlot {
    ghost line = { slot_line };

    fn as_line(&self) -> Line {
        Line::State(StateLine::Part(Part::Slot(*self)))
    }
}

impl AsLine for Data {
    ghost line = { packet_line };

    fn as_line(&self) -> Line {
        Line::State(StateLine::Part(Part::Packet(*self)))
    }
}

impl AsLine for NextNumber {
    ghost line = { next_line };

    fn as_line(&self) -> Line {
        Line::State(StateLine::Next(*self))
    }
}

impl AsLine for ObjectId {
    ghost line = { told.Live };

    fn as_line(&self) -> Line {
        Line::Live(*self)
    }
}

impl AsLine for Used {
    ghost line = { told.Use };

    fn as_line(&self) -> Line {
        Line::Use(*self)
    }
}

impl AsLine for Shown {
    ghost line = { told.Map };

    fn as_line(&self) -> Line {
        Line::Map(*self)
    }
}

impl AsLine for Stored {
    ghost line = { told.Label };

    fn as_line(&self) -> Line {
        Line::Label(*self)
    }
}

impl AsLine for Compared {
    ghost line = { told.Order };

    fn as_line(&self) -> Line {
        Line::Order(*self)
    }
}

/// A call that nothing told yet.
fn no_answer() -> Answered {
    Answered {
        call: Call::CatCreate,
        reply: Reply::Done,
    }
}

/// An event that nothing told yet.
fn no_event() -> Single {
    Single {
        thread: ObjectId::new(0),
        number: 0,
        answered: no_answer(),
    }
}

/// Fills in an event, as `event` and its words, and tells whether the text spells one.
fn read_event_line(alloc: Global, text: &[u8], event: &mut Single) -> Result<bool, AllocError>
    ensures { IfOk result (λ yes. Fills (λ e. codes "event " ++ single_text e) IsSingle
        text.now event.new yes) }
{
    let Some(rest) = after(text, b"event ") else {
        return Ok(false);
    };
    read_single(alloc, rest, event)
}

/// Fills in a call and its reply, as `call` and their words, and tells whether the text spells them.
fn read_call_line(alloc: Global, text: &[u8], answered: &mut Answered) -> Result<bool, AllocError>
    ensures { IfOk result (λ yes. Fills (λ a. codes "call " ++ answered_text a) IsAnswered
        text.now answered.new yes) }
{
    let Some(rest) = after(text, b"call ") else {
        return Ok(false);
    };
    read_answered(alloc, rest, answered)
}

/// A query and its reply, as `read` and their words.
fn read_read_line(alloc: Global, text: &[u8]) -> Result<Option<Read>, AllocError>
    ensures { IfOk result (λ found. Reads (λ r. codes "read " ++ read_text r) IsRead text.now found) }
{
    let Some(rest) = after(text, b"read ") else {
        return Ok(None);
    };
    read_read(alloc, rest)
}

/// Fills in the line that the bytes before a line's end spell, and tells whether they spell one.
pub fn read_line(alloc: Global, text: &[u8], line: &mut Line) -> Result<bool, AllocError>
    ensures { IfOk result (λ yes. Fills line_text IsLine text.now line.new yes) }
{
    if is_same(text, b"histar-dump 1") {
        *line = Line::Version(Format::One);
        return Ok(true);
    }
    if is_same(text, b"histar-dump 2") {
        *line = Line::Version(Format::Two);
        return Ok(true);
    }
    if is_same(text, b"end") {
        *line = Line::End;
        return Ok(true);
    }
    if let Some(order) = read_worded::<Compared>(
        alloc,
        text,
        b"order ",
        &[ArgKind::Number, ArgKind::Number, ArgKind::Number],
    )? {
        *line = Line::Order(order);
        return Ok(true);
    }
    if let Some(id) = read_worded::<ObjectId>(alloc, text, b"live ", &[ArgKind::Wide])? {
        *line = Line::Live(id);
        return Ok(true);
    }
    if let Some(used) = read_worded::<Used>(
        alloc,
        text,
        b"use ",
        &[ArgKind::Wide, ArgKind::Number],
    )? {
        *line = Line::Use(used);
        return Ok(true);
    }
    if let Some(shown) = read_worded::<Shown>(
        alloc,
        text,
        b"map ",
        &[
            ArgKind::Wide,
            ArgKind::Number,
            ArgKind::Wide,
            ArgKind::Rights,
        ],
    )? {
        *line = Line::Map(shown);
        return Ok(true);
    }
    if let Some(stored) = read_worded::<Stored>(
        alloc,
        text,
        b"label ",
        &[ArgKind::Number, ArgKind::Label],
    )? {
        *line = Line::Label(stored);
        return Ok(true);
    }
    if let Some(limits) = read_worded::<Limits>(
        alloc,
        text,
        b"limits ",
        &[
            ArgKind::Number,
            ArgKind::Number,
            ArgKind::Wide,
            ArgKind::Wide,
        ],
    )? {
        *line = Line::Limits(limits);
        return Ok(true);
    }
    if let Some(batch) = read_worded::<Batch>(
        alloc,
        text,
        b"batch ",
        &[ArgKind::Wide, ArgKind::Wide, ArgKind::Number],
    )? {
        *line = Line::Batch(batch);
        return Ok(true);
    }
    if let Some(read) = read_read_line(alloc, text)? {
        *line = Line::Read(read);
        return Ok(true);
    }
    let mut answered = no_answer();
    if read_call_line(alloc, text, &mut answered)? {
        *line = Line::Call(answered);
        return Ok(true);
    }
    let mut event = no_event();
    if read_event_line(alloc, text, &mut event)? {
        *line = Line::Event(event);
        return Ok(true);
    }
    let Some(state) = read_state_line(alloc, text)? else {
        return Ok(false);
    };
    *line = Line::State(state);
    Ok(true)
}

//! Which line may come next in a dump.
ghost use Rattle.std.specs.Prelude.{◌≡◌};
ghost use Rattle.dump_text.specs.Head.{IsHead};
ghost use Rattle.dump_text.specs.Line.{IsLine};
ghost use Rattle.dump_text.specs.Dump.{state_rank, rank_of, comes, after_version, after_event, after};
ghost use Rattle.dump_text.specs.Dump.{rows_owed, calls_owed, owed, takes, is_due, opened_by};
ghost use Rattle.dump_text.specs.Dump.{pending_after_part, pending_after, next, start, ends};

use crate::heads::Head;
use crate::lines::{Format, Line};
use crate::state_lines::{Part, StateLine};

/// Which lines may come inside of an object or an event.
#[derive(Clone, Copy)]
pub enum Pending {
    Nothing,
    /// Ids that a container lists.
    Entries,
    /// Bytes of a segment, so many lines, before any other line.
    Rows(usize),
    /// Filled slots of an address space.
    Slots,
    /// Packets of a device.
    Packets,
    /// Calls of a batch, so many, before any other line.
    Calls(usize),
}

/// Where a reader stands after some lines.
#[derive(Clone, Copy)]
pub struct Place {
    /// The first kind of line that may come, by its place in the order of the kinds.
    pub first: u8,
    /// What may come inside of the last object or event.
    pub pending: Pending,
}

/// Before the first line.
pub const START: Place = Place {
    first: 0,
    pending: Pending::Nothing,
};

/// The kind of a line of a checkpoint, by its place in the order of the kinds.
fn state_rank(line: &StateLine) -> u8
    ensures { result ≡ state_rank line.now }
{
    match line {
        StateLine::Counters(_) => 3,
        StateLine::Object(_) => 4,
        StateLine::Part(_) => 4,
        StateLine::Next(_) => 5,
    }
}

/// The kind of a line, by its place in the order of the kinds.
fn rank_of(line: &Line) -> u8
    ensures { result ≡ rank_of line.now }
{
    match line {
        Line::Version(_) => 0,
        Line::Limits(_) => 2,
        Line::State(line) => state_rank(line),
        Line::Read(_) => 6,
        Line::Event(_) => 7,
        Line::Batch(_) => 7,
        Line::Call(_) => 7,
        Line::Live(_) => 8,
        Line::Use(_) => 9,
        Line::Map(_) => 10,
        Line::Label(_) => 11,
        Line::Order(_) => 12,
        Line::End => 13,
    }
}

/// Whether the line may come where that kind is the first that may come.
fn comes(first: u8, line: &Line) -> bool
    ensures { result ≡ comes first line.now }
{
    match line {
        Line::Version(_) => first == 0,
        Line::Limits(limits) => first == 1 && limits.pages <= 512 || first == 2,
        Line::State(StateLine::Counters(_)) => first == 3,
        _ => 4 <= first && first <= rank_of(line),
    }
}

/// The first kind that may come after the version.
fn after_version(format: Format) -> u8
    ensures { result ≡ after_version format }
{
    match format {
        Format::One => 1,
        Format::Two => 2,
    }
}

/// The first kind that may come after an event: a read, where one could come before it.
fn after_event(first: u8) -> u8
    ensures { result ≡ after_event first }
{
    if first <= 6 { 6 } else { 7 }
}

/// The first kind that may come after the line.
fn after(first: u8, line: &Line) -> u8
    ensures { result ≡ after first line.now }
{
    match line {
        Line::Version(format) => after_version(*format),
        Line::Limits(_) => if first == 1 { 7 } else { 3 },
        Line::State(StateLine::Counters(_)) => 4,
        Line::Event(_) => after_event(first),
        Line::Batch(_) => after_event(first),
        Line::Call(_) => after_event(first),
        Line::End => 14,
        _ => rank_of(line),
    }
}

/// How many lines of bytes have to come before any other line.
fn rows_owed(pending: Pending) -> usize
    ensures { result ≡ rows_owed pending }
{
    match pending {
        Pending::Rows(count) => count,
        _ => 0,
    }
}

/// How many calls have to come before any other line.
fn calls_owed(pending: Pending) -> usize
    ensures { result ≡ calls_owed pending }
{
    match pending {
        Pending::Calls(count) => count,
        _ => 0,
    }
}

/// How many lines have to come inside of the last object or event, before any other line.
fn owed(pending: Pending) -> usize
    ensures { result ≡ owed pending }
{
    match pending {
        Pending::Rows(count) => count,
        Pending::Calls(count) => count,
        _ => 0,
    }
}

/// Whether the part may come.
fn takes(pending: Pending, part: &Part) -> bool
    ensures { result ≡ takes pending part.now }
{
    match part {
        Part::Entry(_) => matches!(pending, Pending::Entries),
        Part::Row(_) => rows_owed(pending) >= 1,
        Part::Slot(_) => matches!(pending, Pending::Slots),
        Part::Packet(_) => matches!(pending, Pending::Packets),
    }
}

/// Whether the line may come inside of the last object or event, or after it.
fn is_due(pending: Pending, line: &Line) -> bool
    ensures { result ≡ is_due pending line.now }
{
    match line {
        Line::State(StateLine::Part(part)) => takes(pending, part),
        Line::Call(_) => calls_owed(pending) >= 1,
        _ => owed(pending) == 0,
    }
}

/// Which parts an object takes after its own line.
fn opened_by(head: &Head) -> Pending
    requires { IsHead head.now }
    ensures { result ≡ opened_by head.now }
{
    match head {
        Head::Container(_) => Pending::Entries,
        Head::Segment(segment) => Pending::Rows(4 * segment.pages),
        Head::AddressSpace(_) => Pending::Slots,
        Head::Thread(_) => Pending::Nothing,
        Head::Gate(_) => Pending::Nothing,
        Head::Device(_) => Pending::Packets,
    }
}

/// What may still come after the part.
fn pending_after_part(pending: Pending, part: &Part) -> Pending
    ensures { result ≡ pending_after_part pending part.now }
{
    match part {
        Part::Row(_) => Pending::Rows(rows_owed(pending).saturating_sub(1)),
        _ => pending,
    }
}

/// What may come inside of what the line begins or goes on with.
fn pending_after(pending: Pending, line: &Line) -> Pending
    requires { IsLine line.now }
    ensures { result ≡ pending_after pending line.now }
{
    match line {
        Line::State(StateLine::Object(object)) => opened_by(&object.head),
        Line::State(StateLine::Part(part)) => pending_after_part(pending, part),
        Line::Batch(batch) => Pending::Calls(batch.count),
        Line::Call(_) => Pending::Calls(calls_owed(pending).saturating_sub(1)),
        _ => Pending::Nothing,
    }
}

/// Where the reader stands after the line, where that one may come.
#[tactic(auto, unfolding(crate::specs::Dump::next))]
pub fn next(place: Place, line: &Line) -> Option<Place>
    requires { IsLine line.now }
    ensures { result ≡ next place line.now }
{
    if !is_due(place.pending, line) {
        return None;
    }
    if !comes(place.first, line) {
        return None;
    }
    Some(Place {
        first: after(place.first, line),
        pending: pending_after(place.pending, line),
    })
}

/// Whether the dump ends there.
pub fn ends(place: Place) -> bool
    ensures { result ≡ ends place }
{
    place.first == 14 && owed(place.pending) == 0
}

//! Which calls, or which read, a line of a dump tells.
ghost use Rattle.std.specs.Prelude.{◌≡◌, ℕ, ◌+◌, ◌<◌, ◌≤◌, ◌^◌, length, map, slice_get, Some};
ghost use Rattle.std.specs.Option.{option_map};
ghost use Rattle.shown_dumps.specs.declared.why.places.Content.TheVariants.{Asked};
ghost use Rattle.dump_text.specs.CheckpointLines.{rows_of, row_line, part_lines, object_lines};
ghost use Rattle.dump_text.specs.Dump.{event_lines, lines_with};
ghost use Rattle.std.specs.List.{flat_map};
ghost use Rattle.shown_dumps.specs.Places.{lines_before, place_of, place_in, place_from, place_at};

use checkpoints::{Checkpoint, RawBody, Recorded};
use dump_text::{PlacedRead, part_reads};
use kernel_rules::histories::{Answered, Event};

/// Calls of an event that a line tells.
#[derive(Clone, Copy)]
pub struct Place {
    /// Which event of the dump it is, from 0.
    pub event: usize,
    /// The first of the calls, from 0.
    pub first: usize,
    /// How many calls.
    pub count: usize,
    /// Whether the line is that of a batch, whose calls are told in the next lines.
    pub is_batch: bool,
}

/// What a line tells.
#[derive(Clone, Copy)]
pub enum Content {
    /// Calls of an event.
    Calls(Place),
    /// A read.
    Asked(PlacedRead),
}

/// How many lines tell an event with these calls.
#[tactic(auto, using(crate::proofs::PlaceLaws::one_line, crate::proofs::PlaceLaws::several_lines))]
fn line_count(calls: &[Answered]) -> u64
    ensures { (thread number : ℕ) → result ≡ length (lines_with thread number calls.now) }
{
    if calls.len() == 1 {
        1
    } else {
        1 + calls.len() as u64
    }
}

/// How many lines tell an event.
fn event_line_count(event: &Event) -> u64
    ensures { result ≡ length (event_lines event.now) }
{
    line_count(event.calls.as_slice())
}

/// What a line of an event with so many calls tells, of its lines the one after the first `left`.
fn place_of(event: usize, count: usize, left: u64) -> Place
    ensures { result ≡ place_of event count left }
{
    if count == 1 {
        return Place {
            event,
            first: 0,
            count: 1,
            is_batch: false,
        };
    }
    if left == 0 {
        return Place {
            event,
            first: 0,
            count,
            is_batch: true,
        };
    }
    Place {
        event,
        first: (left - 1) as usize,
        count: 1,
        is_batch: false,
    }
}

/// What a line of an event tells, of its lines the one after the first `left`.
fn place_in(number: usize, event: &Event, left: u64) -> Place
    ensures { result ≡ place_in number event.now left }
{
    place_of(number, event.calls.len(), left)
}

/// One of these reads, where there are so many.
fn read_in(reads: &[PlacedRead], number: u64) -> Option<Content>
    ensures { result ≡ option_map Asked (slice_get reads.now number) }
{
    let read = reads.get(number as usize)?;
    Some(Content::Asked(*read))
}

/// What the line after the first `skipped` lines of events and reads tells.
fn place_from(events: &[Event], reads: &[PlacedRead], skipped: u64) -> Option<Content>
    ensures { result ≡ place_from 0 events.now reads.now skipped }
{
    let mut left = skipped;
    let mut rest = reads;
    for number in 0..events.len() {
        let event = &events[number];
        let (here, past) = part_reads(number, rest);
        let asked = here.len() as u64;
        if left < asked {
            return read_in(here, left);
        }
        left -= asked;
        let count = event_line_count(event);
        if left < count {
            return Some(Content::Calls(place_in(number, event, left)));
        }
        left -= count;
        rest = past;
    }
    read_in(part_reads(events.len(), rest).0, left)
}

/// How many lines tell bytes.
#[tactic(auto, using(crate::proofs::PlaceLaws::row_lines))]
fn row_count(bytes: &[u8]) -> usize
    ensures { result ≡ length (map row_line (rows_of bytes.now)) }
{
    bytes.len().div_ceil(64)
}

/// How many lines tell the parts of an object.
fn part_count(body: &RawBody) -> usize
    ensures { result ≡ length (part_lines body.now) }
{
    match body {
        RawBody::Container(_, _, list) => list.as_slice().len(),
        RawBody::Segment(_, bytes) => row_count(bytes.as_slice()),
        RawBody::AddressSpace(_, slots) => slots.as_slice().len(),
        RawBody::Thread(_) => 0,
        RawBody::Gate(_, _) => 0,
        RawBody::Device(_, packets) => packets.as_slice().len(),
    }
}

/// How many lines tell objects.
fn object_count(objects: &[Recorded]) -> u128
    ensures count { result ≡ length (flat_map object_lines objects.now) }
    ensures bound { result ≤ 2 ^ 127 }
{
    let mut count = 0u128;
    for recorded in objects {
        count += 1 + part_count(&recorded.object.body) as u128;
    }
    count
}

/// How many lines stand before those of the events, where there is a checkpoint.
fn checkpoint_count(checkpoint: &Checkpoint) -> u128
    ensures { result ≡ lines_before (Some checkpoint.now) }
{
    let objects = object_count(checkpoint.objects.as_slice());
    3 + objects + checkpoint.next.len() as u128
}

/// How many lines stand before those of the events.
fn lines_before(checkpoint: &Option<Checkpoint>) -> u128
    ensures { result ≡ lines_before checkpoint.now }
{
    match checkpoint {
        None => 2,
        Some(checkpoint) => checkpoint_count(checkpoint),
    }
}

/// What a line of a dump tells, where it tells calls or a read. Lines count from 1.
pub fn place_at(
    checkpoint: &Option<Checkpoint>,
    events: &[Event],
    reads: &[PlacedRead],
    line: u64,
) -> Option<Content>
    ensures { result ≡ place_at checkpoint.now events.now reads.now line }
{
    let before = lines_before(checkpoint);
    if u128::from(line) <= before {
        return None;
    }
    place_from(events, reads, (u128::from(line) - before - 1) as u64)
}

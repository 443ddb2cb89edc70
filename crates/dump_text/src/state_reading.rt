//! Reading the lines of checkpoints.
ghost use Rattle.std.specs.Prelude.{◌≡◌, ◌++◌, codes, IfOk};
ghost use Rattle.text_words.specs.Reading.{Reads};
ghost use Rattle.dump_text.specs.Head.{head_text, IsHead, object_text, IsObject};
ghost use Rattle.dump_text.specs.StateLine.{part_text, IsPart, state_text, IsStateLine};

use crate::heads::{ContainerHead, DeviceHead, GateHead, Head, SegmentHead, SpaceHead, ThreadHead};
use crate::line_words::read_worded;
use crate::state_lines::{Counters, ObjectHead, Part, Row, StateLine};
use crate::stripping::after;
use base::{Data, ObjectId};
use call_text::parted;
use checkpoints::{FilledSlot, NextNumber};
use std::alloc::{AllocError, Global};
use text_words::read_number;
use text_words::spoken_calls::ArgKind;

/// An object's kind, and what it has beside its id and its parts.
fn read_head(alloc: Global, text: &[u8]) -> Result<Option<Head>, AllocError>
    ensures { IfOk result (λ found. Reads head_text IsHead text.now found) }
{
    if let Some(container) = read_worded::<ContainerHead>(
        alloc,
        text,
        b"container ",
        &[
            ArgKind::Number,
            ArgKind::Number,
            ArgKind::Number,
            ArgKind::Label,
            ArgKind::Types,
            ArgKind::Data,
        ],
    )? {
        return Ok(Some(Head::Container(container)));
    }
    if let Some(segment) = read_worded::<SegmentHead>(
        alloc,
        text,
        b"segment ",
        &[
            ArgKind::Number,
            ArgKind::Number,
            ArgKind::Number,
            ArgKind::Label,
            ArgKind::Wide,
            ArgKind::Data,
        ],
    )? {
        return Ok(Some(Head::Segment(segment)));
    }
    if let Some(space) = read_worded::<SpaceHead>(
        alloc,
        text,
        b"as ",
        &[
            ArgKind::Number,
            ArgKind::Number,
            ArgKind::Number,
            ArgKind::Label,
            ArgKind::Data,
        ],
    )? {
        return Ok(Some(Head::AddressSpace(space)));
    }
    if let Some(thread) = read_worded::<ThreadHead>(
        alloc,
        text,
        b"thread ",
        &[
            ArgKind::Number,
            ArgKind::Number,
            ArgKind::Label,
            ArgKind::Label,
            ArgKind::Label,
            ArgKind::Wide,
            ArgKind::Wide,
            ArgKind::Wide,
            ArgKind::Wide,
        ],
    )? {
        return Ok(Some(Head::Thread(thread)));
    }
    if let Some(gate) = read_worded::<GateHead>(
        alloc,
        text,
        b"gate ",
        &[
            ArgKind::Number,
            ArgKind::Number,
            ArgKind::Number,
            ArgKind::Label,
            ArgKind::Label,
            ArgKind::Wide,
            ArgKind::Wide,
            ArgKind::Wide,
            ArgKind::Wide,
            ArgKind::Data,
        ],
    )? {
        return Ok(Some(Head::Gate(gate)));
    }
    if let Some(device) = read_worded::<DeviceHead>(
        alloc,
        text,
        b"device ",
        &[
            ArgKind::Number,
            ArgKind::Number,
            ArgKind::Label,
            ArgKind::Data,
        ],
    )? {
        return Ok(Some(Head::Device(device)));
    }
    Ok(None)
}

/// An object before its parts: its id, and after a space the rest.
fn read_object(alloc: Global, text: &[u8]) -> Result<Option<ObjectHead>, AllocError>
    ensures { IfOk result (λ found. Reads object_text IsObject text.now found) }
{
    let Some((id, more)) = parted(text, b' ') else {
        return Ok(None);
    };
    let Some(id) = read_number(id, u64::MAX) else {
        return Ok(None);
    };
    let Some(head) = read_head(alloc, more)? else {
        return Ok(None);
    };
    Ok(Some(ObjectHead {
        id: ObjectId::new(id),
        head,
    }))
}

/// An object's line.
fn read_object_line(alloc: Global, text: &[u8]) -> Result<Option<ObjectHead>, AllocError>
    ensures { IfOk result (λ found. Reads (λ o. codes "object " ++ object_text o) IsObject
        text.now found) }
{
    let Some(rest) = after(text, b"object ") else {
        return Ok(None);
    };
    read_object(alloc, rest)
}

/// The line of a part of an object.
fn read_part(alloc: Global, text: &[u8]) -> Result<Option<Part>, AllocError>
    ensures { IfOk result (λ found. Reads part_text IsPart text.now found) }
{
    if let Some(row) = read_worded::<Row>(alloc, text, b"bytes ", &[ArgKind::Data])? {
        return Ok(Some(Part::Row(row)));
    }
    if let Some(id) = read_worded::<ObjectId>(alloc, text, b"entry ", &[ArgKind::Wide])? {
        return Ok(Some(Part::Entry(id)));
    }
    if let Some(slot) = read_worded::<FilledSlot>(
        alloc,
        text,
        b"slot ",
        &[
            ArgKind::Number,
            ArgKind::Number,
            ArgKind::Wide,
            ArgKind::Wide,
            ArgKind::Number,
            ArgKind::Number,
            ArgKind::Rights,
        ],
    )? {
        return Ok(Some(Part::Slot(slot)));
    }
    if let Some(packet) = read_worded::<Data>(alloc, text, b"packet ", &[ArgKind::Data])? {
        return Ok(Some(Part::Packet(packet)));
    }
    Ok(None)
}

/// The line of a checkpoint that the text spells.
pub fn read_state_line(alloc: Global, text: &[u8]) -> Result<Option<StateLine>, AllocError>
    ensures { IfOk result (λ found. Reads state_text IsStateLine text.now found) }
{
    if let Some(part) = read_part(alloc, text)? {
        return Ok(Some(StateLine::Part(part)));
    }
    if let Some(object) = read_object_line(alloc, text)? {
        return Ok(Some(StateLine::Object(object)));
    }
    if let Some(next) = read_worded::<NextNumber>(
        alloc,
        text,
        b"next ",
        &[ArgKind::Wide, ArgKind::Wide],
    )? {
        return Ok(Some(StateLine::Next(next)));
    }
    if let Some(counters) = read_worded::<Counters>(
        alloc,
        text,
        b"state ",
        &[ArgKind::Wide, ArgKind::Wide],
    )? {
        return Ok(Some(StateLine::Counters(counters)));
    }
    Ok(None)
}

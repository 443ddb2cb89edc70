//! Writing the words of the lines of checkpoints.
ghost use Rattle.std.specs.Prelude.{◌≡◌, ◌<◌, ◌^◌, ◌++◌, OnOk};
ghost use Rattle.dump_text.specs.Fits.{FitsState};
ghost use Rattle.dump_text.specs.Head.{flag_of, head_text, HasHeadWords, object_text};
ghost use Rattle.dump_text.specs.declared.heads.Head.TheVariants as whole;
ghost use Rattle.dump_text.specs.StateLine.{part_text, HasPartWords, state_text};

use crate::heads::{GateHead, Head, ThreadHead};
use crate::state_lines::{ObjectHead, Part, StateLine};
use crate::words::{Word, put_words};
use base::NoMemory;
use text_words::put_number;

/// 1 for yes.
pub fn flag_of(flag: bool) -> u32
    ensures { result ≡ flag_of flag }
{
    if flag { 1 } else { 0 }
}

/// Adds a thread's words.
fn put_thread(out: &mut Vec<u8>, thread: &ThreadHead) -> Result<(), NoMemory>
    ensures text { OnOk result (out.new.items ≡ out.old.items ++ head_text (whole.Thread thread.now)) }
    ensures fits { OnOk result (HasHeadWords (whole.Thread thread.now)) }
{
    let more = [
        Word::Number(flag_of(thread.common.fixed)),
        Word::Label(thread.common.label),
        Word::Label(thread.thread.clearance),
        Word::Label(thread.thread.verify),
        Word::Wide(thread.thread.space.container.number()),
        Word::Wide(thread.thread.space.object.number()),
        Word::Wide(thread.thread.entry_point),
        Word::Wide(thread.thread.closure),
    ];
    put_words(out, b"thread ", &Word::Number(thread.common.quota), &more)?;
    Ok(())
}

/// Adds a gate's words.
fn put_gate(out: &mut Vec<u8>, gate: &GateHead) -> Result<(), NoMemory>
    ensures text { OnOk result (out.new.items ≡ out.old.items ++ head_text (whole.Gate gate.now)) }
    ensures fits { OnOk result (HasHeadWords (whole.Gate gate.now)) }
{
    let more = [
        Word::Number(flag_of(gate.common.fixed)),
        Word::Number(flag_of(gate.attributes.immutable)),
        Word::Label(gate.common.label),
        Word::Label(gate.gate.clearance),
        Word::Wide(gate.gate.space.container.number()),
        Word::Wide(gate.gate.space.object.number()),
        Word::Wide(gate.gate.entry_point),
        Word::Wide(gate.gate.closure),
        Word::Data(gate.attributes.metadata),
    ];
    put_words(out, b"gate ", &Word::Number(gate.common.quota), &more)?;
    Ok(())
}

/// Adds the kind of an object, and what it has beside its id and its parts.
fn put_head(out: &mut Vec<u8>, head: &Head) -> Result<(), NoMemory>
    ensures text { OnOk result (out.new.items ≡ out.old.items ++ head_text head.now) }
    ensures fits { OnOk result (HasHeadWords head.now) }
{
    match head {
        Head::Container(container) => {
            let more = [
                Word::Number(flag_of(container.common.fixed)),
                Word::Number(flag_of(container.attributes.immutable)),
                Word::Label(container.common.label),
                Word::Types(container.avoid),
                Word::Data(container.attributes.metadata),
            ];
            put_words(
                out,
                b"container ",
                &Word::Number(container.common.quota),
                &more,
            )?;
        }
        Head::Segment(segment) => {
            let more = [
                Word::Number(flag_of(segment.common.fixed)),
                Word::Number(flag_of(segment.attributes.immutable)),
                Word::Label(segment.common.label),
                Word::Wide(segment.pages as u64),
                Word::Data(segment.attributes.metadata),
            ];
            put_words(out, b"segment ", &Word::Number(segment.common.quota), &more)?;
        }
        Head::AddressSpace(space) => {
            let more = [
                Word::Number(flag_of(space.common.fixed)),
                Word::Number(flag_of(space.attributes.immutable)),
                Word::Label(space.common.label),
                Word::Data(space.attributes.metadata),
            ];
            put_words(out, b"as ", &Word::Number(space.common.quota), &more)?;
        }
        Head::Thread(thread) => put_thread(out, thread)?,
        Head::Gate(gate) => put_gate(out, gate)?,
        Head::Device(device) => {
            let more = [
                Word::Number(flag_of(device.common.fixed)),
                Word::Label(device.common.label),
                Word::Data(device.metadata),
            ];
            put_words(out, b"device ", &Word::Number(device.common.quota), &more)?;
        }
    }
    Ok(())
}

/// Adds an object's id, and its head.
fn put_object(out: &mut Vec<u8>, object: &ObjectHead) -> Result<(), NoMemory>
    ensures text { OnOk result (out.new.items ≡ out.old.items ++ object_text object.now) }
    ensures id { OnOk result (object.now.id < 2 ^ 64) }
    ensures head { OnOk result (HasHeadWords object.now.head) }
{
    put_number(out, object.id.number())?;
    out.push(b' ')?;
    put_head(out, &object.head)?;
    Ok(())
}

/// Adds the words of the line of a part.
fn put_part(out: &mut Vec<u8>, part: &Part) -> Result<(), NoMemory>
    ensures text { OnOk result (out.new.items ≡ out.old.items ++ part_text part.now) }
    ensures fits { OnOk result (HasPartWords part.now) }
{
    match part {
        Part::Entry(id) => put_words(out, b"entry ", &Word::Wide(id.number()), &[])?,
        Part::Row(row) => put_words(out, b"bytes ", &Word::Data(row.bytes), &[])?,
        Part::Slot(filled) => {
            let mapping = &filled.mapping;
            let more = [
                Word::Number(mapping.page),
                Word::Wide(mapping.entry.container.number()),
                Word::Wide(mapping.entry.object.number()),
                Word::Number(mapping.first),
                Word::Number(mapping.count),
                Word::Rights(mapping.rights),
            ];
            put_words(out, b"slot ", &Word::Number(filled.slot), &more)?;
        }
        Part::Packet(bytes) => put_words(out, b"packet ", &Word::Data(*bytes), &[])?,
    }
    Ok(())
}

/// Adds the words of a line of a checkpoint.
pub fn put_state_words(out: &mut Vec<u8>, line: &StateLine) -> Result<(), NoMemory>
    ensures text { OnOk result (out.new.items ≡ out.old.items ++ state_text line.now) }
    ensures fits { OnOk result (FitsState line.now) }
{
    match line {
        StateLine::Counters(counters) => {
            let more = [Word::Wide(counters.next_category)];
            put_words(out, b"state ", &Word::Wide(counters.next_id), &more)?;
        }
        StateLine::Object(object) => {
            out.extend_from_slice(b"object ")?;
            put_object(out, object)?;
        }
        StateLine::Part(part) => put_part(out, part)?,
        StateLine::Next(next) => {
            let more = [Word::Wide(next.number)];
            put_words(out, b"next ", &Word::Wide(next.thread.number()), &more)?;
        }
    }
    Ok(())
}

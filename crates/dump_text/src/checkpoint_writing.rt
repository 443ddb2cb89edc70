//! Writing checkpoints.
ghost use Rattle.std.specs.Prelude.{◌≡◌, ◌++◌, map, OnOk};
ghost use Rattle.std.specs.List.{AllByRecursion, flat_map};
ghost use Rattle.call_text.specs.Text.{lines_text};
ghost use Rattle.dump_text.specs.CheckpointLines.{rows, entry_line, row_line, next_line};
ghost use Rattle.dump_text.specs.CheckpointLines.{part_lines};
ghost use Rattle.dump_text.specs.CheckpointLines.{object_lines, checkpoint_lines, start_lines};
ghost use Rattle.dump_text.specs.Fits.{FitsLine};
ghost use Rattle.dump_text.specs.Line.{line_text};

use crate::checkpoint_lines::head_of;
use crate::line_writing::{put_each, put_line};
use crate::lines::Line;
use crate::state_lines::{Counters, Part, Row, StateLine};
use base::{Data, NoMemory, ObjectId};
use checkpoints::{Checkpoint, NextNumber, RawBody, Recorded};

/// Adds a line for each id that a container lists.
fn put_entries(out: &mut Vec<u8>, ids: &[ObjectId]) -> Result<(), NoMemory>
    ensures text { OnOk result (out.new.items
        ≡ out.old.items ++ lines_text line_text (map entry_line ids.now)) }
    ensures fits { OnOk result (AllByRecursion FitsLine (map entry_line ids.now)) }
{
    for id in ids {
        put_line(out, &Line::State(StateLine::Part(Part::Entry(*id))))?;
    }
    Ok(())
}

/// Adds a line for each of so many rows of the bytes.
fn put_rows(out: &mut Vec<u8>, count: usize, bytes: &[u8]) -> Result<(), NoMemory>
    ensures text { OnOk result (out.new.items
        ≡ out.old.items ++ lines_text line_text (map row_line (rows count bytes.now))) }
    ensures fits { OnOk result (AllByRecursion FitsLine (map row_line (rows count bytes.now))) }
{
    if count == 0 {
        return Ok(());
    }
    let cut = 64usize.min(bytes.len());
    let row = Row {
        bytes: Data::from_slice(&bytes[..cut]),
    };
    put_line(out, &Line::State(StateLine::Part(Part::Row(row))))?;
    put_rows(out, count - 1, &bytes[cut..])?;
    Ok(())
}

/// Adds the lines of the parts of an object.
fn put_parts(out: &mut Vec<u8>, body: &RawBody) -> Result<(), NoMemory>
    ensures text { OnOk result (out.new.items
        ≡ out.old.items ++ lines_text line_text (part_lines body.now)) }
    ensures fits { OnOk result (AllByRecursion FitsLine (part_lines body.now)) }
{
    match body {
        RawBody::Container(_, _, list) => put_entries(out, list.as_slice())?,
        RawBody::Segment(_, bytes) => {
            let bytes = bytes.as_slice();
            put_rows(out, bytes.len().div_ceil(64), bytes)?;
        }
        RawBody::AddressSpace(_, slots) => put_each(out, slots.as_slice())?,
        RawBody::Thread(_) => {}
        RawBody::Gate(_, _) => {}
        RawBody::Device(_, packets) => put_each(out, packets.as_slice())?,
    }
    Ok(())
}

/// Adds the lines of the object.
fn put_object(out: &mut Vec<u8>, recorded: &Recorded) -> Result<(), NoMemory>
    ensures text { OnOk result (out.new.items
        ≡ out.old.items ++ lines_text line_text (object_lines recorded.now)) }
    ensures fits { OnOk result (AllByRecursion FitsLine (object_lines recorded.now)) }
{
    put_line(out, &Line::State(StateLine::Object(head_of(recorded))))?;
    put_parts(out, &recorded.object.body)
}

/// Adds the lines of the objects.
fn put_objects(out: &mut Vec<u8>, objects: &[Recorded]) -> Result<(), NoMemory>
    ensures text { OnOk result (out.new.items
        ≡ out.old.items ++ lines_text line_text (flat_map object_lines objects.now)) }
    ensures fits { OnOk result (AllByRecursion FitsLine (flat_map object_lines objects.now)) }
{
    for recorded in objects {
        put_object(out, recorded)?;
    }
    Ok(())
}

/// Adds the lines of the objects and of the next numbers.
fn put_lists(out: &mut Vec<u8>, objects: &[Recorded], next: &[NextNumber]) -> Result<(), NoMemory>
    ensures text { OnOk result (out.new.items ≡ out.old.items
        ++ lines_text line_text (flat_map object_lines objects.now ++ map next_line next.now)) }
    ensures fits { OnOk result (AllByRecursion FitsLine
        (flat_map object_lines objects.now ++ map next_line next.now)) }
{
    put_objects(out, objects)?;
    put_each(out, next)?;
    Ok(())
}

/// Adds the lines of the checkpoint.
pub(crate) fn put_checkpoint(out: &mut Vec<u8>, checkpoint: &Checkpoint) -> Result<(), NoMemory>
    ensures text { OnOk result (out.new.items
        ≡ out.old.items ++ lines_text line_text (checkpoint_lines checkpoint.now)) }
    ensures fits { OnOk result (AllByRecursion FitsLine (checkpoint_lines checkpoint.now)) }
{
    let counters = Counters {
        next_id: checkpoint.next_id,
        next_category: checkpoint.next_category,
    };
    put_line(out, &Line::State(StateLine::Counters(counters)))?;
    put_lists(
        out,
        checkpoint.objects.as_slice(),
        checkpoint.next.as_slice(),
    )?;
    Ok(())
}

/// Adds the lines of the checkpoint, where there is one.
pub fn put_start(out: &mut Vec<u8>, checkpoint: &Option<Checkpoint>) -> Result<(), NoMemory>
    ensures text { OnOk result (out.new.items
        ≡ out.old.items ++ lines_text line_text (start_lines checkpoint.now)) }
    ensures fits { OnOk result (AllByRecursion FitsLine (start_lines checkpoint.now)) }
{
    match checkpoint {
        None => Ok(()),
        Some(checkpoint) => put_checkpoint(out, checkpoint),
    }
}

//! Writing dumps.
ghost use Rattle.std.specs.Prelude.{◌≡◌, ◌++◌, IfOk, OnOk};
ghost use Rattle.std.specs.List.{AllByRecursion};
ghost use Rattle.call_text.specs.Text.{lines_text};
ghost use Rattle.dump_text.specs.Line.{line_text};
ghost use Rattle.dump_text.specs.Dump.{event_lines, history_lines, table_lines, dump_text, format_of};
ghost use Rattle.dump_text.specs.Lists.{dump_with};
ghost use Rattle.dump_text.specs.Fits.{FitsLine, FitTables, FitsWords};

use crate::checkpoint_writing::put_start;
use crate::events::Single;
use crate::line_words::Batch;
use crate::line_writing::{put_each, put_line};
use crate::lines::{Format, Line};
use crate::parting::part_reads;
use crate::tables::{Dump, DumpTables, PlacedRead};
use base::{Limits, NoMemory};
use checkpoints::Checkpoint;
use kernel_rules::histories::Event;
use std::alloc::Global;

/// Adds the lines of the event.
pub fn put_event(out: &mut Vec<u8>, event: &Event) -> Result<(), NoMemory>
    ensures text { OnOk result (out.new.items
        ≡ out.old.items ++ lines_text line_text (event_lines event.now)) }
    ensures fits { OnOk result (AllByRecursion FitsLine (event_lines event.now)) }
{
    if let [answered] = event.calls.as_slice() {
        let single = Single {
            thread: event.thread,
            number: event.number,
            answered: *answered,
        };
        return put_line(out, &Line::Event(single));
    }
    let batch = Batch {
        thread: event.thread,
        number: event.number,
        count: event.calls.len(),
    };
    put_line(out, &Line::Batch(batch))?;
    put_each(out, event.calls.as_slice())
}

/// Adds the lines of the events and of the reads among them.
pub(crate) fn put_history(
    out: &mut Vec<u8>,
    events: &[Event],
    reads: &[PlacedRead],
) -> Result<(), NoMemory>
    ensures text { OnOk result (out.new.items
        ≡ out.old.items ++ lines_text line_text (history_lines events.now reads.now)) }
    ensures fits { OnOk result (AllByRecursion FitsLine (history_lines events.now reads.now)) }
{
    let mut rest = reads;
    for place in 0..events.len() {
        let (here, past) = part_reads(place, rest);
        put_each(out, here)?;
        put_event(out, &events[place])?;
        rest = past;
    }
    let (here, _) = part_reads(events.len(), rest);
    put_each(out, here)?;
    Ok(())
}

/// The format of a dump with this checkpoint.
fn format_of(checkpoint: &Option<Checkpoint>) -> Format
    ensures { result ≡ format_of checkpoint.now }
{
    match checkpoint {
        None => Format::One,
        Some(_) => Format::Two,
    }
}

/// Adds the lines of the tables.
pub(crate) fn put_tables(out: &mut Vec<u8>, tables: &DumpTables) -> Result<(), NoMemory>
    ensures text { OnOk result (out.new.items
        ≡ out.old.items ++ lines_text line_text (table_lines tables.now)) }
    ensures fits { OnOk result (FitTables tables.now) }
{
    put_each(out, tables.live.as_slice())?;
    put_each(out, tables.uses.as_slice())?;
    put_each(out, tables.maps.as_slice())?;
    put_each(out, tables.labels.as_slice())?;
    put_each(out, tables.orders.as_slice())?;
    Ok(())
}

/// Adds the lines of a dump of these parts.
fn put_dump(
    out: &mut Vec<u8>,
    limits: &Limits,
    checkpoint: &Option<Checkpoint>,
    events: &[Event],
    reads: &[PlacedRead],
    tables: &DumpTables,
) -> Result<(), NoMemory>
    ensures text { OnOk result (out.new.items ≡ out.old.items
        ++ dump_text (dump_with limits.now checkpoint.now events.now reads.now tables.now)) }
    ensures fits { OnOk result
        (FitsWords (dump_with limits.now checkpoint.now events.now reads.now tables.now)) }
{
    put_line(out, &Line::Version(format_of(checkpoint)))?;
    put_line(out, &Line::Limits(*limits))?;
    put_start(out, checkpoint)?;
    put_history(out, events, reads)?;
    put_tables(out, tables)?;
    put_line(out, &Line::End)?;
    Ok(())
}

/// The bytes of the dump. Each value in it fits its word, by its type.
pub fn write_dump(alloc: Global, dump: &Dump) -> Result<Vec<u8>, NoMemory>
    ensures text { IfOk result (λ out. out.items ≡ dump_text dump.now) }
    ensures fits { OnOk result (FitsWords dump.now) }
{
    let mut out = Vec::new(alloc);
    put_dump(
        &mut out,
        &dump.limits,
        &dump.checkpoint,
        dump.events.as_slice(),
        dump.reads.as_slice(),
        &dump.tables,
    )?;
    Ok(out)
}

//! The text of a dump in pieces, so that it need not stand whole in memory.
ghost use Rattle.std.specs.Prelude.{◌≡◌, ◌<◌, ◌++◌, ◌∷◌, ℕ, [], List, Option, Some, IfOk, OnOk};
ghost use Rattle.std.specs.List.{AllByRecursion, flat_map};
ghost use Rattle.base.specs.declared.ranges.Limits.{Limits as Booted};
ghost use Rattle.call_text.specs.Text.{lines_text};
ghost use Rattle.checkpoints.specs.Checkpoint.{Checkpoint as Written};
ghost use Rattle.kernel_rules.specs.Events.{Event as Done};
ghost use Rattle.dump_text.specs.CheckpointLines.{start_lines};
ghost use Rattle.dump_text.specs.Dump.{dump_text, event_lines};
ghost use Rattle.dump_text.specs.Fits.{FitsLine, FitTables};
ghost use Rattle.dump_text.specs.Line.{line_text};
ghost use Rattle.dump_text.specs.Pieces.{AreLegal, ArePieces, head_lines, joined, piece_at, tail_lines};
ghost use Rattle.dump_text.specs.Whole.{placed, whole_dump, IsLegalDump};
ghost use Rattle.dump_text.specs.declared.lines.Line.TheVariants as lines;
ghost use Rattle.dump_text.specs.declared.pieces.Piece.TheVariants as pieces;

use crate::checkpoint_writing::put_checkpoint;
use crate::line_writing::put_line;
use crate::lines::{Format, Line};
use crate::reads::Read;
use crate::whole::placed_tables;
use crate::writing::{put_history, put_tables};
use base::{Limits, NoMemory};
use checkpoints::Checkpoint;
use kernel_rules::Tables;
use kernel_rules::histories::Event;
use std::alloc::Global;

/// What a piece of a dump tells.
#[derive(Clone, Copy)]
pub enum Piece {
    /// The version, the limits and the checkpoint.
    Head,
    /// Up to 64 events, or events and reads.
    Events {
        /// How many stand before them.
        from: usize,
    },
    /// The tables, and the end.
    Tables,
    /// Nothing: it is past the last.
    Nothing,
}

/// What the piece with this number tells, where there are so many events.
pub fn piece_at(count: usize, number: u64) -> Piece
    ensures piece { result ≡ piece_at count number }
    ensures within { (from : ℕ) → result ≡ pieces.Events from → from < count }
{
    if number == 0 {
        return Piece::Head;
    }
    let place = number - 1;
    let of_events = count.div_ceil(64) as u64;
    if place < of_events {
        return Piece::Events {
            from: 64 * place as usize,
        };
    }
    if place == of_events {
        return Piece::Tables;
    }
    Piece::Nothing
}

/// The text of the lines before the events of a dump, which begin at the checkpoint.
pub fn head_text(
    alloc: Global,
    limits: &Limits,
    checkpoint: &Checkpoint,
) -> Result<Vec<u8>, NoMemory>
    ensures text { IfOk result (λ text. text.items
        ≡ lines_text line_text (head_lines limits.now (Some checkpoint.now))) }
    ensures fits { OnOk result (AllByRecursion FitsLine (start_lines (Some checkpoint.now))) }
{
    let mut out = Vec::new(alloc);
    put_line(&mut out, &Line::Version(Format::Two))?;
    put_line(&mut out, &Line::Limits(*limits))?;
    put_checkpoint(&mut out, checkpoint)?;
    Ok(out)
}

/// The text of the lines of events.
pub fn events_text(alloc: Global, events: &[Event]) -> Result<Vec<u8>, NoMemory>
    ensures text { IfOk result (λ text. text.items
        ≡ lines_text line_text (flat_map event_lines events.now)) }
    ensures fits { OnOk result (AllByRecursion FitsLine (flat_map event_lines events.now)) }
{
    let mut out = Vec::new(alloc);
    put_history(&mut out, events, &[])?;
    Ok(out)
}

/// Adds the line of a read.
pub fn put_read_line(out: &mut Vec<u8>, read: &Read) -> Result<(), NoMemory>
    ensures text { OnOk result (out.new.items
        ≡ out.old.items ++ lines_text line_text (lines.Read read.now ∷ [])) }
    ensures fits { OnOk result (FitsLine (lines.Read read.now)) }
{
    put_line(out, &Line::Read(*read))
}

/// The text of the lines after the events: the tables of a kernel, each label with its place, and the end.
pub fn tables_text(alloc: Global, tables: Tables) -> Result<Vec<u8>, NoMemory>
    ensures text { IfOk result (λ text. text.items
        ≡ lines_text line_text (tail_lines (placed tables))) }
    ensures fits { OnOk result (FitTables (placed tables)) }
{
    let tables = placed_tables(alloc, tables)?;
    let mut out = Vec::new(alloc);
    put_tables(&mut out, &tables)?;
    put_line(&mut out, &Line::End)?;
    Ok(out)
}

/// A law, which does nothing when it is called: the pieces up to the first that is empty, one after another, are the text of
/// the dump. Where the events are legal, it is a legal dump's.
pub fn pieces_are_the_dump()
    ensures text { (limits : Booted) (checkpoint : Option Written) (events : List Done) (texts : ℕ → List ℕ) (count : ℕ)
        → ArePieces limits checkpoint events texts count
        → joined texts count ≡ dump_text (whole_dump limits checkpoint events []) }
    ensures legal { (limits : Booted) (checkpoint : Option Written) (events : List Done) (texts : ℕ → List ℕ) (count : ℕ)
        → AreLegal limits checkpoint events → ArePieces limits checkpoint events texts count
        → IsLegalDump limits checkpoint (joined texts count) }
{}

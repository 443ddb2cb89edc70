//! The dump of batches of the list, piece by piece.
ghost use Rattle.std.specs.Prelude.{◌≡◌, ◌+◌, ◌-◌, ◌<◌, ◌≤◌, ◌++◌, ◌∷◌, [], min, option_map, IfOk, OnOk};
ghost use Rattle.call_text.specs.Text.{lines_text};
ghost use Rattle.dump_text.specs.Line.{line_text};
ghost use Rattle.dump_text.specs.Pieces.{FitsPiece, lines_in};
ghost use Rattle.dump_text.specs.declared.pieces.Piece.TheVariants as pieces;
ghost use Rattle.shared_calls.specs.Dumps.{AreLegalIn, IsAt, IsSameDump, IsTelling, IsTold, events_told, lists_in};

use crate::beginnings::compare;
use crate::chairs::Chair;
use crate::cursors::Cursor;
use crate::journals::{Journal, next_event};
use base::NoMemory;
use checkpoints::Checkpoint;
use dump_text::{Piece, events_text, head_text, piece_at, tables_text};
use kernel_rules::histories::Event;
use std::alloc::Global;

/// A dump of batches of the list, of which some pieces were told. It keeps the list from giving back what is not told yet.
#[derive(Drop)]
pub(crate) struct Telling {
    pub(crate) chair: Chair,
    /// The checkpoint at which it begins.
    pub(crate) origin: Checkpoint,
    /// How many batches stand before that.
    pub(crate) before: usize,
    /// The journal of what was told.
    pub(crate) journal: Journal,
    /// How far it was told.
    pub(crate) cursor: Cursor,
    /// How far it is to be told.
    pub(crate) end: Cursor,
}

/// The event of the next batch of the list. The error is want of memory.
fn tell_next(alloc: Global, telling: &mut Telling) -> Result<Event, NoMemory>
    requires { IsTelling telling.old }
    ensures telling { OnOk result (IsTelling telling.new) }
    ensures same { OnOk result (IsSameDump telling.old telling.new) }
    ensures event { IfOk result (λ event. events_told telling.new ≡ events_told telling.old ++ event ∷ []) }
    ensures count { OnOk result (telling.new.cursor.count ≡ telling.old.cursor.count + 1) }
{
    if !telling.chair.reach(&mut telling.cursor) {
        return Err(NoMemory);
    }
    let cursor = &telling.cursor;
    let Some(next) = cursor.block.next(cursor.at, &cursor.seen) else {
        return Err(NoMemory);
    };
    let event = next_event(alloc, &mut telling.journal, next)?;
    let seen = next.seen.again();
    telling.cursor.step(seen);
    Ok(event)
}

/// The events of the next batches of the list, so many of them. The error is want of memory.
fn tell_more(alloc: Global, telling: &mut Telling, count: usize) -> Result<Vec<Event>, NoMemory>
    requires { IsTelling telling.old }
    ensures telling { OnOk result (IsTelling telling.new) }
    ensures same { OnOk result (IsSameDump telling.old telling.new) }
    ensures events { IfOk result (λ events. events_told telling.new ≡ events_told telling.old ++ events.items) }
    ensures count { OnOk result (telling.new.cursor.count ≡ telling.old.cursor.count + count) }
{
    let mut events = Vec::new(alloc);
    for told in 0..count {
        let _ = told;
        let event = tell_next(alloc, telling)?;
        events.push(event)?;
    }
    Ok(events)
}

/// The text of up to 64 events, before which so many were told. The error is want of memory.
fn tell_events(alloc: Global, telling: &mut Telling, from: usize) -> Result<Vec<u8>, NoMemory>
    requires telling { IsTelling telling.old }
    requires at { telling.old.cursor.count ≡ telling.old.before + from }
    requires within { telling.old.cursor.count ≤ telling.old.end.count }
    ensures telling { OnOk result (IsTelling telling.new) }
    ensures same { OnOk result (IsSameDump telling.old telling.new) }
    ensures count { OnOk result (telling.new.cursor.count
        ≡ telling.old.cursor.count + min (telling.old.end.count - telling.old.cursor.count) 64) }
    ensures text { IfOk result (λ text. text.items
        ≡ lines_text line_text (lines_in (lists_in telling.old) (pieces.Events from))) }
    ensures fits { OnOk result (FitsPiece (lists_in telling.old) (pieces.Events from)) }
{
    let _ = from;
    let few = (telling.end.count - telling.cursor.count).min(64);
    let events = tell_more(alloc, telling, few)?;
    compare(&telling.cursor, &telling.end);
    let text = events_text(alloc, events.as_slice())?;
    Ok(text)
}

/// The text of what stands before the events. The error is want of memory.
fn tell_head(alloc: Global, telling: &Telling) -> Result<Vec<u8>, NoMemory>
    ensures text { IfOk result (λ text. text.items
        ≡ lines_text line_text (lines_in (lists_in telling.now) pieces.Head)) }
    ensures fits { OnOk result (FitsPiece (lists_in telling.now) pieces.Head) }
{
    let text = head_text(alloc, &telling.chair.list.limits, &telling.origin)?;
    Ok(text)
}

/// The text of what stands after the events, which were all told. The error is want of memory.
fn tell_tables(alloc: Global, telling: &mut Telling) -> Result<Vec<u8>, NoMemory>
    requires telling { IsTelling telling.old }
    requires all { telling.old.cursor.count ≡ telling.old.end.count }
    ensures telling { OnOk result (IsTelling telling.new) }
    ensures same { OnOk result (IsSameDump telling.old telling.new) }
    ensures count { OnOk result (telling.new.cursor.count ≡ telling.old.cursor.count) }
    ensures text { IfOk result (λ text. text.items
        ≡ lines_text line_text (lines_in (lists_in telling.old) pieces.Tables)) }
    ensures fits { OnOk result (FitsPiece (lists_in telling.old) pieces.Tables) }
{
    compare(&telling.cursor, &telling.end);
    let tables = telling.journal.kernel.tables(&mut telling.journal.meter)?;
    let text = tables_text(alloc, tables)?;
    Ok(text)
}

/// Tells that the events of a dump that was told to its end are legal.
fn are_legal(telling: &Telling)
    requires telling { IsTelling telling.now }
    requires all { telling.now.cursor.count ≡ telling.now.end.count }
    ensures { AreLegalIn telling.now }
{
    compare(&telling.cursor, &telling.end);
}

/// The text of the piece with this number, after which the next one may be told; none past the last. The error is want of memory.
pub(crate) fn tell_piece(
    alloc: Global,
    telling: &mut Telling,
    number: u64,
) -> Result<Option<Vec<u8>>, NoMemory>
    requires telling { IsTelling telling.old }
    requires at { IsAt telling.old number }
    ensures same { OnOk result (IsSameDump telling.old telling.new) }
    ensures piece { IfOk result (λ text.
        IsTold telling.old telling.new number (option_map (λ t. t.items) text)) }
{
    match piece_at(telling.end.count - telling.before, number) {
        Piece::Head => Ok(Some(tell_head(alloc, telling)?)),
        Piece::Events { from } => Ok(Some(tell_events(alloc, telling, from)?)),
        Piece::Tables => Ok(Some(tell_tables(alloc, telling)?)),
        Piece::Nothing => {
            are_legal(telling);
            Ok(None)
        }
    }
}

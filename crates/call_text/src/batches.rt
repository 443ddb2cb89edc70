//! Batches of a phase that are open: whose worker has lines to come in them.
ghost use Rattle.std.specs.Prelude.{◌≡◌, ◌+◌, ◌<◌, ◌≤◌, List, not, filter, length, IfOk, OnOk};
ghost use Rattle.std.specs.Str.{bytes_eq};
ghost use Rattle.text_words.specs.declared.spoken_calls.args.Arg.{Arg as ArgValue};
ghost use Rattle.call_text.specs.Batch.{lines_open, others, with_line, LeavesOpen};
ghost use Rattle.call_text.specs.Line.{written_with};
ghost use Rattle.call_text.specs.Reading.{Joins, GoesPast, TellsFault};

use crate::errors::ScriptError;
use crate::lines::{Outline, read_line};
use std::alloc::{AllocError, Global};
use text_words::spoken_calls::Verb;
use text_words::{Name, is_same, parted};

/// A batch whose last line so far says that it goes on.
#[derive(Clone, Copy)]
pub struct Open {
    /// The worker whose lines it has.
    pub worker: Name,
    /// How many lines it has so far, 1 to 16.
    pub lines: u32,
    /// The number of the last of them.
    pub last: u32,
}

/// Whether the batch is the worker's.
fn is_of(open: &Open, worker: &Name) -> bool
    ensures { result ≡ bytes_eq open.now.worker worker.now }
{
    is_same(open.worker.as_slice(), worker.as_slice())
}

/// How many lines the worker's open batch has, 0 where it has none.
fn lines_open(batches: &[Open], worker: &Name) -> u32
    ensures { result ≡ lines_open worker.now batches.now }
{
    let mut left = batches;
    while let [open, more @ ..] = left {
        if is_of(open, worker) {
            return open.lines;
        }
        left = more;
    }
    0
}

/// Keeps the open batches of other workers. (Inlined: before most lines none is open, and then there is nothing to do.)
#[inline(always)]
fn keep_others(batches: &mut Vec<Open>, worker: &Name)
    ensures { batches.new.items ≡ others worker.now batches.old.items }
{
    if batches.is_empty() {
        return;
    }
    batches.retain(|open| !is_of(open, worker));
}

/// How many lines a batch of so many has with one more of this verb, where that may join it.
fn with_line(lines: u32, verb: Verb) -> Option<u32>
    ensures { result ≡ with_line lines verb }
{
    if lines == 0 {
        return Some(1);
    }
    if lines <= 15 && verb.writes() {
        return Some(lines + 1);
    }
    None
}

/// Whether the line with this number may come after the open batches, which are then those after it. Where it may not,
/// they stay.
pub fn join(batches: &mut Vec<Open>, number: u32, outline: &Outline) -> Result<bool, AllocError>
    ensures { IfOk result (λ yes. (xs : List ArgValue)
        → Joins number (written_with outline.now xs) batches.old.items batches.new.items yes) }
{
    let Outline::Said {
        worker,
        more,
        verb,
        ..
    } = outline
    else {
        return Ok(batches.is_empty());
    };
    let Some(lines) = with_line(lines_open(batches.as_slice(), worker), *verb) else {
        return Ok(false);
    };
    keep_others(batches, worker);
    if *more {
        batches.push(Open {
            worker: *worker,
            lines,
            last: number,
        })?;
    }
    Ok(true)
}

/// Keeps the open batches with which the line does not go on, and tells whether it ends the phase.
fn go_past(batches: &mut Vec<Open>, outline: &Outline) -> bool
    ensures { GoesPast outline.now batches.old.items batches.new.items result }
{
    match outline {
        Outline::Break => true,
        Outline::Said { worker, .. } => {
            keep_others(batches, worker);
            false
        }
    }
}

/// Keeps the open batches with which no line of the rest of the phase goes on.
fn keep_left(alloc: Global, rest: &[u8], batches: &mut Vec<Open>) -> Result<(), AllocError>
    ensures { OnOk result (LeavesOpen rest.now batches.old.items batches.new.items) }
{
    // For the proof alone: this names a type that is held in what is read.
    let _named: Option<Name> = None;
    let mut args = Vec::new(alloc);
    let mut left = rest;
    while !batches.is_empty() {
        let Some((line, more)) = parted(left, b'\n') else {
            return Ok(());
        };
        if let Some(outline) = read_line(alloc, line, &mut args)? {
            if go_past(batches, &outline) {
                return Ok(());
            }
        }
        args.clear();
        left = more;
    }
    Ok(())
}

/// The first faulty line, where line `stop` can't come: the last line of an open batch with which nothing goes on, or
/// that line.
pub fn fault_at(alloc: Global, rest: &[u8], batches: &mut Vec<Open>, stop: u32) -> ScriptError
    ensures { TellsFault rest.now batches.old.items stop result }
{
    if keep_left(alloc, rest, batches).is_err() {
        return ScriptError::Memory;
    }
    match batches.first() {
        Some(open) => ScriptError::Line(open.last),
        None => ScriptError::Line(stop),
    }
}

//! Reading scripts.
ghost use Rattle.std.specs.Prelude.{◌≡◌, ◌/◌, ◌++◌, ◌∷◌, [], map, min, ℕ, List, IfOk, OnOk};
ghost use Rattle.std.specs.List.{AllByRecursion};
ghost use Rattle.text_words.specs.declared.spoken_calls.args.Arg.{Arg as ArgValue};
ghost use Rattle.call_text.specs.declared.phases.Line.{Line as LineValue};
ghost use Rattle.call_text.specs.Script.{IsScript, ScriptFaultsAt, known_names, binds_of};
ghost use Rattle.call_text.specs.Line.{written_with};
ghost use Rattle.call_text.specs.Names.{Binds, Admits};
ghost use Rattle.call_text.specs.Phase.{line_in, IsKept};
ghost use Rattle.call_text.specs.Reading.{ReadsScript, AddsLine, kept_as};

use crate::batches::{Open, fault_at, join};
use crate::errors::ScriptError;
use crate::lines::{Outline, read_line};
use crate::phases::{KeptLine, Phase, Script};
use indexmap::IndexSet;
use std::alloc::{AllocError, Global};
use std::mem;
use text_words::spoken_calls::Arg;
use text_words::{Name, parted};

/// The most lines of a script.
const MOST: u32 = 65_536;

/// The names that each script knows at its start.
fn names_at_start(alloc: Global) -> Result<IndexSet<Name>, AllocError>
    ensures { IfOk result (λ names. names.keys ≡ known_names) }
{
    let mut names = IndexSet::new(alloc);
    names.insert(Name::from_slice(b"root"))?;
    names.insert(Name::from_slice(b"boot"))?;
    names.insert(Name::from_slice(b"dev"))?;
    Ok(names)
}

/// The name that the line binds.
fn binds(outline: &Outline) -> Option<Name>
    ensures { (xs : List ArgValue) → result ≡ binds_of (written_with outline.now xs) }
{
    match outline {
        Outline::Break => None,
        Outline::Said { binds, .. } => *binds,
    }
}

/// Binds the line's name, where it has one, and tells whether no earlier line binds it.
fn bind(bound: &mut IndexSet<Name>, outline: &Outline) -> Result<bool, AllocError>
    ensures { IfOk result (λ yes. (xs : List ArgValue)
        → Binds (binds_of (written_with outline.now xs)) bound.old.keys bound.new.keys yes) }
{
    let Some(name) = binds(outline) else {
        return Ok(true);
    };
    let fresh = bound.insert(name)?;
    Ok(fresh)
}

/// Whether the line may stand after so many lines, whose names are bound and whose batches are open. Binds the line's, and
/// keeps the batches that are open after it; where it may not stand there, those before it.
fn admit(
    lines: u32,
    bound: &mut IndexSet<Name>,
    batches: &mut Vec<Open>,
    outline: &Outline,
) -> Result<bool, AllocError>
    ensures { IfOk result (λ yes. (xs : List ArgValue)
        → Admits lines (written_with outline.now xs) bound.old.keys bound.new.keys
        batches.old.items batches.new.items yes) }
{
    if lines >= MOST {
        return Ok(false);
    }
    if !bind(bound, outline)? {
        return Ok(false);
    }
    join(batches, lines + 1, outline)
}

/// For how many lines room is made before a text of so many bytes is read: as many as it has where each takes 16 bytes,
/// and no more than a script may have.
fn likely_lines(bytes: usize) -> usize
    ensures { result ≡ min (bytes / 16) 65536 }
{
    usize::min(bytes / 16, MOST as usize)
}

/// Adds the phase of these lines, and takes them and their arguments away. There is room for as many in the next phase.
fn close(
    alloc: Global,
    phases: &mut Vec<Phase>,
    args: &mut Vec<Arg>,
    lines: &mut Vec<KeptLine>,
) -> Result<(), AllocError>
    requires { AllByRecursion (IsKept args.old.items) lines.old.items }
    ensures phases { OnOk result
        (phases.new.items ≡ phases.old.items ++ map (line_in args.old.items) lines.old.items ∷ []) }
    ensures args { OnOk result (args.new.items ≡ []) }
    ensures lines { OnOk result (lines.new.items ≡ []) }
{
    let next_args = Vec::with_capacity(alloc, args.len())?;
    let next_lines = Vec::with_capacity(alloc, lines.len())?;
    let args = mem::replace(args, next_args);
    let lines = mem::replace(lines, next_lines);
    phases.push(Phase::new(args, lines))?;
    Ok(())
}

/// The line as it is kept: with its place in the text, and the number of arguments that stand before its call's.
fn kept_as(outline: Outline, number: u32, first: usize) -> Option<KeptLine>
    ensures { result ≡ kept_as outline number first }
{
    match outline {
        Outline::Break => None,
        Outline::Said {
            binds,
            worker,
            more,
            verb,
        } => Some(KeptLine {
            number,
            binds,
            worker,
            more,
            verb,
            first,
        }),
    }
}

/// Adds the line to those of the last phase, whose arguments the list holds, or closes that phase where there is none.
fn add(
    alloc: Global,
    phases: &mut Vec<Phase>,
    args: &mut Vec<Arg>,
    lines: &mut Vec<KeptLine>,
    line: Option<KeptLine>,
) -> Result<(), AllocError>
    requires { AllByRecursion (IsKept args.old.items) lines.old.items }
    ensures { OnOk result (AddsLine line phases.old.items args.old.items lines.old.items
        phases.new.items args.new.items lines.new.items) }
{
    let _named: Option<Name> = None;
    match line {
        None => close(alloc, phases, args, lines)?,
        Some(line) => lines.push(line)?,
    }
    Ok(())
}

/// The one script that the bytes spell. `Line` tells the first faulty line: the first at which they stop being the beginning
/// of a script, or an earlier one that says that its batch goes on, where its worker has no well-formed line after it in
/// the phase.
pub fn read_script(alloc: Global, bytes: &[u8]) -> Result<Script, ScriptError>
    ensures { ReadsScript bytes.now result }
{
    let mut bound = names_at_start(alloc)?;
    let mut batches = Vec::new(alloc);
    let mut phases = Vec::new(alloc);
    let room = likely_lines(bytes.len());
    let mut args = Vec::with_capacity(alloc, 4 * room)?;
    let mut lines = Vec::with_capacity(alloc, room)?;
    let mut rest = bytes;
    let mut count = 0u32;
    while !rest.is_empty() {
        let Some((line, after)) = parted(rest, b'\n') else {
            return Err(fault_at(alloc, rest, &mut batches, count + 1));
        };
        let first = args.as_slice().len();
        let Some(outline) = read_line(alloc, line, &mut args)? else {
            return Err(fault_at(alloc, rest, &mut batches, count + 1));
        };
        if !admit(count, &mut bound, &mut batches, &outline)? {
            return Err(fault_at(alloc, rest, &mut batches, count + 1));
        }
        count += 1;
        let kept = kept_as(outline, count, first);
        add(alloc, &mut phases, &mut args, &mut lines, kept)?;
        rest = after;
    }
    if !batches.is_empty() {
        return Err(fault_at(alloc, rest, &mut batches, count + 1));
    }
    phases.push(Phase::new(args, lines))?;
    Ok(Script { phases })
}

/// A law, which does nothing when it is called: bytes spell one script, what spells one has no faulty line, and the first
/// faulty line is one.
pub fn one_reading()
    ensures value { (bytes : List ℕ) (a b : List (List LineValue))
        → IsScript bytes a → IsScript bytes b → a ≡ b }
    ensures fault { (bytes : List ℕ) (n : ℕ) (a : List (List LineValue))
        → ScriptFaultsAt bytes n → IsScript bytes a → ⊥ }
    ensures line { (bytes : List ℕ) (n m : ℕ)
        → ScriptFaultsAt bytes n → ScriptFaultsAt bytes m → n ≡ m }
{}

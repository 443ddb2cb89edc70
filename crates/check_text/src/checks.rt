//! What is told of a script.
ghost use Rattle.std.specs.Prelude.{◌≡◌, ◌-◌, [], IfOk, OnOk};
ghost use Rattle.call_text.specs.Numbers.{number_at};
ghost use Rattle.check_text.specs.Warnings as spec;
ghost use Rattle.check_text.specs.WarningTexts.{warnings_text};
ghost use Rattle.check_text.specs.Checks.{IsChecked, IsTold, AddsFaults, AddsLater, AddsLaterLine, AddsWhy};

use crate::fault_texts::{put_fault, put_reason};
use crate::line_faults::fault_in;
use crate::lines::{after_lines, cut};
use crate::places::Source;
use crate::reasons::{MOST_LINES, Reason, find_reason};
use crate::script_checks::warnings_of;
use crate::warning_texts::put_warnings;
use base::NoMemory;
use call_text::plain_scripts::{Plain, number_at, plain_of};
use call_text::{Script, ScriptError, read_script};
use std::alloc::Global;

/// Adds where a line after the first faulty one is not well formed, if it isn't.
fn put_later_line(
    alloc: Global,
    out: &mut Vec<u8>,
    source: &Source<'_>,
    number: u32,
    line: &[u8],
) -> Result<(), NoMemory>
    ensures { OnOk result (AddsLaterLine source.now.path.now source.now.numbers.now number line.now out.old.items out.new.items) }
{
    match fault_in(alloc, line)? {
        Some(fault) => put_fault(alloc, out, source, number, line, Reason::Malformed(fault)),
        None => Ok(()),
    }
}

/// Adds where lines of a text are not well formed, up to the last that a script may have. The first has this number.
fn put_later(
    alloc: Global,
    out: &mut Vec<u8>,
    source: &Source<'_>,
    first: u32,
    text: &[u8],
) -> Result<(), NoMemory>
    ensures { OnOk result
        (AddsLater source.now.path.now source.now.numbers.now first (65537 - first) text.now out.old.items out.new.items) }
{
    let mut rest = text;
    for number in first..MOST_LINES + 1 {
        if rest.is_empty() {
            return Ok(());
        }
        let (line, more) = cut(rest, b'\n');
        put_later_line(alloc, out, source, number, line)?;
        rest = more;
    }
    Ok(())
}

/// Adds why line `number` of the bytes, from 1, is the first faulty one, where it is, and where later lines are not well
/// formed.
fn put_faults(
    alloc: Global,
    out: &mut Vec<u8>,
    source: &Source<'_>,
    bytes: &[u8],
    number: u32,
) -> Result<(), NoMemory>
    ensures { OnOk result
        (AddsFaults source.now.path.now source.now.numbers.now bytes.now number out.old.items out.new.items) }
{
    let reason = find_reason(alloc, bytes, number)?;
    let (line, more) = cut(after_lines(number.saturating_sub(1), bytes), b'\n');
    put_fault(
        alloc,
        out,
        source,
        number,
        line,
        reason.numbered(source.numbers),
    )?;
    if number > MOST_LINES {
        return Ok(());
    }
    put_later(alloc, out, source, number + 1, more)?;
    Ok(())
}

/// What is told of the faults of a script.
#[derive(Drop)]
pub struct Faults {
    /// The first faulty line, from 1, as it was written.
    pub line: u32,
    /// Why it is faulty, and where later lines are not well formed.
    pub text: Vec<u8>,
}

/// A script, with its exact form.
#[derive(Drop)]
pub struct Exact {
    /// The script.
    pub script: Script,
    /// Its exact form, which spells it.
    pub plain: Plain,
}

/// What bytes that people wrote come to.
#[derive(Drop)]
pub enum Checked {
    /// A script.
    Script(Exact),
    /// None.
    Faulty(Faults),
}

/// What is told of the exact form, line `number` of which is the first faulty one.
fn faults_of(alloc: Global, path: &str, plain: &Plain, number: u32) -> Result<Faults, NoMemory>
    ensures line { IfOk result (λ faults. faults.line ≡ number_at plain.now.numbers.items number) }
    ensures text { IfOk result (λ faults.
        AddsFaults path.now plain.now.numbers.items plain.now.text.items number [] faults.text.items) }
{
    let numbers = plain.numbers.as_slice();
    let mut text = Vec::new(alloc);
    put_faults(
        alloc,
        &mut text,
        &Source { path, numbers },
        plain.text.as_slice(),
        number,
    )?;
    Ok(Faults {
        line: number_at(numbers, number),
        text,
    })
}

/// The script that the exact form of bytes spells, or what is told of their faults, with the path that they stand at. Want of
/// memory is the only error.
pub fn read_or_tell(alloc: Global, path: &str, bytes: &[u8]) -> Result<Checked, NoMemory>
    ensures { IfOk result (IsChecked path.now bytes.now) }
{
    let plain = plain_of(alloc, bytes)?;
    match read_script(alloc, plain.text.as_slice()) {
        Ok(script) => Ok(Checked::Script(Exact { script, plain })),
        Err(ScriptError::Memory) => Err(NoMemory),
        Err(ScriptError::Line(line)) => {
            let faults = faults_of(alloc, path, &plain, line)?;
            Ok(Checked::Faulty(faults))
        }
    }
}

/// The warnings of a script, with the path that it stands at.
fn warned(alloc: Global, path: &str, exact: &Exact) -> Result<Vec<u8>, NoMemory>
    ensures { IfOk result (λ told.
        told.items ≡ warnings_text path.now exact.now.plain.numbers.items (spec.warnings_of exact.now.script)) }
{
    let mut out = Vec::new(alloc);
    let warnings = warnings_of(alloc, &exact.script)?;
    let numbers = exact.plain.numbers.as_slice();
    put_warnings(&mut out, &Source { path, numbers }, warnings.as_slice())?;
    Ok(out)
}

/// What is told of the script that the exact form of bytes spells, with the path that they stand at: of the first faulty line
/// why it is faulty, and of later ones where they are not well formed; otherwise all warnings. Want of memory is the only error.
pub fn check(alloc: Global, path: &str, bytes: &[u8]) -> Result<Vec<u8>, NoMemory>
    ensures { IfOk result (λ told. IsTold path.now bytes.now told.items) }
{
    match read_or_tell(alloc, path, bytes)? {
        Checked::Script(exact) => warned(alloc, path, &exact),
        Checked::Faulty(faults) => Ok(faults.text),
    }
}

/// Adds why line `number` of the bytes, from 1, is the first faulty one, where it is. Want of memory is the only error.
pub fn put_why(alloc: Global, out: &mut Vec<u8>, bytes: &[u8], number: u32) -> Result<(), NoMemory>
    ensures { OnOk result (AddsWhy bytes.now number out.old.items out.new.items) }
{
    let reason = find_reason(alloc, bytes, number)?;
    let (line, _) = cut(after_lines(number.saturating_sub(1), bytes), b'\n');
    put_reason(alloc, out, line, reason)
}

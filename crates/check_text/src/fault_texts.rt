//! What is printed of a faulty line.
ghost use Rattle.std.specs.Prelude.{◌≡◌, ◌++◌, ◌≤◌, ◌<◌, ◌^◌, length, map, OnOk};
ghost use Rattle.check_text.specs.FaultTexts.{kind_text, expected_text, column_of, after_space, text_at, shown_byte, found_text};
ghost use Rattle.check_text.specs.FaultTexts.{beginning, IsWithin, malformed_text, reason_text, column, fault_text};
ghost use Rattle.check_text.specs.FaultTexts.{standing_words};

use crate::forms::put_form;
use crate::hints::put_hint;
use crate::line_faults::{Expected, LineFault};
use crate::lines::cut;
use crate::places::{Source, put_place};
use crate::reasons::Reason;
use base::NoMemory;
use std::alloc::Global;
use text_words::put_number;
use text_words::spoken_calls::ArgKind;

/// What an argument of a kind is.
fn kind_text(kind: ArgKind) -> &'static str
    ensures { result.now ≡ kind_text kind }
{
    match kind {
        ArgKind::Object => "an object: a name, or # and a number",
        ArgKind::Number => "a number below 2^32",
        ArgKind::Wide => "a number below 2^64",
        ArgKind::Signed => "a number from -2^31, below 2^31",
        ArgKind::Label => "a label, as {c:3,1}",
        ArgKind::Data => "up to 64 bytes of two digits each, or -",
        ArgKind::Types => "letters of csatgd in this order, or -",
        ArgKind::Rights => "rw, r, w or -",
    }
}

/// What may stand at a place.
fn expected_text(expected: Expected) -> &'static str
    ensures { result.now ≡ expected_text expected }
{
    match expected {
        Expected::Beginning => "a worker and a colon, a name to bind, or --",
        Expected::Equals => "=, or a colon right after the worker",
        Expected::Worker => "a worker and a colon",
        Expected::Call {
            binds: true,
            more: _,
        } => "a call that makes something",
        Expected::Call {
            binds: false,
            more: true,
        } => "a write call",
        Expected::Call {
            binds: false,
            more: false,
        } => "a call",
        Expected::Argument(kind) => kind_text(kind),
        Expected::End => "the line's end",
    }
}

/// What stands after the space that follows a word.
fn after_space(text: &[u8]) -> &[u8]
    ensures value { result.now ≡ after_space text.now }
    ensures within { length result.now ≤ length text.now }
{
    match text {
        [first, after @ ..] if *first == b' ' => after,
        _ => text,
    }
}

/// What stands in a line after the right words, without the space after them.
fn text_at(line: &[u8], before: usize) -> &[u8]
    requires { before ≤ length line.now }
    ensures value { result.now ≡ text_at line.now before }
    ensures within { length result.now ≤ length line.now }
{
    if before == 0 {
        return line;
    }
    after_space(line.split_at(before).1)
}

/// The column that is told of a fault: that of the word that is not expected, or the line's end.
fn column_of(line: &[u8], before: usize) -> usize
    requires { before ≤ length line.now }
    ensures { result ≡ column_of line.now before }
{
    line.len() - text_at(line, before).len() + 1
}

/// A byte that a terminal can show.
fn shown_byte(byte: u8) -> u8
    ensures { result ≡ shown_byte byte }
{
    if byte < 33 || byte > 126 { b'?' } else { byte }
}

/// Adds bytes of a word, each as a terminal can show it.
fn put_shown(out: &mut Vec<u8>, word: &[u8]) -> Result<(), NoMemory>
    ensures { OnOk result (out.new.items ≡ out.old.items ++ map shown_byte word.now) }
{
    for byte in word {
        out.push(shown_byte(*byte))?;
    }
    Ok(())
}

/// The most bytes that are told of a word.
const MOST_SHOWN: usize = 32;

/// The beginning of a word.
#[tactic(auto, using(std::proofs::lemmas::List::take_min))]
fn beginning(word: &[u8]) -> &[u8]
    ensures { result.now ≡ beginning word.now }
{
    word.split_at(MOST_SHOWN.min(word.len())).0
}

/// Adds what was found in place of what is expected: the beginning of a word, or that none is there.
fn put_found(out: &mut Vec<u8>, text: &[u8]) -> Result<(), NoMemory>
    ensures { OnOk result (out.new.items ≡ out.old.items ++ found_text text.now) }
{
    let (word, _) = cut(text, b' ');
    if word.is_empty() {
        out.extend_from_slice(b"no word")?;
        return Ok(());
    }
    put_shown(out, beginning(word))
}

/// Adds what is expected in a line, what was found, and what that suggests.
fn put_malformed(
    alloc: Global,
    out: &mut Vec<u8>,
    line: &[u8],
    fault: &LineFault,
) -> Result<(), NoMemory>
    requires { fault.now.before ≤ length line.now }
    ensures { OnOk result (out.new.items ≡ out.old.items ++ malformed_text line.now fault.now) }
{
    out.extend_from_slice(b"expected ")?;
    out.extend_from_slice(expected_text(fault.expected).as_bytes())?;
    out.extend_from_slice(b", found ")?;
    let text = text_at(line, fault.before);
    put_found(out, text)?;
    put_hint(alloc, out, fault.expected, text)?;
    put_form(alloc, out, fault.expected, line, text)
}

/// Why a well-formed line is faulty, but for a line's number.
fn standing_words(reason: Reason) -> &'static str
    ensures { result.now ≡ standing_words reason }
{
    match reason {
        Reason::Malformed(_) => "",
        Reason::NoEnd => "no LF ends the line",
        Reason::TooLong => "a line has at most 4,096 bytes",
        Reason::TooMany => "a script has at most 65,536 lines",
        Reason::Reserved => "root, boot and dev are bound at the start",
        Reason::Rebinds(_) => "the name is bound in line ",
        Reason::Batch => {
            "a batch has at most 16 lines, after the first one write calls, and ends in its phase"
        }
    }
}

/// Adds why a line is faulty.
pub fn put_reason(
    alloc: Global,
    out: &mut Vec<u8>,
    line: &[u8],
    reason: Reason,
) -> Result<(), NoMemory>
    requires { IsWithin line.now reason }
    ensures { OnOk result (out.new.items ≡ out.old.items ++ reason_text line.now reason) }
{
    if let Reason::Malformed(fault) = reason {
        return put_malformed(alloc, out, line, &fault);
    }
    out.extend_from_slice(standing_words(reason).as_bytes())?;
    if let Reason::Rebinds(number) = reason {
        put_number(out, u64::from(number))?;
    }
    Ok(())
}

/// The column that is told of a faulty line.
fn column(line: &[u8], reason: Reason) -> usize
    requires { IsWithin line.now reason }
    ensures { result ≡ column line.now reason }
{
    match reason {
        Reason::Malformed(fault) => column_of(line, fault.before),
        Reason::NoEnd => line.len() + 1,
        Reason::TooLong => 4097,
        _ => 1,
    }
}

/// Adds what is told of a faulty line: `PATH:LINE:COLUMN: error: ` and why.
pub fn put_fault(
    alloc: Global,
    out: &mut Vec<u8>,
    source: &Source<'_>,
    number: u32,
    line: &[u8],
    reason: Reason,
) -> Result<(), NoMemory>
    requires { IsWithin line.now reason }
    ensures { OnOk result (out.new.items
        ≡ out.old.items ++ fault_text source.now.path.now source.now.numbers.now number line.now reason) }
{
    put_place(out, source, number)?;
    put_number(out, column(line, reason) as u64)?;
    out.extend_from_slice(b": error: ")?;
    put_reason(alloc, out, line, reason)?;
    out.push(b'\n')?;
    Ok(())
}

//! What is told of a word beside what is expected in its place.
ghost use Rattle.std.specs.Prelude.{◌≡◌, ◌++◌, false, Some, IfOk, OnOk};
ghost use Rattle.check_text.specs.Hints.{argument_hint, colon_last, data_hint, edits, end_hint, end_of_windows, ends_with, first_hint};
ghost use Rattle.check_text.specs.Hints.{first_within, fixed_hint};
ghost use Rattle.check_text.specs.Hints.{has, has_capital, has_high, hint, is_high, label_hint, meant, name_hint, nearest};
ghost use Rattle.check_text.specs.Verbs as spec;

use crate::line_faults::{Expected, all_verbs, suits};
use crate::lines::cut;
use base::NoMemory;
use std::alloc::{AllocError, Global};
use strsim::generic_levenshtein;
use text_words::spoken_calls::{ArgKind, Verb};

/// Whether a capital letter stands in a word.
fn has_capital(word: &[u8]) -> bool
    ensures { result ≡ has_capital word.now }
{
    word.iter().any(|byte| *byte >= b'A' && *byte <= b'Z')
}

/// Whether a byte stands in a word.
fn has(byte: u8, word: &[u8]) -> bool
    ensures { result ≡ has byte word.now }
{
    word.iter().any(|each| *each == byte)
}

/// Whether a word ends with a byte.
fn ends_with(byte: u8, word: &[u8]) -> bool
    ensures { result ≡ ends_with byte word.now }
{
    match word.last() {
        Some(last) => *last == byte,
        None => false,
    }
}

/// Whether a word has a colon after its last comma.
fn colon_last(word: &[u8]) -> bool
    ensures { result ≡ colon_last false word.now }
{
    let mut seen = false;
    for byte in word {
        seen = if *byte == b',' {
            false
        } else {
            seen || *byte == b':'
        };
    }
    seen
}

/// Whether the second of these begins a level above 3.
fn is_high(a: u8, b: u8) -> bool
    ensures { result ≡ is_high a b }
{
    (a == b':' || (a == b',' || a == b'{')) && (b >= b'4' && b <= b'9')
}

/// Whether a level above 3 stands in a label's word.
fn has_high(word: &[u8]) -> bool
    ensures { result ≡ has_high word.now }
{
    let mut before = 0;
    for byte in word {
        if is_high(before, *byte) {
            return true;
        }
        before = *byte;
    }
    false
}

/// Of a name.
fn name_hint(name: &[u8]) -> &'static str
    ensures { result.now ≡ name_hint name.now }
{
    if has_capital(name) {
        "; a name has no capitals"
    } else if has(b'-', name) {
        "; a name has no -"
    } else if name.len() > 16 {
        "; a name has at most 16 bytes"
    } else {
        ""
    }
}

/// Of a label.
fn label_hint(word: &[u8]) -> &'static str
    ensures { result.now ≡ label_hint word.now }
{
    if !ends_with(b'}', word) {
        "; a label is one word in braces"
    } else if has_capital(word) {
        "; a name has no capitals"
    } else if colon_last(word) {
        "; a label's last part is its default level"
    } else if has_high(word) {
        "; levels are *, 0, 1, 2 and 3"
    } else {
        ""
    }
}

/// Of data.
fn data_hint(word: &[u8]) -> &'static str
    ensures { result.now ≡ data_hint word.now }
{
    if has_capital(word) {
        "; digits are 0 to 9 and a to f"
    } else {
        ""
    }
}

/// Of an argument.
fn argument_hint(kind: ArgKind, word: &[u8]) -> &'static str
    ensures { result.now ≡ argument_hint kind word.now }
{
    match kind {
        ArgKind::Object => name_hint(word),
        ArgKind::Label => label_hint(word),
        ArgKind::Data => data_hint(word),
        _ => "",
    }
}

/// Of a line's first word, or of a line that begins with none.
fn first_hint(text: &[u8]) -> &'static str
    ensures { result.now ≡ first_hint text.now }
{
    match text {
        [b' ', ..] => "; a line begins with no space",
        [b'/', ..] => "; a comment begins with #",
        _ => name_hint(cut(cut(text, b' ').0, b':').0),
    }
}

/// Of what stands after a line's last word.
fn end_hint(text: &[u8]) -> &'static str
    ensures { result.now ≡ end_hint text.now }
{
    if text.is_empty() {
        "; a line ends with no space"
    } else {
        ""
    }
}

/// How many edits lead from a word to that of a call.
fn edits(alloc: Global, word: &[u8], verb: Verb) -> Result<usize, AllocError>
    ensures { IfOk result (λ count. count ≡ edits word.now verb) }
{
    generic_levenshtein(alloc, word, verb.name().as_bytes())
}

/// The first call that may stand there and is so few edits away.
pub fn first_within(
    alloc: Global,
    binds: bool,
    more: bool,
    word: &[u8],
    most: usize,
) -> Result<Option<Verb>, AllocError>
    ensures { IfOk result (λ found. found ≡ first_within binds more word.now most spec.all_verbs) }
{
    for verb in all_verbs() {
        if suits(binds, more, *verb) && edits(alloc, word, *verb)? <= most {
            return Ok(Some(*verb));
        }
    }
    Ok(None)
}

/// The nearest call that may stand there, at most two edits away.
fn nearest(alloc: Global, binds: bool, more: bool, word: &[u8]) -> Result<Option<Verb>, AllocError>
    ensures { IfOk result (λ found. found ≡ nearest binds more word.now) }
{
    match first_within(alloc, binds, more, word, 1)? {
        Some(verb) => Ok(Some(verb)),
        None => first_within(alloc, binds, more, word, 2),
    }
}

/// Adds a call that may be meant.
fn put_verb(out: &mut Vec<u8>, verb: Verb) -> Result<(), AllocError>
    ensures { OnOk result (out.new.items ≡ out.old.items ++ meant (Some verb)) }
{
    out.extend_from_slice(b"; did you mean ")?;
    out.extend_from_slice(verb.name().as_bytes())?;
    out.push(b'?')?;
    Ok(())
}

/// Adds the call that may be meant, if there is one.
fn put_meant(out: &mut Vec<u8>, verb: Option<Verb>) -> Result<(), AllocError>
    ensures { OnOk result (out.new.items ≡ out.old.items ++ meant verb) }
{
    match verb {
        Some(verb) => put_verb(out, verb),
        None => Ok(()),
    }
}

/// What is told of the end of a line of Windows.
fn end_of_windows() -> &'static str
    ensures { result.now ≡ end_of_windows }
{
    "; a line ends in LF alone, without CR"
}

/// The hint of what stands where something else than a call is expected.
fn fixed_hint(expected: Expected, text: &[u8]) -> &'static str
    ensures { result.now ≡ fixed_hint expected text.now }
{
    match expected {
        Expected::Beginning => first_hint(text),
        Expected::Worker => name_hint(cut(cut(text, b' ').0, b':').0),
        Expected::Argument(kind) => argument_hint(kind, cut(text, b' ').0),
        Expected::End => end_hint(text),
        _ => "",
    }
}

/// Adds what is told of a text that stands where this is expected.
pub fn put_hint(
    alloc: Global,
    out: &mut Vec<u8>,
    expected: Expected,
    text: &[u8],
) -> Result<(), NoMemory>
    ensures { OnOk result (out.new.items ≡ out.old.items ++ hint expected text.now) }
{
    if ends_with(b'\r', text) {
        out.extend_from_slice(end_of_windows().as_bytes())?;
        return Ok(());
    }
    if let Expected::Call { binds, more } = expected {
        put_meant(out, nearest(alloc, binds, more, cut(text, b' ').0)?)?;
        return Ok(());
    }
    out.extend_from_slice(fixed_hint(expected, text).as_bytes())?;
    Ok(())
}

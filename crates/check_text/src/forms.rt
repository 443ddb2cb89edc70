//! The form of a call, which is told where an argument of it is missing.
ghost use Rattle.std.specs.Prelude.{◌≡◌, ◌++◌, IfOk, OnOk};
ghost use Rattle.std.specs.List.{flat_map};
ghost use Rattle.check_text.specs.Forms.{call_of, call_word, form_hint, form_of, kind_word, past};

use crate::hints::first_within;
use crate::line_faults::Expected;
use crate::lines::cut;
use base::NoMemory;
use std::alloc::{AllocError, Global};
use text_words::spoken_calls::{ArgKind, Verb};

/// A word for an argument of a kind, after a space.
fn kind_word(kind: ArgKind) -> &'static str
    ensures { result.now ≡ kind_word kind }
{
    match kind {
        ArgKind::Object => " OBJECT",
        ArgKind::Number | ArgKind::Wide | ArgKind::Signed => " NUMBER",
        ArgKind::Label => " LABEL",
        ArgKind::Data => " BYTES",
        ArgKind::Types => " KINDS",
        ArgKind::Rights => " RIGHTS",
    }
}

/// What stands after a byte that a text may begin with.
fn past(byte: u8, text: &[u8]) -> &[u8]
    ensures { result.now ≡ past byte text.now }
{
    match text {
        [first, after @ ..] if *first == byte => after,
        _ => text,
    }
}

/// The word of a line's call: it stands after the worker's colon, and after the plus of a batch.
fn call_word(line: &[u8]) -> &[u8]
    ensures { result.now ≡ call_word line.now }
{
    cut(past(b' ', past(b'+', cut(line, b':').1)), b' ').0
}

/// The call of a line, if there is one of its word.
fn call_of(alloc: Global, line: &[u8]) -> Result<Option<Verb>, AllocError>
    ensures { IfOk result (λ verb. verb ≡ call_of line.now) }
{
    first_within(alloc, false, false, call_word(line), 0)
}

/// Adds a word for each of a call's arguments.
fn put_kinds(out: &mut Vec<u8>, kinds: &[ArgKind]) -> Result<(), AllocError>
    ensures { OnOk result (out.new.items ≡ out.old.items ++ flat_map kind_word kinds.now) }
{
    for kind in kinds {
        out.extend_from_slice(kind_word(*kind).as_bytes())?;
    }
    Ok(())
}

/// Adds the form of a call, if there is one.
fn put_form_of(out: &mut Vec<u8>, verb: Option<Verb>) -> Result<(), AllocError>
    ensures { OnOk result (out.new.items ≡ out.old.items ++ form_of verb) }
{
    let Some(verb) = verb else {
        return Ok(());
    };
    out.extend_from_slice(b"; its form is ")?;
    out.extend_from_slice(verb.name().as_bytes())?;
    put_kinds(out, verb.kinds())
}

/// Adds the form of a line's call, where an argument is expected and no word stands.
pub fn put_form(
    alloc: Global,
    out: &mut Vec<u8>,
    expected: Expected,
    line: &[u8],
    text: &[u8],
) -> Result<(), NoMemory>
    ensures { OnOk result (out.new.items ≡ out.old.items ++ form_hint expected line.now text.now) }
{
    let Expected::Argument(_) = expected else {
        return Ok(());
    };
    if !text.is_empty() {
        return Ok(());
    }
    put_form_of(out, call_of(alloc, line)?)?;
    Ok(())
}

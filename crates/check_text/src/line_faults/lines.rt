//! The fault of a line, part by part.
ghost use Rattle.std.specs.Prelude.{◌≡◌, ◌++◌, ℕ, List, Some, IfOk, true, take, drop};
ghost use Rattle.text_words.specs.Lacks.{lacks};
ghost use Rattle.text_words.specs.Spoken.{further_text, AreArgs, IsRest};
ghost use Rattle.call_text.specs.Line.{written_text, IsWritten, Written};
ghost use Rattle.check_text.specs.Faults.{TellsFault, call_after, IsCall, making_after, IsMaking, bound_after};
ghost use Rattle.check_text.specs.Faults.{space_before, MayFollow, StopsAt};
ghost use Rattle.check_text.specs.declared.line_faults.expected.LineFault.{LineFault as FaultValue};

use crate::line_faults::expected::{Expected, LineFault, further};
use crate::line_faults::verbs::{suits, verb_of};
use crate::line_faults::words::{batch_mark, first_word, is_argument, next_word};
use std::alloc::{AllocError, Global};
use text_words::spoken_calls::ArgKind;
use text_words::{is_same, read_name};

/// The fault right where a text begins.
fn here(expected: Expected) -> Option<LineFault>
    ensures { result ≡ Some (record { before = 0; expected = expected }) }
{
    Some(LineFault {
        before: 0,
        expected,
    })
}

/// The fault of arguments of these kinds, each after a space.
fn fault_in_arguments(
    alloc: Global,
    kinds: &[ArgKind],
    text: &[u8],
) -> Result<Option<LineFault>, AllocError>
    ensures { IfOk result (TellsFault further_text (AreArgs kinds.now) text.now) }
{
    let [kind, others @ ..] = kinds else {
        return Ok(if text.is_empty() {
            None
        } else {
            here(Expected::End)
        });
    };
    let Some((word, rest)) = next_word(text) else {
        return Ok(here(Expected::Argument(*kind)));
    };
    if !is_argument(alloc, *kind, word)? {
        return Ok(here(Expected::Argument(*kind)));
    }
    let found = fault_in_arguments(alloc, others, rest)?;
    Ok(further(found, 1 + word.len()))
}

/// The fault of a call after a space.
fn fault_in_call(
    alloc: Global,
    binds: bool,
    more: bool,
    text: &[u8],
) -> Result<Option<LineFault>, AllocError>
    ensures { IfOk result (TellsFault call_after (IsCall binds more) text.now) }
{
    let expected = Expected::Call { binds, more };
    let Some((word, rest)) = next_word(text) else {
        return Ok(here(expected));
    };
    let Some(verb) = verb_of(word) else {
        return Ok(here(expected));
    };
    if !suits(binds, more, verb) {
        return Ok(here(expected));
    }
    let found = fault_in_arguments(alloc, verb.kinds(), rest)?;
    Ok(further(found, 1 + word.len()))
}

/// The fault of a worker after a space, with its call that makes something.
fn fault_in_making(alloc: Global, text: &[u8]) -> Result<Option<LineFault>, AllocError>
    ensures { IfOk result (TellsFault making_after IsMaking text.now) }
{
    let Some((word, rest)) = next_word(text) else {
        return Ok(here(Expected::Worker));
    };
    let Some(more) = batch_mark(word) else {
        return Ok(here(Expected::Worker));
    };
    let found = fault_in_call(alloc, true, more, rest)?;
    Ok(further(found, 1 + word.len()))
}

/// The fault of what stands after a name: an equals sign, a worker and its call.
fn fault_in_bound(alloc: Global, text: &[u8]) -> Result<Option<LineFault>, AllocError>
    ensures { IfOk result (TellsFault bound_after IsMaking text.now) }
{
    let Some((word, rest)) = next_word(text) else {
        return Ok(here(Expected::Equals));
    };
    if !is_same(word, b"=") {
        return Ok(here(Expected::Equals));
    }
    let found = fault_in_making(alloc, rest)?;
    Ok(further(found, 2))
}

/// Where a line, without the LF that ends it, stops being the beginning of a well-formed one, and what may stand
/// there. None where it is well formed. The length of a line plays no part.
pub fn fault_in(alloc: Global, line: &[u8]) -> Result<Option<LineFault>, AllocError>
    ensures { IfOk result (TellsFault written_text IsWritten line.now) }
{
    let (word, rest) = first_word(line);
    if is_same(word, b"--") {
        return Ok(further(fault_in_arguments(alloc, &[], rest)?, 2));
    }
    if let Some(more) = batch_mark(word) {
        let found = fault_in_call(alloc, false, more, rest)?;
        return Ok(further(found, word.len()));
    }
    if let Some(_) = read_name(word) {
        let found = fault_in_bound(alloc, rest)?;
        return Ok(further(found, word.len()));
    }
    Ok(here(Expected::Beginning))
}

/// A law, which does nothing when it is called: a line with a fault is not well formed, and no well-formed line has the
/// words before the fault's place with the line's next word after them.
pub fn longest_beginning()
    ensures fault { (line : List ℕ) (f : FaultValue) (whole : Written)
        → StopsAt written_text IsWritten line f → IsWritten whole → line ≡ written_text whole → ⊥ }
    ensures longest { (line word rest more : List ℕ) (f : FaultValue)
        → StopsAt written_text IsWritten line f
        → drop f.before line ≡ space_before f.expected ++ (word ++ rest) → lacks 32 word ≡ true → IsRest rest → IsRest more
        → MayFollow written_text IsWritten (take f.before line) (space_before f.expected ++ (word ++ more)) → ⊥ }
{}

//! A line of a script.
ghost use Rattle.std.specs.Prelude.{◌≡◌, ◌++◌, ◌∷◌, [], ℕ, List, Bool, IfOk, IfSome, IfNone};
ghost use Rattle.text_words.specs.Spoken.{ReadsInto};
ghost use Rattle.call_text.specs.Line.{said_with, said_text, IsSaid, bound_with, bound_text, IsBound};
ghost use Rattle.call_text.specs.Line.{mark, may_go_on};
ghost use Rattle.call_text.specs.Line.{written_with, written_text, FitsWritten};

use std::alloc::{AllocError, Global};
use text_words::spoken_calls::{Arg, Verb, read_spoken};
use text_words::{Name, is_same, parted, read_name};

/// The most bytes that stand before a line's end.
const LONGEST: usize = 4096;

/// A line of a script, without its place and without the arguments of its call, which stand in a list.
#[derive(Clone, Copy)]
pub enum Outline {
    /// `--`, which parts two phases.
    Break,
    /// A worker's call, and the name that is bound to what it makes.
    Said {
        binds: Option<Name>,
        worker: Name,
        more: bool,
        verb: Verb,
    },
}

/// What stands before a last colon, or before a colon and a plus, and whether the plus is there.
fn before_mark(word: &[u8]) -> Option<(&[u8], bool)>
    ensures some { IfSome result (λ r. word.now ≡ r.0.now ++ mark r.1) }
    ensures none { IfNone result ((r : List ℕ) (more : Bool) → word.now ≡ r ++ mark more → ⊥) }
{
    match word {
        [before @ .., b':'] => Some((before, false)),
        [before @ .., b':', b'+'] => Some((before, true)),
        _ => None,
    }
}

/// Whether the call may stand in a line that says whether the worker's next line is of its batch.
fn may_go_on(more: bool, verb: Verb) -> bool
    ensures { result ≡ may_go_on more verb }
{
    !more || verb.writes()
}

/// What stands after an equals sign and a space.
pub(crate) fn after_equals(text: &[u8]) -> Option<&[u8]>
    ensures some { IfSome result (λ r. text.now ≡ 61 ∷ 32 ∷ r.now) }
    ensures none { IfNone result ((r : List ℕ) → text.now ≡ 61 ∷ 32 ∷ r → ⊥) }
{
    match text {
        [b'=', b' ', after @ ..] => Some(after),
        _ => None,
    }
}

/// A worker, whether its batch goes on, and the verb of its call, as `WORKER: CALL` or `WORKER:+ CALL`. The call's
/// arguments are added to the list; where the text is no such line nothing is added.
fn read_said(
    alloc: Global,
    text: &[u8],
    args: &mut Vec<Arg>,
) -> Result<Option<(Name, bool, Verb)>, AllocError>
    ensures { IfOk result (ReadsInto said_with said_text IsSaid text.now args.old.items args.new.items) }
{
    let before = args.as_slice().len();
    let Some((first, words)) = parted(text, b' ') else {
        return Ok(None);
    };
    let Some((worker, more)) = before_mark(first) else {
        return Ok(None);
    };
    let Some(worker) = read_name(worker) else {
        return Ok(None);
    };
    let Some(verb) = read_spoken(alloc, words, args)? else {
        return Ok(None);
    };
    if !may_go_on(more, verb) {
        args.truncate(before);
        return Ok(None);
    }
    Ok(Some((worker, more, verb)))
}

/// A name, and the rest of its line, as `NAME = WORKER: CALL` or `NAME = WORKER:+ CALL`. The call's arguments are added to
/// the list; where the text is no such line nothing is added.
fn read_bound(
    alloc: Global,
    text: &[u8],
    args: &mut Vec<Arg>,
) -> Result<Option<(Name, (Name, bool, Verb))>, AllocError>
    ensures { IfOk result (ReadsInto bound_with bound_text IsBound text.now args.old.items args.new.items) }
{
    let before = args.as_slice().len();
    let Some((name, after)) = parted(text, b' ') else {
        return Ok(None);
    };
    let Some(said) = after_equals(after) else {
        return Ok(None);
    };
    let Some(name) = read_name(name) else {
        return Ok(None);
    };
    let Some(said) = read_said(alloc, said, args)? else {
        return Ok(None);
    };
    if !said.2.makes() {
        args.truncate(before);
        return Ok(None);
    }
    Ok(Some((name, said)))
}

/// The line that the bytes before a line's end spell, but for its call's arguments, which are added to the list; where
/// they spell none nothing is added.
pub fn read_line(
    alloc: Global,
    text: &[u8],
    args: &mut Vec<Arg>,
) -> Result<Option<Outline>, AllocError>
    ensures { IfOk result (ReadsInto written_with written_text FitsWritten text.now args.old.items args.new.items) }
{
    if text.len() > LONGEST {
        return Ok(None);
    }
    if is_same(text, b"--") {
        return Ok(Some(Outline::Break));
    }
    if let Some((worker, more, verb)) = read_said(alloc, text, args)? {
        return Ok(Some(Outline::Said {
            binds: None,
            worker,
            more,
            verb,
        }));
    }
    let Some((name, (worker, more, verb))) = read_bound(alloc, text, args)? else {
        return Ok(None);
    };
    Ok(Some(Outline::Said {
        binds: Some(name),
        worker,
        more,
        verb,
    }))
}

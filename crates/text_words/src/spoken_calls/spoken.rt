//! A call as its words.
ghost use Rattle.std.specs.Prelude.{◌≡◌, ◌<◌, ◌++◌, ◌∷◌, ℕ, List, true, IfOk, IfSome, IfNone, length};
ghost use Rattle.text_words.specs.Lacks.{lacks};
ghost use Rattle.text_words.specs.Verb.{kinds_of};
ghost use Rattle.text_words.specs.Spoken.{call_with, spoken_text, IsSpoken, AreArgs, IsRest};
ghost use Rattle.text_words.specs.Spoken.{AddsArgs, ReadsInto, ReadsArguments};

use crate::spoken_calls::args::{Arg, ArgKind, add_arg};
use crate::spoken_calls::verbs::{Verb, read_verb};
use memchr::memchr;
use std::alloc::{AllocError, Global};
use std::marker::Model;

/// A call and its arguments, which are of the verb's kinds, each in its range. They stand in a list that holds those of
/// other calls too. A contract sees the verb and the list of the arguments.
#[derive(Drop)]
pub struct SpokenCall<'a> {
    verb: Verb,
    args: &'a [Arg],
}

impl<'a> Model for SpokenCall<'a> {
    ghost use Rattle.text_words.specs.Spoken.{Spoken, IsSpoken, call_with};

    ghost Value = { Spoken };

    ghost view = { λ a. call_with a.verb a.args.now };

    ghost invariant = { λ a. IsSpoken (call_with a.verb a.args.now) };
}

impl<'a> SpokenCall<'a> {
    /// The call of a verb and arguments of its kinds, as `read_spoken` reads them.
    pub fn new(verb: Verb, args: &'a [Arg]) -> SpokenCall<'a>
        requires { AreArgs (kinds_of verb) args.now }
        ensures { result ≡ call_with verb args.now }
    {
        SpokenCall { verb, args }
    }

    /// The call's first word.
    pub fn verb(&self) -> Verb
        ensures { result ≡ self.now.verb }
    {
        self.verb
    }

    /// The arguments, in order.
    pub fn args(&self) -> &'a [Arg]
        ensures value { result.now ≡ self.now.args }
        ensures spoken { IsSpoken self.now }
    {
        self.args
    }
}

/// What stands before the first space, and the rest, which begins with that space or is empty.
fn first_word(text: &[u8]) -> (&[u8], &[u8])
    ensures parts { text.now ≡ result.0.now ++ result.1.now }
    ensures word { lacks 32 result.0.now ≡ true }
    ensures rest { IsRest result.1.now }
{
    match memchr(b' ', text) {
        Some(end) => text.split_at(end),
        None => text.split_at(text.len()),
    }
}

/// What stands after a space.
fn after_space(text: &[u8]) -> Option<&[u8]>
    ensures some { IfSome result (λ r. text.now ≡ 32 ∷ r.now) }
    ensures none { IfNone result ((r : List ℕ) → text.now ≡ 32 ∷ r → ⊥) }
{
    match text {
        [b' ', after @ ..] => Some(after),
        _ => None,
    }
}

/// Adds the arguments of these kinds that the text spells, each after a space, and answers whether it spells them;
/// otherwise some may have been added.
fn add_args(
    alloc: Global,
    args: &mut Vec<Arg>,
    kinds: &[ArgKind],
    text: &[u8],
) -> Result<bool, AllocError>
    ensures { IfOk result (AddsArgs kinds.now text.now args.old.items args.new.items) }
{
    let mut rest = text;
    for kind in kinds {
        let Some(after) = after_space(rest) else {
            return Ok(false);
        };
        let (word, left) = first_word(after);
        if !add_arg(alloc, args, *kind, word)? {
            return Ok(false);
        }
        rest = left;
    }
    if !rest.is_empty() {
        return Ok(false);
    }
    Ok(true)
}

/// The arguments of these kinds, of which there is at least one, that the text spells, parted by single spaces.
pub fn read_arguments(
    alloc: Global,
    kinds: &[ArgKind],
    text: &[u8],
) -> Result<Option<Vec<Arg>>, AllocError>
    requires { 0 < length kinds.now }
    ensures { IfOk result (λ found. ReadsArguments kinds.now text.now found) }
{
    let [first, more @ ..] = kinds else {
        return Ok(None);
    };
    let (word, rest) = first_word(text);
    let mut args = Vec::with_capacity(alloc, kinds.len())?;
    if !add_arg(alloc, &mut args, *first, word)? {
        return Ok(None);
    }
    if !add_args(alloc, &mut args, more, rest)? {
        return Ok(None);
    }
    Ok(Some(args))
}

/// The verb of the call that the line spells, whose arguments are added to the list; otherwise nothing is added.
pub fn read_spoken(
    alloc: Global,
    line: &[u8],
    args: &mut Vec<Arg>,
) -> Result<Option<Verb>, AllocError>
    ensures { IfOk result (ReadsInto call_with spoken_text IsSpoken line.now args.old.items args.new.items) }
{
    let (word, rest) = first_word(line);
    let Some(verb) = read_verb(word) else {
        return Ok(None);
    };
    let before = args.as_slice().len();
    if !add_args(alloc, args, verb.kinds(), rest)? {
        args.truncate(before);
        return Ok(None);
    }
    Ok(Some(verb))
}

//! The words of a line.
ghost use Rattle.std.specs.Prelude.{◌≡◌, ◌++◌, ◌∷◌, ℕ, List, true, IfOk, IfSome, IfNone};
ghost use Rattle.text_words.specs.Lacks.{lacks};
ghost use Rattle.text_words.specs.Spoken.{IsRest};
ghost use Rattle.check_text.specs.Faults.{TellsArgument, TellsWorker};

use std::alloc::{AllocError, Global};
use text_words::spoken_calls::{ArgKind, read_arguments};
use text_words::{parted, read_name};

/// What stands before the first space, and the rest, which begins with that space or is empty.
pub fn first_word(text: &[u8]) -> (&[u8], &[u8])
    ensures parts { text.now ≡ result.0.now ++ result.1.now }
    ensures word { lacks 32 result.0.now ≡ true }
    ensures rest { IsRest result.1.now }
{
    match parted(text, b' ') {
        Some((word, _)) => text.split_at(word.len()),
        None => text.split_at(text.len()),
    }
}

/// The word after a space, and the rest, which begins with a space or is empty.
pub fn next_word(text: &[u8]) -> Option<(&[u8], &[u8])>
    ensures parts { IfSome result (λ r. text.now ≡ 32 ∷ (r.0.now ++ r.1.now)) }
    ensures word { IfSome result (λ r. lacks 32 r.0.now ≡ true) }
    ensures rest { IfSome result (λ r. IsRest r.1.now) }
    ensures none { IfNone result ((r : List ℕ) → text.now ≡ 32 ∷ r → ⊥) }
{
    match text {
        [b' ', after @ ..] => Some(first_word(after)),
        _ => None,
    }
}

/// Whether the word is an argument of a kind.
#[tactic(auto, using(crate::proofs::FaultLemmas::one_argument, crate::proofs::FaultLemmas::no_argument))]
pub fn is_argument(alloc: Global, kind: ArgKind, word: &[u8]) -> Result<bool, AllocError>
    ensures { IfOk result (TellsArgument kind word.now) }
{
    match read_arguments(alloc, &[kind], word)? {
        Some(_) => Ok(true),
        None => Ok(false),
    }
}

/// Whether the word says that its worker's batch goes on, where it is a worker with its colon.
pub fn batch_mark(word: &[u8]) -> Option<bool>
    ensures { TellsWorker word.now result }
{
    match word {
        [name @ .., b':'] if read_name(name).is_some() => Some(false),
        [name @ .., b':', b'+'] if read_name(name).is_some() => Some(true),
        _ => None,
    }
}

//! Numbers with a sign: a number, or `-` and a number that isn't 0.
ghost use Rattle.std.specs.Prelude.{◌≡◌, ◌-◌, ◌^◌, ◌≤◌, ◌++◌, ◌∷◌, ℕ, List, negsuc, OnOk, IfSome};
ghost use Rattle.std.specs.Prelude.{IfNone};
ghost use Rattle.text_words.specs.Reading.{Reads};
ghost use Rattle.text_words.specs.SignedWord.{signed_text, IsSigned};

use crate::numbers::{put_number, read_number};
use std::alloc::AllocError;

/// The number below 0 of this size.
fn negated(size: u64) -> i32
    requires some { 1 ≤ size }
    requires fits { size ≤ 2 ^ 31 }
    ensures { result ≡ negsuc (size - 1) }
{
    (-(size as i64)) as i32
}

/// What stands after a dash.
fn after_dash(word: &[u8]) -> Option<&[u8]>
    ensures some { IfSome result (λ r. word.now ≡ 45 ∷ r.now) }
    ensures none { IfNone result ((r : List ℕ) → word.now ≡ 45 ∷ r → ⊥) }
{
    match word {
        [b'-', digits @ ..] => Some(digits),
        _ => None,
    }
}

/// The number of 32 bits that the word spells.
pub fn read_signed(word: &[u8]) -> Option<i32>
    ensures { Reads signed_text IsSigned word.now result }
{
    let Some(digits) = after_dash(word) else {
        let Some(number) = read_number(word, i32::MAX as u64) else {
            return None;
        };
        return Some(number as i32);
    };
    let Some(size) = read_number(digits, 1 << 31) else {
        return None;
    };
    if size == 0 {
        return None;
    }
    Some(negated(size))
}

/// Adds the spelling of the number.
pub fn put_signed(out: &mut Vec<u8>, number: i32) -> Result<(), AllocError>
    ensures { OnOk result (out.new.items ≡ out.old.items ++ signed_text number) }
{
    if number < 0 {
        out.push(b'-')?;
    }
    put_number(out, u64::from(number.unsigned_abs()))
}

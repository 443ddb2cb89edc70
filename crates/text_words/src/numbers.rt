//! Numbers: decimal, with no sign and no leading zero but in `0` itself.
ghost use Rattle.std.specs.Prelude.{◌≡◌, ◌≤◌, ◌<◌, ◌+◌, ◌*◌, ◌^◌, ◌++◌, OnOk, IfSome, IfNone, decimal};
ghost use Rattle.std.specs.Char.{digit_value};
ghost use Rattle.std.specs.Str.Parse.{AllDigits, digits_value};
ghost use Rattle.text_words.specs.Reading.{Reads};

use itoa::Buffer;
use std::alloc::AllocError;

/// The number with the digit after its others, None where the byte is no digit or the number needs more than 64 bits.
fn with_digit(number: u64, byte: u8) -> Option<u64>
    ensures some { IfSome result (λ r. (digit_value byte < 10) × (r ≡ number * 10 + digit_value byte)) }
    ensures none { IfNone result (digit_value byte < 10 → 2 ^ 64 ≤ number * 10 + digit_value byte) }
{
    if byte < b'0' || byte > b'9' {
        return None;
    }
    let Some(tens) = number.checked_mul(10) else {
        return None;
    };
    tens.checked_add(u64::from(byte - b'0'))
}

/// The number of 64 bits that the digits write: 0 where there are none.
fn number_of(digits: &[u8]) -> Option<u64>
    ensures some { IfSome result (λ n. AllDigits 10 digits.now × (n ≡ digits_value 10 digits.now)) }
    ensures none { IfNone result (AllDigits 10 digits.now → 2 ^ 64 ≤ digits_value 10 digits.now) }
{
    let mut number = 0u64;
    for byte in digits {
        let Some(next) = with_digit(number, *byte) else {
            return None;
        };
        number = next;
    }
    Some(number)
}

/// The number up to `most` that the word spells.
pub fn read_number(word: &[u8], most: u64) -> Option<u64>
    ensures { Reads decimal (λ n. n ≤ most) word.now result }
{
    let [first, ..] = word else {
        return None;
    };
    if *first == b'0' && word.len() > 1 {
        return None;
    }
    let Some(number) = number_of(word) else {
        return None;
    };
    if number > most {
        return None;
    }
    Some(number)
}

/// Adds the spelling of the number.
pub fn put_number(out: &mut Vec<u8>, number: u64) -> Result<(), AllocError>
    ensures { OnOk result (out.new.items ≡ out.old.items ++ decimal number) }
{
    let mut buffer = Buffer::new();
    out.extend_from_slice(buffer.format(number).as_bytes())
}

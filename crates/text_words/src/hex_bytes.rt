//! Data: two digits a byte, in lower case, or `-` for no bytes.
ghost use Rattle.std.specs.Prelude.{◌≡◌, ◌<◌, ◌*◌, ◌++◌, ℕ, List, length, false, IsTrue, OnOk};
ghost use Rattle.std.specs.Prelude.{slice_index, IfSome, IfNone};
ghost use Rattle.hex.specs.Hex.{encode_lower, lower_digits, IsBytes};
ghost use Rattle.text_words.specs.Reading.{Reads};
ghost use Rattle.text_words.specs.DataWord.{data_text, IsData};

use crate::compared::is_same;
use base::Data;
use std::alloc::AllocError;

/// The value of each digit, by its code, and 16 for each byte that is no digit.
static VALUES: [u8; 256] = [
    16, 16, 16, 16, 16, 16, 16, 16, 16, 16, 16, 16, 16, 16, 16, 16, 16, 16, 16, 16, 16, 16, 16, 16,
    16, 16, 16, 16, 16, 16, 16, 16, 16, 16, 16, 16, 16, 16, 16, 16, 16, 16, 16, 16, 16, 16, 16, 16,
    0, 1, 2, 3, 4, 5, 6, 7, 8, 9, 16, 16, 16, 16, 16, 16, 16, 16, 16, 16, 16, 16, 16, 16, 16, 16,
    16, 16, 16, 16, 16, 16, 16, 16, 16, 16, 16, 16, 16, 16, 16, 16, 16, 16, 16, 16, 16, 16, 16, 10,
    11, 12, 13, 14, 15, 16, 16, 16, 16, 16, 16, 16, 16, 16, 16, 16, 16, 16, 16, 16, 16, 16, 16, 16,
    16, 16, 16, 16, 16, 16, 16, 16, 16, 16, 16, 16, 16, 16, 16, 16, 16, 16, 16, 16, 16, 16, 16, 16,
    16, 16, 16, 16, 16, 16, 16, 16, 16, 16, 16, 16, 16, 16, 16, 16, 16, 16, 16, 16, 16, 16, 16, 16,
    16, 16, 16, 16, 16, 16, 16, 16, 16, 16, 16, 16, 16, 16, 16, 16, 16, 16, 16, 16, 16, 16, 16, 16,
    16, 16, 16, 16, 16, 16, 16, 16, 16, 16, 16, 16, 16, 16, 16, 16, 16, 16, 16, 16, 16, 16, 16, 16,
    16, 16, 16, 16, 16, 16, 16, 16, 16, 16, 16, 16, 16, 16, 16, 16, 16, 16, 16, 16, 16, 16, 16, 16,
    16, 16, 16, 16, 16, 16, 16, 16, 16, 16, 16, 16, 16, 16,
];

/// The value of the digit: 0 to 15.
fn digit_value(digit: u8) -> Option<u8>
    ensures some { IfSome result (λ v. (v < 16) × (digit ≡ slice_index lower_digits v)) }
    ensures none { IfNone result ((v : ℕ) → v < 16 → digit ≡ slice_index lower_digits v → ⊥) }
{
    let value = VALUES[digit as usize];
    if value >= 16 {
        return None;
    }
    Some(value)
}

/// Writes the bytes that the word spells, two digits each, and answers whether it spells some.
fn decode(word: &[u8], out: &mut [u8]) -> bool
    requires { length word.now ≡ 2 * length out.old }
    ensures yes { IsTrue result → word.now ≡ encode_lower out.new }
    ensures no { result ≡ false → (v : List ℕ) → IsBytes v → word.now ≡ encode_lower v → ⊥ }
{
    for i in 0..out.len() {
        let Some(high) = digit_value(word[2 * i]) else {
            return false;
        };
        let Some(low) = digit_value(word[2 * i + 1]) else {
            return false;
        };
        out[i] = high * 16 + low;
    }
    true
}

/// Writes two digits a byte.
fn encode(bytes: &[u8], out: &mut [u8])
    requires { length out.old ≡ 2 * length bytes.now }
    ensures { out.new ≡ encode_lower bytes.now }
{
    let _ = hex::encode_to_slice(bytes, out);
}

/// The 0 to 64 bytes that the word spells.
pub fn read_data(word: &[u8]) -> Option<Data>
    ensures { Reads data_text IsData word.now result }
{
    if is_same(word, b"-") {
        return Some(Data::from_slice(&[]));
    }
    let len = word.len() / 2;
    if len == 0 || len > 64 {
        return None;
    }
    if word.len() != 2 * len {
        return None;
    }
    let mut room = [0u8; 64];
    let bytes = &mut room[..len];
    prove!(bytes.len() == len);
    if !decode(word, &mut *bytes) {
        return None;
    }
    Some(Data::from_slice(bytes))
}

/// Adds the spelling of the data.
pub fn put_data(out: &mut Vec<u8>, given: &Data) -> Result<(), AllocError>
    ensures { OnOk result (out.new.items ≡ out.old.items ++ data_text given.now) }
{
    let bytes = given.as_slice();
    if bytes.is_empty() {
        out.push(b'-')?;
        return Ok(());
    }
    let mut room = [0u8; 128];
    let text = &mut room[..2 * bytes.len()];
    prove!(text.len() == 2 * bytes.len());
    encode(bytes, &mut *text);
    out.extend_from_slice(text)
}

//! The numbers of lines that were written.
ghost use Rattle.std.specs.Prelude.{◌≡◌, ◌++◌, IfOk, OnOk};
ghost use Rattle.call_text.specs.Numbers.{next_digit, number_at, place_after, renumbered, shown_byte};

use base::NoMemory;
use std::alloc::Global;
use text_words::put_number;

/// Of line `number` of the exact form, from 1, the number of the line that was written, where these are kept for its lines.
pub fn number_at(numbers: &[u32], number: u32) -> u32
    ensures { result ≡ number_at numbers.now number }
{
    match numbers.get(number.saturating_sub(1) as usize) {
        Some(written) => *written,
        None => number,
    }
}

/// Where a byte stands in a line of output: in the worker's name, in the line's number, or after it.
#[derive(Clone, Copy, PartialEq, Eq)]
enum Place {
    Worker,
    Number(u32),
    Answer,
}

/// A number with one digit more, 2^32 - 1 where that is greater.
fn next_digit(number: u32, digit: u8) -> u32
    ensures { result ≡ next_digit number digit }
{
    number
        .saturating_mul(10)
        .saturating_add(u32::from(digit.saturating_sub(b'0')))
}

/// Where the next byte stands.
fn place_after(place: Place, byte: u8) -> Place
    ensures { result ≡ place_after place byte }
{
    match place {
        Place::Worker => if byte == b' ' {
            Place::Number(0)
        } else {
            Place::Worker
        },
        Place::Number(number) => if byte == b':' {
            Place::Answer
        } else {
            Place::Number(next_digit(number, byte))
        },
        Place::Answer => if byte == b'\n' {
            Place::Worker
        } else {
            Place::Answer
        },
    }
}

/// Adds what comes of a byte: of a digit of the number nothing, and of the colon after it the number that was written.
fn put_byte(out: &mut Vec<u8>, numbers: &[u32], place: Place, byte: u8) -> Result<(), NoMemory>
    ensures { OnOk result (out.new.items ≡ out.old.items ++ shown_byte numbers.now place byte) }
{
    if let Place::Number(number) = place {
        if byte != b':' {
            return Ok(());
        }
        put_number(out, u64::from(number_at(numbers, number)))?;
    }
    out.push(byte)?;
    Ok(())
}

/// What a run prints of the exact form, with the numbers of the lines that were written. Want of memory is the only error.
pub fn renumbered(alloc: Global, numbers: &[u32], output: Vec<u8>) -> Result<Vec<u8>, NoMemory>
    ensures { IfOk result (λ text. text.items ≡ renumbered numbers.now output.items) }
{
    if numbers.is_empty() {
        return Ok(output);
    }
    let mut text = Vec::with_capacity(alloc, output.len())?;
    let mut place = Place::Worker;
    for byte in output.as_slice() {
        put_byte(&mut text, numbers, place, *byte)?;
        place = place_after(place, *byte);
    }
    Ok(text)
}

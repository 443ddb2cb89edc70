//! A script as people write it.
ghost use Rattle.std.specs.Prelude.{◌≡◌, ◌++◌, IfOk, OnOk};
ghost use Rattle.call_text.specs.Scripts.{counts_from, kept_numbers, line_number, line_text, next_number, numbers_of, plain_text};

use crate::plain_scripts::lines::{is_silent, put_plain};
use base::NoMemory;
use std::alloc::Global;
use text_words::parted;

/// The exact form of a script.
#[derive(Drop)]
pub struct Plain {
    /// Its bytes.
    pub text: Vec<u8>,
    /// For each of its lines the number of the line that was written, from 1; none where each line has its own number.
    pub numbers: Vec<u32>,
}

/// Adds a line that was written, of which this is the number.
fn put_line(plain: &mut Plain, line: &[u8], number: u32) -> Result<(), NoMemory>
    ensures text { OnOk result (plain.new.text.items ≡ plain.old.text.items ++ line_text line.now) }
    ensures numbers { OnOk result (plain.new.numbers.items ≡ plain.old.numbers.items ++ line_number number line.now) }
{
    if is_silent(line) {
        return Ok(());
    }
    put_plain(&mut plain.text, line)?;
    plain.text.push(b'\n')?;
    plain.numbers.push(number)?;
    Ok(())
}

/// The number of the line after one, of 2^32 - 1 that number.
fn next_number(number: u32) -> u32
    ensures { result ≡ next_number number }
{
    number.saturating_add(1)
}

/// Adds each line of a text.
fn put_lines(plain: &mut Plain, bytes: &[u8]) -> Result<(), NoMemory>
    ensures text { OnOk result (plain.new.text.items ≡ plain.old.text.items ++ plain_text bytes.now) }
    ensures numbers { OnOk result (plain.new.numbers.items ≡ plain.old.numbers.items ++ numbers_of bytes.now) }
{
    let mut rest = bytes;
    let mut number = 1;
    while let Some((line, more)) = parted(rest, b'\n') {
        put_line(plain, line, number)?;
        number = next_number(number);
        rest = more;
    }
    put_line(plain, rest, number)?;
    Ok(())
}

/// Whether numbers count from 1.
fn count(numbers: &[u32]) -> bool
    ensures { result ≡ counts_from 1 numbers.now }
{
    let mut next = 1u64;
    for number in numbers {
        if u64::from(*number) != next {
            return false;
        }
        next += 1;
    }
    true
}

/// The exact form of a script. Want of memory is the only error.
pub fn plain_of(alloc: Global, bytes: &[u8]) -> Result<Plain, NoMemory>
    ensures text { IfOk result (λ plain. plain.text.items ≡ plain_text bytes.now) }
    ensures numbers { IfOk result (λ plain. plain.numbers.items ≡ kept_numbers bytes.now) }
{
    let mut plain = Plain {
        text: Vec::with_capacity(alloc, bytes.len())?,
        numbers: Vec::new(alloc),
    };
    put_lines(&mut plain, bytes)?;
    if count(plain.numbers.as_slice()) {
        plain.numbers.clear();
    }
    Ok(plain)
}

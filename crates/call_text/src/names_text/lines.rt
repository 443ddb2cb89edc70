//! Lines of a dump by names.
ghost use Rattle.std.specs.Prelude.{◌≡◌, ◌++◌, ◌∷◌, [], List, ℕ, IfOk, OnOk, decimal};
ghost use Rattle.std.specs.Str.{bytes_eq};
ghost use Rattle.call_text.specs.NameLines.{is_end, is_opening, is_said, meant_after, meant_before, named_line, named_word};

use crate::{Named, Value};
use base::NoMemory;
use itoa::Buffer;
use std::alloc::{AllocError, Global};
use text_words::put_name;

/// What a number of a line means.
#[derive(Clone, Copy, PartialEq, Eq)]
enum Meant {
    /// An object, behind a `#`.
    Object,
    /// A category, behind a `#`.
    Category,
    /// A thread, alone.
    Thread,
}

/// Whether a byte ends a word.
fn is_end(byte: u8) -> bool
    ensures { result ≡ is_end byte }
{
    byte == b' ' || byte == b',' || byte == b':' || byte == b'{' || byte == b'}'
}

/// Whether a thread comes after a word.
fn is_opening(word: &[u8]) -> bool
    ensures { result ≡ is_opening word.now }
{
    word == b"event".as_slice() || word == b"batch".as_slice() || word == b"read".as_slice()
}

/// What a number means after a word.
fn meant_after(word: &[u8]) -> Meant
    ensures { result ≡ meant_after word.now }
{
    if word == b"cat".as_slice() {
        return Meant::Category;
    }
    if is_opening(word) {
        return Meant::Thread;
    }
    Meant::Object
}

/// What a number means before the byte that ends it.
fn meant_before(byte: u8, meant: Meant) -> Meant
    ensures { result ≡ meant_before byte meant }
{
    if byte == b':' { Meant::Category } else { meant }
}

/// Whether a word is a number.
fn is_number(word: &[u8], number: u64) -> bool
    ensures { result ≡ bytes_eq word.now (decimal number) }
{
    let mut buffer = Buffer::new();
    word == buffer.format(number).as_bytes()
}

/// Whether a word is a number behind a `#`.
fn is_marked(word: &[u8], number: u64) -> bool
    ensures { result ≡ bytes_eq word.now (35 ∷ decimal number) }
{
    match word {
        [] => false,
        [first, digits @ ..] => *first == b'#' && is_number(digits, number),
    }
}

/// Whether a word is the number of a value.
fn is_said(meant: Meant, word: &[u8], value: &Value) -> bool
    ensures { result ≡ is_said meant word.now value.now }
{
    match (meant, value) {
        (Meant::Object, Value::Object(id)) => is_marked(word, id.number()),
        (Meant::Category, Value::Category(category)) => is_marked(word, category.0),
        (Meant::Thread, Value::Object(id)) => is_number(word, id.number()),
        _ => false,
    }
}

/// Adds a word: the first name of what it is the number of, or the word itself.
fn put_word(out: &mut Vec<u8>, names: &[Named], meant: Meant, word: &[u8]) -> Result<(), AllocError>
    ensures { OnOk result (out.new.items ≡ out.old.items ++ named_word names.now meant word.now) }
{
    for named in names {
        if is_said(meant, word, &named.value) {
            return put_name(out, &named.name);
        }
    }
    out.extend_from_slice(word)
}

/// A line of a dump that tells calls or a read, with a name in place of each number that has one: an object or a category behind
/// a `#`, or the thread that asks. Want of memory is the only error.
pub fn named_line(alloc: Global, line: &[u8], names: &[Named]) -> Result<Vec<u8>, NoMemory>
    ensures { IfOk result (λ text. text.items ≡ named_line names.now line.now) }
{
    let mut text = Vec::new(alloc);
    let mut word = Vec::new(alloc);
    let mut meant = Meant::Object;
    for byte in line {
        if is_end(*byte) {
            put_word(
                &mut text,
                names,
                meant_before(*byte, meant),
                word.as_slice(),
            )?;
            text.push(*byte)?;
            meant = meant_after(word.as_slice());
            word.clear();
        } else {
            word.push(*byte)?;
        }
    }
    put_word(&mut text, names, meant, word.as_slice())?;
    Ok(text)
}

/// A law, which does nothing when it is called: without names a line stays as it is.
pub fn lines_stay_without_names()
    ensures { (line : List ℕ) → named_line [] line ≡ line }
{}

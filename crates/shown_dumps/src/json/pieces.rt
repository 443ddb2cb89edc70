//! Lines and words as JSON.
ghost use Rattle.std.specs.Prelude.{◌≡◌, map, IfOk, encode_utf8_all, string_bytes};
ghost use Rattle.shown_dumps.specs.Json.{word_data, line_data, lines_data};
ghost use Rattle.shown_dumps.specs.Pieces.{lines_of, words_of};
ghost use Rattle.serde_json.specs.View.{view};

use serde_json::{Value, json, push};
use std::alloc::{AllocError, Global};
use text_words::parted;

/// A word, of which each byte is a character.
fn word_string(alloc: Global, word: &[u8]) -> Result<String, AllocError>
    ensures { IfOk result (λ text. string_bytes text ≡ encode_utf8_all word.now) }
{
    let mut text = String::new(alloc);
    for byte in word {
        text.push(char::from(*byte))?;
    }
    Ok(text)
}

/// A word as JSON. Want of memory is the only error.
pub fn word_value(alloc: Global, word: &[u8]) -> Result<Value, AllocError>
    ensures { IfOk result (λ value. view value ≡ word_data word.now) }
{
    Ok(Value::String(word_string(alloc, word)?))
}

/// The words of a line as JSON.
fn word_values(alloc: Global, line: &[u8]) -> Result<Vec<Value>, AllocError>
    ensures { IfOk result (λ values. map view values.items ≡ map word_data (words_of line.now)) }
{
    let mut values = Vec::new(alloc);
    let mut rest = line;
    'words: while let Some((word, more)) = parted(rest, b' ') {
        push(&mut values, word_value(alloc, word)?)?;
        rest = more;
    }
    push(&mut values, word_value(alloc, rest)?)?;
    Ok(values)
}

/// A line as JSON, with its number.
fn line_value(alloc: Global, number: u64, line: &[u8]) -> Result<Value, AllocError>
    ensures { IfOk result (λ value. view value ≡ line_data number line.now) }
{
    let words = Value::Array(word_values(alloc, line)?);
    json!(in alloc; {"line": number, "words": words})
}

/// The lines of a text as JSON, each with its number, from 1.
pub fn line_values(alloc: Global, text: &[u8]) -> Result<Vec<Value>, AllocError>
    ensures { IfOk result (λ values. map view values.items ≡ lines_data 1 (lines_of text.now)) }
{
    let mut values = Vec::new(alloc);
    let mut number = 1u64;
    let mut rest = text;
    'lines: while let Some((line, more)) = parted(rest, b'\n') {
        push(&mut values, line_value(alloc, number, line)?)?;
        number += 1;
        rest = more;
    }
    Ok(values)
}

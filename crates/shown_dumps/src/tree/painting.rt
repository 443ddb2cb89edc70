//! A tree in colours.
ghost use Rattle.std.specs.Prelude.{◌≡◌, ◌++◌, ℕ, List, IfOk, OnOk, take, drop, Some};
ghost use Rattle.std.specs.List.{flat_map};
ghost use Rattle.shown_dumps.specs.Colours.{style_code, piece_text, pieces_by, pieces_of, plain_of, coloured, coloured_if};

use crate::tree::colours::{Mark, Style, marks_of};
use base::NoMemory;
use std::alloc::Global;
use text_words::put_number;

/// A law, which does nothing when it is called: the pieces of a text, put together without their colours, are the text.
pub fn colours_are_beside()
    ensures { (text : List ℕ) → plain_of (pieces_of text) ≡ text }
{}

/// Adds what a terminal is told of a style.
fn put_style(out: &mut Vec<u8>, style: Style) -> Result<(), NoMemory>
    ensures { OnOk result (out.new.items ≡ out.old.items ++ style_code style) }
{
    match style {
        Style::Category(hue) => {
            out.extend_from_slice(b"[3")?;
            put_number(out, u64::from(hue) + 1)?;
            out.extend_from_slice(b"m")?;
        }
        Style::Strong => out.extend_from_slice(b"[1m")?,
    }
    Ok(())
}

/// Adds a word in its style.
fn put_word(out: &mut Vec<u8>, style: Style, word: &[u8]) -> Result<(), NoMemory>
    ensures { OnOk result (out.new.items ≡ out.old.items ++ piece_text (Some style, word.now)) }
{
    out.push(27)?;
    put_style(out, style)?;
    out.extend_from_slice(word)?;
    out.extend_from_slice(b"\x1b[0m")?;
    Ok(())
}

/// Adds what stands before a marked word, and the word in its style. The answer is what is left of the text.
#[tactic(auto, using(std::proofs::lemmas::List::take_min, std::proofs::lemmas::List::drop_min))]
fn put_marked<'a>(out: &mut Vec<u8>, mark: &Mark, text: &'a [u8]) -> Result<&'a [u8], NoMemory>
    ensures told { OnOk result (out.new.items ≡ out.old.items ++ take mark.now.plain text.now
        ++ piece_text (Some mark.now.style, take mark.now.length (drop mark.now.plain text.now))) }
    ensures rest { IfOk result (λ rest. rest.now ≡ drop mark.now.length (drop mark.now.plain text.now)) }
{
    let (before, from) = text.split_at(mark.plain.min(text.len()));
    let (word, after) = from.split_at(mark.length.min(from.len()));
    out.extend_from_slice(before)?;
    put_word(out, mark.style, word)?;
    Ok(after)
}

/// Adds a text, of which these words are marked.
fn put_pieces(out: &mut Vec<u8>, marks: &[Mark], text: &[u8]) -> Result<(), NoMemory>
    ensures { OnOk result (out.new.items
        ≡ out.old.items ++ flat_map piece_text (pieces_by marks.now text.now)) }
{
    let mut rest = text;
    for mark in marks {
        rest = put_marked(out, mark, rest)?;
    }
    out.extend_from_slice(rest)?;
    Ok(())
}

/// A text in colours.
fn painted(alloc: Global, text: &[u8]) -> Result<Vec<u8>, NoMemory>
    ensures { IfOk result (λ told. told.items ≡ coloured text.now) }
{
    let marks = marks_of(alloc, text)?;
    let mut told = Vec::new(alloc);
    put_pieces(&mut told, marks.as_slice(), text)?;
    Ok(told)
}

/// A text, in colours where they are wanted. Want of memory is the only error.
pub fn painted_if(alloc: Global, is_coloured: bool, text: Vec<u8>) -> Result<Vec<u8>, NoMemory>
    ensures { IfOk result (λ told. told.items ≡ coloured_if is_coloured text.items) }
{
    if is_coloured {
        painted(alloc, text.as_slice())
    } else {
        Ok(text)
    }
}

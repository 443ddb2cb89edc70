//! Which words of a tree have a colour.
ghost use Rattle.std.specs.Prelude.{◌≡◌, ◌++◌, ◌+◌, ◌<◌, ◌≤◌, ◌^◌, IfOk, OnOk, length, decimal};
ghost use Rattle.base.specs.Live.{has};
ghost use Rattle.text_words.specs.Name.{is_letter};
ghost use Rattle.shown_dumps.specs.Colours.{is_break, hue_from, is_exception, is_owns, is_strong, style_of, mark_of, plain_after, marks_of};

use base::NoMemory;
use std::alloc::Global;

/// How a word is shown.
#[derive(Clone, Copy, PartialEq, Eq, Debug)]
pub enum Style {
    /// The colour of a category, one of six, from 0: what is left of its number, divided by 6.
    Category(u8),
    /// Bold: that a category is owned, that a quota is fixed, that an object is read-only for good, or that a thread may delete it.
    Strong,
}

/// A word that has a style.
#[derive(Clone, Copy, PartialEq, Eq, Debug)]
pub struct Mark {
    /// How many bytes stand before it, after the word that is marked before it.
    pub plain: usize,
    /// Its length.
    pub length: usize,
    /// How it is shown.
    pub style: Style,
}

/// Whether a byte stands between words.
fn is_break(byte: u8) -> bool
    ensures { result ≡ is_break byte }
{
    byte == b' ' || byte == b',' || byte == b'{' || byte == b'}' || byte == b'\n'
}

/// The colour of the category that a word names: by the digits of its number, or by the bytes of its name, which count as digits.
fn hue_of(word: &[u8]) -> u8
    ensures hue { result ≡ hue_from 0 word.now }
    ensures bound { result < 6 }
{
    let mut hue = 0u16;
    for byte in word {
        if *byte == b':' {
            return hue as u8;
        }
        hue = (hue * 10 + u16::from(byte.saturating_sub(b'0'))) % 6;
    }
    hue as u8
}

/// Whether a text has a byte.
fn has(text: &[u8], byte: u8) -> bool
    ensures { result ≡ has text.now byte }
{
    text.iter().any(|one| byte == *one)
}

/// Whether a byte is a letter, with which a name begins.
fn is_letter(byte: u8) -> bool
    ensures { result ≡ is_letter byte }
{
    b'a' <= byte && byte <= b'z'
}

/// Whether a word is a category with its level.
fn is_exception(word: &[u8]) -> bool
    ensures { result ≡ is_exception word.now }
{
    match word {
        [] => false,
        [first, rest @ ..] => (*first == b'#' || is_letter(*first)) && has(rest, b':'),
    }
}

/// Whether a word tells that a category is owned.
fn is_owns(word: &[u8]) -> bool
    ensures { result ≡ is_owns word.now }
{
    word == b"owns".as_slice()
}

/// Whether a word is shown bold.
fn is_strong(word: &[u8]) -> bool
    ensures { result ≡ is_strong word.now }
{
    is_owns(word)
        || word == b"fixed".as_slice()
        || word == b"immutable".as_slice()
        || word == b"deletable".as_slice()
}

/// The style of a word, which stands after `owns` or not.
fn style_of(is_owned: bool, word: &[u8]) -> Option<Style>
    ensures { result ≡ style_of is_owned word.now }
{
    if is_strong(word) {
        return Some(Style::Strong);
    }
    if is_owned || is_exception(word) {
        return Some(Style::Category(hue_of(word)));
    }
    None
}

/// Adds the mark of a word, after so many bytes that have none.
fn put_mark(
    marks: &mut Vec<Mark>,
    style: Option<Style>,
    plain: usize,
    length: usize,
) -> Result<(), NoMemory>
    ensures { OnOk result (marks.new.items ≡ marks.old.items ++ mark_of style plain length) }
{
    if let Some(style) = style {
        marks.push(Mark {
            plain,
            length,
            style,
        })?;
    }
    Ok(())
}

/// How many bytes have no mark after a word and what ends it.
fn plain_after(style: Option<Style>, plain: usize, length: usize) -> usize
    requires { plain + length < 2 ^ 63 }
    ensures { result ≡ plain_after style plain length }
{
    match style {
        Some(_) => 1,
        None => plain + length + 1,
    }
}

/// The words of a text that have a style: each category with its level in its colour, each category that is owned, and in bold
/// `owns`, `fixed`, `immutable` and `deletable`. Want of memory is the only error.
pub fn marks_of(alloc: Global, text: &[u8]) -> Result<Vec<Mark>, NoMemory>
    ensures { IfOk result (λ marks. marks.items ≡ marks_of text.now) }
{
    let mut marks = Vec::new(alloc);
    let mut word = Vec::new(alloc);
    let mut is_owned = false;
    let mut plain = 0;
    for byte in text {
        if is_break(*byte) {
            let style = style_of(is_owned, word.as_slice());
            put_mark(&mut marks, style, plain, word.len())?;
            plain = plain_after(style, plain, word.len());
            is_owned = is_owns(word.as_slice());
            word.clear();
        } else {
            word.push(*byte)?;
        }
    }
    let style = style_of(is_owned, word.as_slice());
    put_mark(&mut marks, style, plain, word.len())?;
    Ok(marks)
}

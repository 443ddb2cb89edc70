//! Lines of trees as JSON.
ghost use Rattle.std.specs.Prelude.{◌≡◌, ◌+◌, map, drop, not, IfOk, IfSome};
ghost use Rattle.std.specs.Option.{option_map};
ghost use Rattle.std.specs.List.{list_any};
ghost use Rattle.std.specs.Str.{bytes_eq};
ghost use Rattle.base.specs.Live.{has};
ghost use Rattle.call_text.specs.ReplyWord.{value_text};
ghost use Rattle.call_text.specs.declared.known_names.Value.TheVariants.{Object as OfObject};
ghost use Rattle.shown_dumps.specs.Pieces.{lines_of};
ghost use Rattle.page_text.specs.Edits.{has_line, place_in};
ghost use Rattle.page_text.specs.Marked.{style_number, mark_data, after_spaces, first_word, is_of, line_data};
ghost use Rattle.serde_json.specs.View.{view};
ghost use Rattle.shown_dumps.specs.Colours.{marks_of};

use crate::first_lines::first_line;
use base::{NoMemory, ObjectId};
use call_text::Named;
use serde_json::{Value, json, push};
use shown_dumps::json::word_value;
use shown_dumps::states::put_value;
use shown_dumps::tree::{Mark, Style, marks_of};
use std::alloc::{AllocError, Global};
use text_words::parted;

/// Of which lines a step is made: those of the tree before, of which these objects are reached.
#[derive(Clone, Copy)]
pub struct Before<'a> {
    /// Where memory is from.
    pub alloc: Global,
    /// The names that are known.
    pub names: &'a [Named],
    /// The objects that are reached.
    pub reached: &'a [ObjectId],
    /// The tree before.
    pub tree: &'a [u8],
}

/// Whether a line is among those of a text.
pub fn has_line(text: &[u8], line: &[u8]) -> bool
    ensures { result ≡ has_line (lines_of text.now) line.now }
{
    let mut rest = text;
    'lines: while let Some((first, more)) = first_line(rest) {
        if first == line {
            return true;
        }
        rest = more;
    }
    false
}

/// How many lines of a text stand before a line, and what stands after it. None where it is not there.
pub fn find_line<'a>(text: &'a [u8], line: &[u8]) -> Option<(u64, &'a [u8])>
    ensures place { option_map (λ found. found.0) result ≡ place_in (lines_of text.now) line.now }
    ensures rest { IfSome result (λ found. lines_of found.1.now ≡ drop (found.0 + 1) (lines_of text.now)) }
{
    let mut count = 0u64;
    let mut rest = text;
    'lines: while let Some((first, more)) = first_line(rest) {
        if first == line {
            return Some((count, more));
        }
        count += 1;
        rest = more;
    }
    None
}

/// The number of a style.
fn style_number(style: Style) -> u64
    ensures { result ≡ style_number style }
{
    match style {
        Style::Category(hue) => u64::from(hue),
        Style::Strong => 6,
    }
}

/// A mark as JSON.
fn mark_value(alloc: Global, mark: &Mark) -> Result<Value, AllocError>
    ensures { IfOk result (λ value. view value ≡ mark_data mark.now) }
{
    let style = style_number(mark.style);
    json!(in alloc; [mark.plain as u64, mark.length as u64, style])
}

/// The marks of a line as JSON.
fn mark_values(alloc: Global, line: &[u8]) -> Result<Vec<Value>, NoMemory>
    ensures { IfOk result (λ values. map view values.items ≡ map mark_data (marks_of line.now)) }
{
    let marks = marks_of(alloc, line)?;
    let mut values = Vec::new(alloc);
    for mark in marks.as_slice() {
        push(&mut values, mark_value(alloc, mark)?)?;
    }
    Ok(values)
}

/// What stands after spaces.
fn after_spaces(text: &[u8]) -> &[u8]
    ensures { result.now ≡ after_spaces text.now }
{
    let mut rest = text;
    while let [b' ', more @ ..] = rest {
        rest = more;
    }
    rest
}

/// The first word of a line.
fn first_word(line: &[u8]) -> &[u8]
    ensures { result.now ≡ first_word line.now }
{
    let rest = after_spaces(line);
    match parted(rest, b' ') {
        Some((word, _)) => word,
        None => rest,
    }
}

/// The name of an object or a category, or its number, as a line has it.
pub fn named_word(
    alloc: Global,
    names: &[Named],
    value: &call_text::Value,
) -> Result<Vec<u8>, NoMemory>
    ensures { IfOk result (λ word. word.items ≡ value_text names.now value.now) }
{
    let mut word = Vec::new(alloc);
    put_value(&mut word, value, names)?;
    Ok(word)
}

/// Whether a line begins with the word of one of these objects.
fn begins_with_one(
    alloc: Global,
    names: &[Named],
    ids: &[ObjectId],
    line: &[u8],
) -> Result<bool, NoMemory>
    ensures { IfOk result (λ is_one. is_one
        ≡ list_any (λ id. bytes_eq (value_text names.now (OfObject id)) (first_word line.now)) ids.now) }
{
    let word = first_word(line);
    for id in ids {
        let own = named_word(alloc, names, &call_text::Value::Object(*id))?;
        if own.as_slice() == word {
            return Ok(true);
        }
    }
    Ok(false)
}

/// Whether a text has a comma.
fn has_comma(text: &[u8]) -> bool
    ensures { result ≡ has text.now 44 }
{
    text.iter().any(|byte| b',' == *byte)
}

/// Whether a line is that of one of these objects.
fn is_of(alloc: Global, names: &[Named], ids: &[ObjectId], line: &[u8]) -> Result<bool, NoMemory>
    ensures { IfOk result (λ is_one. is_one ≡ is_of names.now ids.now line.now) }
{
    let is_one = begins_with_one(alloc, names, ids, line)?;
    Ok(has_comma(line) && is_one)
}

/// A line as JSON. Want of memory is the only error.
pub fn line_value(before: &Before<'_>, line: &[u8]) -> Result<Value, NoMemory>
    ensures { IfOk result (λ value. view value
        ≡ line_data before.now.names.now before.now.reached.now before.now.tree.now line.now) }
{
    let alloc = before.alloc;
    let marks = Value::Array(mark_values(alloc, line)?);
    let is_new = !has_line(before.tree, line);
    let is_reached = is_of(alloc, before.names, before.reached, line)?;
    let text = word_value(alloc, line)?;
    Ok(json!(in alloc; {"marks": marks, "new": is_new, "reached": is_reached, "text": text})?)
}

//! What makes a tree of the one before it, as JSON.
ghost use Rattle.std.specs.Prelude.{◌≡◌, ◌+◌, ◌<◌, ◌^◌, ◌++◌, ◌∷◌, [], map, drop, IfOk, OnOk};
ghost use Rattle.shown_dumps.specs.Pieces.{lines_of};
ghost use Rattle.page_text.specs.Edits.{Edit, gone_for, place_in, edits_for, kept_after, old_after, edits};
ghost use Rattle.page_text.specs.Marked.{edit_data};
ghost use Rattle.serde_json.specs.View.{view};

use crate::first_lines::first_line;
use crate::lines::{Before, find_line, has_line, line_value};
use base::NoMemory;
use serde_json::{Value, json, push};

/// An edit that puts no line, as JSON.
fn gone_value(before: &Before<'_>, kept: u64, gone: u64) -> Result<Value, NoMemory>
    ensures { IfOk result (λ value. view value ≡ edit_data before.now.names.now before.now.reached.now before.now.tree.now
        (record { keep = kept; gone = gone; put = [] })) }
{
    Ok(json!(in before.alloc; [kept, gone])?)
}

/// An edit that puts a line, as JSON.
fn put_value(before: &Before<'_>, kept: u64, gone: u64, line: &[u8]) -> Result<Value, NoMemory>
    ensures { IfOk result (λ value. view value ≡ edit_data before.now.names.now before.now.reached.now before.now.tree.now
        (record { keep = kept; gone = gone; put = line.now ∷ [] })) }
{
    let line = line_value(before, line)?;
    Ok(json!(in before.alloc; [kept, gone, line])?)
}

/// How many old lines go for a new one, and what stands after them.
fn gone_for<'a>(old: &'a [u8], later: &[u8]) -> (u64, &'a [u8])
    ensures count { result.0 ≡ gone_for (lines_of old.now) (lines_of later.now) }
    ensures rest { lines_of result.1.now ≡ drop result.0 (lines_of old.now) }
{
    match first_line(old) {
        Some((line, rest)) => {
            if has_line(later, line) {
                (0, old)
            } else {
                (1, rest)
            }
        }
        None => (0, old),
    }
}

/// Adds the edits for a new line, which these come after. The answer is how many lines stay before the next edit, and what is
/// left of the old ones.
fn put_edit<'a>(
    values: &mut Vec<Value>,
    before: &Before<'_>,
    kept: u64,
    old: &'a [u8],
    line: &[u8],
    later: &[u8],
) -> Result<(u64, &'a [u8]), NoMemory>
    requires { kept < 2 ^ 63 }
    ensures edits { OnOk result (map view values.new.items ≡ map view values.old.items
        ++ map (edit_data before.now.names.now before.now.reached.now before.now.tree.now)
        (edits_for kept (lines_of old.now) line.now (lines_of later.now) (place_in (lines_of old.now) line.now))) }
    ensures kept { IfOk result (λ left. left.0 ≡ kept_after kept (place_in (lines_of old.now) line.now)) }
    ensures old { IfOk result (λ left. lines_of left.1.now
        ≡ old_after (lines_of old.now) (lines_of later.now) (place_in (lines_of old.now) line.now)) }
{
    match find_line(old, line) {
        Some((0, rest)) => Ok((kept + 1, rest)),
        Some((gone, rest)) => {
            push(values, gone_value(before, kept, gone)?)?;
            Ok((1, rest))
        }
        None => {
            let (gone, rest) = gone_for(old, later);
            push(values, put_value(before, kept, gone, line)?)?;
            Ok((0, rest))
        }
    }
}

/// The edits that make a tree of the one before it, as JSON. Want of memory is the only error.
pub fn edit_values(before: &Before<'_>, after: &[u8]) -> Result<Vec<Value>, NoMemory>
    ensures { IfOk result (λ values. map view values.items
        ≡ map (edit_data before.now.names.now before.now.reached.now before.now.tree.now)
        (edits 0 (lines_of before.now.tree.now) (lines_of after.now))) }
{
    let mut values = Vec::new(before.alloc);
    let mut kept = 0u64;
    let mut old = before.tree;
    let mut new = after;
    'lines: while let Some((line, later)) = first_line(new) {
        let left = put_edit(&mut values, before, kept, old, line, later)?;
        kept = left.0;
        old = left.1;
        new = later;
    }
    push(&mut values, gone_value(before, kept, 0)?)?;
    Ok(values)
}

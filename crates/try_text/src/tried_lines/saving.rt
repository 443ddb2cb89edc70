//! The script that a dialogue is saved as.
ghost use Rattle.std.specs.Prelude.{◌≡◌, ◌++◌, IfOk, OnOk};
ghost use Rattle.try_text.specs.Saved.{break_text, line_text, next_text, worker_after, saved_text};
ghost use Rattle.try_text.specs.Standing.{first_line};

use crate::tried_lines::kept::TriedLine;
use base::NoMemory;
use call_text::Line;
use text_words::spoken_calls::put_spoken;
use text_words::{Name, is_same, put_name};

/// Adds what parts a worker's line from the line before it.
fn put_break(out: &mut Vec<u8>, before: Option<Name>, worker: &Name) -> Result<(), NoMemory>
    ensures { OnOk result (out.new.items ≡ out.old.items ++ break_text before worker.now) }
{
    if let Some(before) = before {
        if !is_same(before.as_slice(), worker.as_slice()) {
            out.extend_from_slice(b"--\n")?;
        }
    }
    Ok(())
}

/// Adds a line, with the name that it bound. The error is want of memory.
pub fn put_line(out: &mut Vec<u8>, binds: Option<Name>, line: &Line<'_>) -> Result<(), NoMemory>
    ensures { OnOk result (out.new.items ≡ out.old.items ++ line_text binds line.now) }
{
    if let Some(name) = binds {
        put_name(out, &name)?;
        out.extend_from_slice(b" = ")?;
    }
    put_name(out, &line.worker)?;
    out.extend_from_slice(b": ")?;
    put_spoken(out, &line.call)?;
    Ok(())
}

/// Adds a kept line with its end, after another one, whose worker was this; and tells the worker of the last line so far.
fn put_next(
    out: &mut Vec<u8>,
    before: Option<Name>,
    kept: &TriedLine,
) -> Result<Option<Name>, NoMemory>
    ensures text { OnOk result (out.new.items
        ≡ out.old.items ++ next_text before kept.now.binds (first_line kept.now.script)) }
    ensures worker { IfOk result (λ worker. worker ≡ worker_after before (first_line kept.now.script)) }
{
    let Some(line) = kept.line() else {
        return Ok(before);
    };
    put_break(out, before, &line.worker)?;
    put_line(out, kept.binds, &line)?;
    out.push(b'\n')?;
    Ok(Some(line.worker))
}

/// Adds kept lines, one after another.
pub fn put_saved(out: &mut Vec<u8>, kept: &[TriedLine]) -> Result<(), NoMemory>
    ensures { OnOk result (out.new.items ≡ out.old.items ++ saved_text kept.now) }
{
    let mut before: Option<Name> = None;
    for one in kept {
        before = put_next(out, before, one)?;
    }
    Ok(())
}

//! What is told of a line.
ghost use Rattle.std.specs.Prelude.{◌≡◌, ◌++◌, OnOk};
ghost use Rattle.std.specs.Option.{option_copied};
ghost use Rattle.try_text.specs.Dialogues.{standing};
ghost use Rattle.try_text.specs.Tells.{named_text, told_text, AddsFault, AddsAnswer, undone_text};

use crate::tried_lines::{Dialogue, LineAnswer, TriedLine, put_line};
use base::NoMemory;
use call_text::put_reply;
use check_text::put_why;
use kernel_rules::Reply;
use text_words::{Name, put_name};

/// Adds a line with a name in it.
fn put_named(out: &mut Vec<u8>, before: &str, name: &Name, after: &str) -> Result<(), NoMemory>
    ensures { OnOk result (out.new.items ≡ out.old.items ++ named_text before.now name.now after.now) }
{
    out.extend_from_slice(before.as_bytes())?;
    put_name(out, name)?;
    out.extend_from_slice(after.as_bytes())?;
    Ok(())
}

/// Adds a reply, with the names that are known, as a line.
fn put_told(out: &mut Vec<u8>, talk: &Dialogue, reply: &Reply) -> Result<(), NoMemory>
    ensures { OnOk result (out.new.items ≡ out.old.items ++ told_text (standing talk.now).names reply.now) }
{
    put_reply(out, reply, &talk.standing().names())?;
    out.push(b'\n')?;
    Ok(())
}

/// Adds in one line why a text, line `number` of which is its first faulty one, is no line of a script.
fn put_fault(out: &mut Vec<u8>, text: &[u8], number: u32) -> Result<(), NoMemory>
    ensures { OnOk result (AddsFault text.now number out.old.items out.new.items) }
{
    let alloc = *out.allocator();
    let mut ended = Vec::from_slice(alloc, text)?;
    ended.push(b'\n')?;
    out.extend_from_slice(b"fault: ")?;
    put_why(alloc, out, ended.as_slice(), number)?;
    out.push(b'\n')?;
    Ok(())
}

/// Adds what came of a line, after which the dialogue is this.
pub fn put_answer(
    out: &mut Vec<u8>,
    text: &[u8],
    talk: &Dialogue,
    answer: &LineAnswer,
) -> Result<(), NoMemory>
    ensures { OnOk result (AddsAnswer text.now talk.now answer.now out.old.items out.new.items) }
{
    match answer {
        LineAnswer::Told(reply) => put_told(out, talk, reply),
        LineAnswer::Faulty(number) => put_fault(out, text, *number),
        LineAnswer::Rebound(name) => put_named(out, "fault: ", name, " is bound already\n"),
        LineAnswer::Unbound(name) => put_named(out, "unbound ", name, "\n"),
        LineAnswer::NoThread(name) => put_named(out, "fault: ", name, " is no live thread\n"),
        LineAnswer::Nothing => Ok(()),
        LineAnswer::Full => Ok(out.extend_from_slice(
            b"fault: a dialogue has at most 32,768 calls\n",
        )?),
    }
}

/// Adds the line that is taken back, or that there is none.
pub fn put_undone(out: &mut Vec<u8>, last: Option<&TriedLine>) -> Result<(), NoMemory>
    ensures { OnOk result (out.new.items ≡ out.old.items ++ undone_text (option_copied last.entry)) }
{
    let Some(kept) = last else {
        out.extend_from_slice(b"nothing to undo\n")?;
        return Ok(());
    };
    let Some(line) = kept.line() else {
        return Ok(());
    };
    out.extend_from_slice(b"undone: ")?;
    put_line(out, kept.binds, &line)?;
    out.push(b'\n')?;
    Ok(())
}

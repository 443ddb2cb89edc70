//! What a dialogue answers to a line.
ghost use Rattle.std.specs.Prelude.{◌≡◌, ◌++◌, IfOk, OnOk};
ghost use Rattle.try_text.specs.Responds.{help_text, Calls, Responds};
ghost use Rattle.shown_dumps.specs.Trees as trees;
ghost use Rattle.try_text.specs.Dialogues.{last_of, standing, undone};
ghost use Rattle.try_text.specs.Tells.{undone_text};
ghost use Rattle.try_text.specs.Words.{word_of};

use crate::telling::{put_answer, put_undone};
use crate::tried_lines::{Dialogue, full_line};
use crate::why::put_last_why;
use crate::words::{Word, word_of};
use base::NoMemory;
use call_text::plain_scripts::put_plain;
use kernel_rules::{Mapping, Reply};
use shown_dumps::tree::named_tree;

/// What can be said.
fn help_text() -> &'static str
    ensures { result.now ≡ help_text }
{
    "a line is a call, as in a script: [NAME =] [WORKER:] CALL ARGUMENTS, by boot where it names no worker\n\
    why        why the last call was answered so\n\
    tree       the objects, by name where they have one\n\
    undo       takes the last call back\n\
    save FILE  writes the calls as a script, which histar run plays\n\
    quit       ends\n"
}

/// Asks a line, and adds what came of it.
fn put_called(out: &mut Vec<u8>, talk: &mut Dialogue, line: &[u8]) -> Result<(), NoMemory>
    ensures { OnOk result (Calls line.now talk.old talk.new out.old.items out.new.items) }
{
    // (types that an answer has, which the proof names)
    let _reply: Option<Reply> = None;
    let _mapping: Option<Mapping> = None;
    let mut plain = Vec::new(talk.alloc());
    put_plain(&mut plain, line)?;
    let full = full_line(talk.alloc(), plain.as_slice())?;
    let answer = talk.take(full.as_slice())?;
    put_answer(out, full.as_slice(), talk, &answer)
}

/// Adds the objects.
fn put_tree(out: &mut Vec<u8>, talk: &Dialogue) -> Result<(), NoMemory>
    ensures { OnOk result (out.new.items ≡ out.old.items ++ trees.named_tree (standing talk.now).names (standing talk.now).state) }
{
    let standing = talk.standing();
    let text = named_tree(standing.state(), standing.names().named)?;
    out.extend_from_slice(text.as_slice())?;
    Ok(())
}

/// Takes the last line back, and adds which one that was.
fn put_undo(out: &mut Vec<u8>, talk: &mut Dialogue) -> Result<(), NoMemory>
    ensures talk { OnOk result (talk.new ≡ undone talk.old) }
    ensures text { OnOk result (out.new.items ≡ out.old.items ++ undone_text (last_of talk.old.lines)) }
{
    put_undone(out, talk.last())?;
    talk.undo()?;
    Ok(())
}

/// Adds what a dialogue answers to a line, without the line's end, and tells what word the line is. To one that saves or
/// ends it answers nothing: that is left to the caller. The error is want of memory.
pub fn respond(out: &mut Vec<u8>, talk: &mut Dialogue, line: &[u8]) -> Result<Word, NoMemory>
    ensures word { IfOk result (λ word. word ≡ word_of line.now) }
    ensures told { OnOk result (Responds (word_of line.now) line.now talk.old talk.new out.old.items out.new.items) }
{
    let word = word_of(line);
    match word {
        Word::Call => put_called(out, talk, line)?,
        Word::Undo => put_undo(out, talk)?,
        Word::Why => put_last_why(out, talk)?,
        Word::Tree => put_tree(out, talk)?,
        Word::Help => out.extend_from_slice(help_text().as_bytes())?,
        Word::Nothing | Word::Quit | Word::Save => {}
    }
    Ok(word)
}

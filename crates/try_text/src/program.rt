//! The program, over a reader, a sink and a writer.
ghost use Rattle.std.specs.Io.BufRead.{take_through, DropsThrough};
ghost use Rattle.std.specs.Io.KnownBytes.{Appends};
ghost use Rattle.std.specs.Prelude.{◌≡◌, ◌++◌, ℕ, List, Bool, IfOk, IfSome, OnOk};
ghost use Rattle.try_text.specs.Dialogues.{begun, Talk};
ghost use Rattle.try_text.specs.Printed.{IsBeforeEnd, goes_on, saved_text, Adds, Prints};
ghost use Rattle.try_text.specs.Talks.{prompt, HasLine, Talks};
ghost use Rattle.try_text.specs.Words.{word_of};

use crate::responding::respond;
use crate::tried_lines::Dialogue;
use crate::words::{Word, path_in};
use base::{Limits, NoMemory};
use program_io::{Fault, Sink, beside, deliver, input_fault, put_file};
use std::io::{BufRead, Write};
use std::rt::Files;
use std::str;

/// The program's name, with which its lines on standard error begin.
pub const NAME: &str = "histar try";

/// The line without its end.
fn without_end(line: &[u8]) -> &[u8]
    ensures { IsBeforeEnd line.now result.now }
{
    match line {
        [before @ .., b'\n'] => before,
        _ => line,
    }
}

/// Reads a line with its end, and tells whether there was one.
fn has_line<I: BufRead>(input: &mut I, line: &mut Vec<u8>) -> Result<bool, Fault>
    ensures line { OnOk result (IfSome (I.remaining input.old)
        (λ bytes. line.new.items ≡ take_through 10 bytes)) }
    ensures rest { OnOk result (DropsThrough (I.remaining input.old) (I.remaining input.new) 10) }
    ensures end { IfOk result (λ has. IfSome (I.remaining input.old) (HasLine has)) }
{
    line.clear();
    match input.read_until(b'\n', line) {
        Ok(count) => Ok(count > 0),
        Err(error) => Err(input_fault(&error)),
    }
}

/// Writes the script that a dialogue is saved as to a file, and tells whether that was done.
fn is_saved<R: Files>(rt: &R, talk: &Dialogue, path: &[u8]) -> Result<bool, NoMemory> {
    let Ok(path) = str::from_utf8(path) else {
        return Ok(false);
    };
    let beside = beside(talk.alloc(), path)?;
    let saved = talk.saved()?;
    Ok(put_file(rt, path, beside.as_str(), saved.as_slice()).is_ok())
}

/// What is told of a dialogue that was saved, or could not be.
fn saved_text(is_saved: bool) -> &'static str
    ensures { result.now ≡ saved_text is_saved }
{
    if is_saved {
        "saved\n"
    } else {
        "fault: the file can't be written\n"
    }
}

/// Saves a dialogue, and adds what is told of that.
fn put_saved<R: Files>(
    text: &mut Vec<u8>,
    rt: &R,
    talk: &Dialogue,
    path: &[u8],
) -> Result<(), NoMemory>
    ensures { OnOk result ((saved : Bool) × (text.new.items ≡ text.old.items ++ saved_text saved)) }
{
    let saved = is_saved(rt, talk, path)?;
    text.extend_from_slice(saved_text(saved).as_bytes())?;
    Ok(())
}

/// Adds what is told after the answer to a line of this word: of one that saves, whether that was done.
fn put_after<R: Files>(
    text: &mut Vec<u8>,
    rt: &R,
    talk: &Dialogue,
    word: Word,
    line: &[u8],
) -> Result<(), NoMemory>
    ensures { OnOk result ((more : List ℕ) × Adds word more × (text.new.items ≡ text.old.items ++ more)) }
{
    match word {
        Word::Save => put_saved(text, rt, talk, path_in(line)),
        _ => Ok(()),
    }
}

/// Answers a line, and tells whether the dialogue goes on.
fn answer<R: Files, S: Sink>(
    rt: &R,
    talk: &mut Dialogue,
    line: &[u8],
    out: &mut S,
) -> Result<bool, Fault>
    ensures goes_on { IfOk result (λ on. on ≡ goes_on (word_of line.now)) }
    ensures told { OnOk result (Prints line.now talk.old talk.new (S.contents out.old) (S.contents out.new)) }
{
    let mut text = Vec::new(talk.alloc());
    let word = respond(&mut text, talk, line)?;
    put_after(&mut text, rt, talk, word, line)?;
    deliver(out, text.as_slice())?;
    Ok(word != Word::Quit)
}

/// Asks for a line, where the dialogue has a prompt.
fn ask<S: Sink>(is_asked: bool, out: &mut S) -> Result<(), Fault>
    ensures { OnOk result (Appends (S.contents out.old) (S.contents out.new) (prompt is_asked)) }
{
    if is_asked {
        deliver(out, b"> ")
    } else {
        deliver(out, b"")
    }
}

/// Answers lines one by one, until the input ends or a line ends the dialogue. An input that never ends is an input fault.
fn talk_on<R: Files, I: BufRead, S: Sink>(
    rt: &R,
    talk: &mut Dialogue,
    is_asked: bool,
    input: &mut I,
    out: &mut S,
) -> Result<(), Fault>
    ensures { OnOk result (IfSome (I.remaining input.old)
        (λ bytes. Talks is_asked bytes talk.old talk.new (S.contents out.old) (S.contents out.new))) }
{
    let mut line = Vec::new(talk.alloc());
    for _ in 0..u64::MAX {
        ask(is_asked, out)?;
        if !has_line(input, &mut line)? {
            return Ok(());
        }
        if !answer(rt, talk, without_end(line.as_slice()), out)? {
            return Ok(());
        }
    }
    Err(Fault::Input)
}

/// A dialogue with a newly booted kernel: answers the lines that a reader gives, each before the next one is read, until
/// they end or one of them is `quit`. Where `is_asked`, `> ` asks for each line. The answer is the status: 0 where the
/// dialogue ended so. Else one line on `err` tells why it ended, with status 3 where a line can't be read or an answer can't
/// be written, 4 where there was no memory.
pub fn try_on<R: Files + AllocGlobal, I: BufRead, S: Sink, E: Write>(
    rt: &R,
    limits: &Limits,
    is_asked: bool,
    input: &mut I,
    out: &mut S,
    err: &mut E,
) -> u8
    ensures { result ≡ 0 → IfSome (I.remaining input.old) (λ bytes. (last : Talk)
        × Talks is_asked bytes (begun limits.now) last (S.contents out.old) (S.contents out.new)) }
{
    let mut talk = match Dialogue::begin(rt.alloc(), limits) {
        Ok(talk) => talk,
        Err(fault) => return Fault::from(fault).tell(NAME, err),
    };
    match talk_on(rt, &mut talk, is_asked, input, out) {
        Ok(()) => 0,
        Err(fault) => fault.tell(NAME, err),
    }
}

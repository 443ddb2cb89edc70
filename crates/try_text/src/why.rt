//! Why the last call was answered as it was.
ghost use Rattle.std.specs.Prelude.{◌≡◌, ◌++◌, IfOk, OnOk, false};
ghost use Rattle.std.specs.List.{flat_map};
ghost use Rattle.plain_state.specs.StateOf.{state_of};
ghost use Rattle.shown_dumps.specs.Parts.{condition_text};
ghost use Rattle.try_text.specs.Why.{findings_of, why_asked, why_line, why_text};

use crate::tried_lines::{Dialogue, Question, Standing, TriedLine, put_line};
use base::{Meter, NoMemory};
use call_text::{Asked, Named};
use explained::{Finding, explain, explain_query};
use kernel_rules::Mapping;
use label_lattice::Label;
use plain_state::PlainState;
use shown_dumps::why::{put_findings, put_head};

/// The conditions of what is asked.
fn findings(state: &PlainState, question: &Question) -> Result<Vec<Finding>, NoMemory>
    ensures { IfOk result (λ found. found.items ≡ findings_of (state_of state.now) question.now) }
{
    match &question.asked {
        Asked::Write(call) => explain(state, question.thread, call),
        Asked::Read(query) => explain_query(state, question.thread, query),
    }
}

/// The reasons of a refusal of what is asked, in words.
fn findings_text(
    state: &PlainState,
    question: &Question,
    names: &[Named],
    meter: &mut Meter,
) -> Result<Vec<u8>, NoMemory>
    ensures { IfOk result (λ text. text.items
        ≡ flat_map (condition_text names.now false) (findings_of (state_of state.now) question.now)) }
{
    // (types that a finding has, which the proof of its drop names)
    let _label: Option<Label> = None;
    let _mapping: Option<Mapping> = None;
    let found = findings(state, question)?;
    let mut text = Vec::new(state.alloc());
    put_findings(&mut text, false, found.as_slice(), names, meter)?;
    Ok(text)
}

/// Adds a line, what the rules answer to it, and the reasons of a refusal.
fn put_asked(
    out: &mut Vec<u8>,
    before: Standing,
    said: &[u8],
    question: &Question,
    names: &[Named],
) -> Result<(), NoMemory>
    ensures { OnOk result (out.new.items ≡ out.old.items ++ why_asked names.now before said.now question.now) }
{
    // (a type that a reply has, which the proof names)
    let _mapping: Option<Mapping> = None;
    let mut before = before;
    let mut meter = Meter::new(*out.allocator())?;
    let told = findings_text(before.state(), question, names, &mut meter)?;
    let reply = before.answer(&None, question, &mut meter)?;
    put_head(out, said, &reply, names)?;
    out.extend_from_slice(told.as_slice())?;
    Ok(())
}

/// Adds why a kept line is answered as it is, where it is asked there.
fn put_line_why(
    out: &mut Vec<u8>,
    before: Standing,
    kept: &TriedLine,
    names: &[Named],
) -> Result<(), NoMemory>
    ensures { OnOk result (out.new.items ≡ out.old.items ++ why_line names.now before kept.now) }
{
    let Some(line) = kept.line() else {
        return Ok(());
    };
    let Ok(question) = before.question(&line) else {
        return Ok(());
    };
    let mut said = Vec::new(*out.allocator());
    put_line(&mut said, kept.binds, &line)?;
    put_asked(out, before, said.as_slice(), &question, names)
}

/// Adds why the last line was answered as it was. The error is want of memory.
pub fn put_last_why(out: &mut Vec<u8>, talk: &Dialogue) -> Result<(), NoMemory>
    ensures { OnOk result (out.new.items ≡ out.old.items ++ why_text talk.now) }
{
    let Some(kept) = talk.last() else {
        out.extend_from_slice(b"no call was made\n")?;
        return Ok(());
    };
    let before = talk.before_last()?;
    put_line_why(out, before, kept, talk.standing().names().named)
}

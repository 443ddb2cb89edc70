//! The lines that an audit prints.
ghost use Rattle.std.specs.Prelude.{◌≡◌, ◌==◌, ◌&&◌, ◌++◌, length, IfOk, OnOk};
ghost use Rattle.std.specs.List.{flat_map};
ghost use Rattle.histar_audit.specs.Told.{answered, changes_text, flows_text, line_if, reached_line, told_text};

use crate::audit_program::differences::put_differences;
use auditor::{Verdict, put_verdict};
use base::{NoMemory, ObjectId};
use call_text::{Known, NameList, Named, Value};
use hidden_replies::Difference;
use std::alloc::Global;
use text_words::{put_name, put_number};

/// What is told of a dump after its verdict.
#[derive(Clone, Copy)]
pub struct Answers<'a> {
    /// Whether the dump begins at a checkpoint after the boot, which was taken as it stands.
    pub begins_later: bool,
    /// Whether it is told what flows reach.
    pub flows: bool,
    /// The objects that they reach.
    pub reached: &'a [ObjectId],
    /// Whether it is told what hidden threads changed.
    pub hidden: bool,
    /// The replies that they changed.
    pub told: &'a [Difference],
}

/// Adds the line of an object that is reached: by the first name that is bound to it, or by its number.
fn put_object(text: &mut Vec<u8>, id: ObjectId, names: &[Named]) -> Result<(), NoMemory>
    ensures { OnOk result (text.new.items ≡ text.old.items ++ reached_line names.now id) }
{
    text.extend_from_slice(b"reaches ")?;
    match (NameList { named: names }).name_of(&Value::Object(id)) {
        Some(name) => put_name(text, &name)?,
        None => put_number(text, id.number())?,
    }
    text.push(b'\n')?;
    Ok(())
}

/// Adds a line for each object that is reached.
fn put_reached(text: &mut Vec<u8>, reached: &[ObjectId], names: &[Named]) -> Result<(), NoMemory>
    ensures { OnOk result (text.new.items ≡ text.old.items ++ flat_map (reached_line names.now) reached.now) }
{
    for id in reached {
        put_object(text, *id, names)?;
    }
    Ok(())
}

/// Whether lines are asked for, and there is none.
fn is_none(asked: bool, count: usize) -> bool
    ensures { result ≡ (asked && count == 0) }
{
    asked && count == 0
}

/// Adds a line where something holds.
fn put_if(text: &mut Vec<u8>, holds: bool, line: &[u8]) -> Result<(), NoMemory>
    ensures { OnOk result (text.new.items ≡ text.old.items ++ line_if holds line.now) }
{
    if holds {
        text.extend_from_slice(line)?;
    }
    Ok(())
}

/// Adds the lines of what flows reach, where that is asked for.
fn put_flows(text: &mut Vec<u8>, answers: &Answers<'_>, names: &[Named]) -> Result<(), NoMemory>
    ensures { OnOk result (text.new.items ≡ text.old.items ++ flows_text names.now (answered answers.now)) }
{
    let none = is_none(answers.flows, answers.reached.len());
    put_reached(text, answers.reached, names)?;
    put_if(text, none, b"reaches nothing\n")
}

/// Adds those of what hidden threads changed.
fn put_changes(text: &mut Vec<u8>, answers: &Answers<'_>, names: &[Named]) -> Result<(), NoMemory>
    ensures { OnOk result (text.new.items ≡ text.old.items ++ changes_text names.now (answered answers.now)) }
{
    let none = is_none(answers.hidden, answers.told.len());
    put_differences(text, answers.told, names)?;
    put_if(text, none, b"no reply differs\n")
}

/// The line of a verdict. After it one that says that the dump begins at a checkpoint after the boot, where it does; one for each object
/// that is reached, and one for each reply that differs. Where they are asked for and there is none, a line says so.
pub fn text_of(
    alloc: Global,
    verdict: Verdict,
    answers: &Answers<'_>,
    names: &[Named],
) -> Result<Vec<u8>, NoMemory>
    ensures { IfOk result (λ text. text.items ≡ told_text names.now verdict (answered answers.now)) }
{
    let mut text = Vec::new(alloc);
    put_verdict(&mut text, verdict)?;
    put_if(&mut text, answers.begins_later, b"from its checkpoint\n")?;
    put_flows(&mut text, answers, names)?;
    put_changes(&mut text, answers, names)?;
    Ok(text)
}

//! A script on both machines.
mod arena;
mod compared;
mod plain;
mod rows;
mod storm;

use arena::{Replies, asked_again};
use base::{Limits, NoMemory};
use call_text::{Script, ScriptError, read_script};
use compared::{differing_step, put_steps};
use happy_calls::samples::are_equal;
use plain::{Played, play};
use program_io::{Fault, bytes_of};
use std::alloc::Global;
use std::io::{Read, Write};
use storm::parted;

/// What is told of a script.
#[derive(Clone, Copy)]
enum Outcome {
    /// Both machines answer and keep the same.
    Same,
    /// The first line that they answer otherwise, by its number.
    Differs(u32),
    /// They answer the same, and keep other tables.
    OtherTables,
    /// The arena kernel keeps other rows of translation than its tables show.
    OtherRows,
    /// They keep something else after a line, by its number.
    Parted(u32),
}

fn script_of<I: Read>(alloc: Global, input: &mut I) -> Result<Script, Fault> {
    let bytes = bytes_of(alloc, input)?;
    match read_script(alloc, bytes.as_slice()) {
        Ok(script) => Ok(script),
        Err(ScriptError::Memory) => Err(Fault::Memory),
        Err(ScriptError::Line(_)) => Err(Fault::Input),
    }
}

fn told_of(alloc: Global, played: &Played, replies: &Replies) -> Result<Outcome, NoMemory> {
    if let Some(number) = differing_step(alloc, played, replies)? {
        return Ok(Outcome::Differs(number));
    }
    if !are_equal(&played.tables, &replies.tables) {
        Ok(Outcome::OtherTables)
    } else if !replies.keeps_rows {
        Ok(Outcome::OtherRows)
    } else {
        Ok(Outcome::Same)
    }
}

/// What is told of two new kernels that make the calls beside each other, and are compared after so many lines each.
fn told_every(
    alloc: Global,
    played: &Played,
    limits: &Limits,
    every: Option<u64>,
) -> Result<Outcome, NoMemory> {
    let Some(every) = every else {
        return Ok(Outcome::Same);
    };
    match parted(alloc, limits, played.steps.as_slice(), every)? {
        None => Ok(Outcome::Same),
        Some(number) => Ok(Outcome::Parted(number)),
    }
}

/// Plays a script on both machines, and prints what the arena kernel answers.
fn compare<I: Read>(
    rt: &HostRuntime,
    alloc: Global,
    input: &mut I,
    limits: &Limits,
    every: Option<u64>,
) -> Result<Outcome, Fault> {
    let script = script_of(alloc, input)?;
    let played = play(alloc, &script, limits)?;
    let replies = asked_again(rt, alloc, played.steps.as_slice(), limits)?;
    let text = put_steps(alloc, &played, &replies)?;
    if rt.stdout().write_all(text.as_slice()).is_err() {
        return Err(Fault::Output);
    }
    let told = match told_of(alloc, &played, &replies)? {
        Outcome::Same => told_every(alloc, &played, limits, every)?,
        told => told,
    };
    Ok(told)
}

/// Says whether the plain machine answers the same, and if not, what differs first.
fn say(rt: &HostRuntime, told: Outcome) -> Result<(), Fault> {
    let said = match told {
        Outcome::Same => println!(rt; "same"),
        Outcome::Differs(line) => println!(rt; "line {line} differs"),
        Outcome::OtherTables => println!(rt; "the tables differ"),
        Outcome::OtherRows => println!(rt; "the kept rows differ"),
        Outcome::Parted(line) => println!(rt; "after line {line} they keep something else"),
    };
    match said {
        Ok(()) => Ok(()),
        Err(_) => Err(Fault::Output),
    }
}

/// Plays what an input gives on both machines, and answers the status: 0 where they are the same, 1 where they aren't, and
/// that of a fault. What they keep is compared at the end, and after so many lines each where that is asked for.
pub fn ended<I: Read>(rt: &HostRuntime, input: &mut I, limits: &Limits, every: Option<u64>) -> u8 {
    let told = match compare(rt, rt.alloc(), input, limits, every) {
        Ok(told) => told,
        Err(fault) => return fault.tell(crate::NAME, &mut rt.stderr()),
    };
    match (say(rt, told), told) {
        (Ok(()), Outcome::Same) => 0,
        (Ok(()), _) => 1,
        (Err(fault), _) => fault.tell(crate::NAME, &mut rt.stderr()),
    }
}

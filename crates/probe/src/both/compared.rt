//! What both machines answered, beside each other.
use super::arena::Replies;
use super::plain::{Played, Step};
use base::NoMemory;
use call_text::{NameList, put_reply};
use plain_core::Reply;
use std::alloc::Global;
use text_words::{put_name, put_number};

fn put_step(
    out: &mut Vec<u8>,
    step: &Step,
    reply: &Reply,
    names: &NameList<'_>,
) -> Result<(), NoMemory> {
    put_name(out, &step.worker)?;
    out.push(b' ')?;
    put_number(out, u64::from(step.number))?;
    out.extend_from_slice(b": ")?;
    put_reply(out, reply, names)?;
    out.push(b'\n')?;
    Ok(())
}

fn step_text(
    alloc: Global,
    step: &Step,
    reply: &Reply,
    names: &NameList<'_>,
) -> Result<Vec<u8>, NoMemory> {
    let mut text = Vec::new(alloc);
    put_step(&mut text, step, reply, names)?;
    Ok(text)
}

/// The lines that the arena kernel's replies print.
pub fn put_steps(alloc: Global, played: &Played, replies: &Replies) -> Result<Vec<u8>, NoMemory> {
    let names = NameList {
        named: played.names.as_slice(),
    };
    let mut out = Vec::new(alloc);
    for (step, reply) in played.steps.iter().zip(&replies.replies) {
        put_step(&mut out, step, reply, &names)?;
    }
    Ok(out)
}

/// The number of the first line to which the machines print different replies, if there is one.
pub fn differing_step(
    alloc: Global,
    played: &Played,
    replies: &Replies,
) -> Result<Option<u32>, NoMemory> {
    let names = NameList {
        named: played.names.as_slice(),
    };
    for (step, reply) in played.steps.iter().zip(&replies.replies) {
        let one = step_text(alloc, step, &step.reply, &names)?;
        let other = step_text(alloc, step, reply, &names)?;
        if one.as_slice() != other.as_slice() {
            return Ok(Some(step.number));
        }
    }
    Ok(None)
}

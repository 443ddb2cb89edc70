//! Events of one call, and calls with their replies.
ghost use Rattle.std.specs.Prelude.{◌≡◌, ◌++◌, ◌∷◌, [], ℕ, List, true, IfOk, OnOk, IfSome, IfNone};
ghost use Rattle.std.specs.Prelude.{codes};
ghost use Rattle.text_words.specs.Lacks.{lacks};
ghost use Rattle.dump_text.specs.Making.{Fills};
ghost use Rattle.dump_text.specs.Event.{answered_text, IsAnswered, single_text, IsSingle};
ghost use Rattle.dump_text.specs.Fits.{FitsAnswered, FitsSingle};

use crate::calls::{put_call, read_call};
use crate::reports::{put_report, read_report};
use crate::stripping::after;
use base::{NoMemory, ObjectId};
use call_text::parted;
use kernel_rules::histories::Answered;
use std::alloc::{AllocError, Global};
use text_words::{put_number, read_number};

/// An event of one call.
#[derive(Clone, Copy)]
pub struct Single {
    /// The thread that called.
    pub thread: ObjectId,
    /// Which of its thread's events it is, from 1.
    pub number: u64,
    /// The call, and what it was answered.
    pub answered: Answered,
}

/// What stands before a last space.
fn before_space(text: &[u8]) -> Option<&[u8]>
    ensures some { IfSome result (λ r. text.now ≡ r.now ++ 32 ∷ []) }
    ensures none { IfNone result ((r : List ℕ) → text.now ≡ r ++ 32 ∷ [] → ⊥) }
{
    match text {
        [before @ .., b' '] => Some(before),
        _ => None,
    }
}

/// A call without an equals sign, and after ` => ` its reply.
pub fn call_and_reply(text: &[u8]) -> Option<(&[u8], &[u8])>
    ensures parts { IfSome result (λ r. text.now ≡ r.0.now ++ codes " => " ++ r.1.now) }
    ensures lacks { IfSome result (λ r. lacks 61 r.0.now ≡ true) }
    ensures none { IfNone result ((call reply : List ℕ) → lacks 61 call ≡ true
        → text.now ≡ call ++ codes " => " ++ reply → ⊥) }
{
    let Some((before, behind)) = parted(text, b'=') else {
        return None;
    };
    let Some(call) = before_space(before) else {
        return None;
    };
    let Some(reply) = after(behind, b"> ") else {
        return None;
    };
    Some((call, reply))
}

/// Fills in the call and the reply that the text spells, and tells whether it spells them.
pub fn read_answered(
    alloc: Global,
    text: &[u8],
    answered: &mut Answered,
) -> Result<bool, AllocError>
    ensures { IfOk result (λ yes. Fills answered_text IsAnswered text.now answered.new yes) }
{
    let Some((call, reply)) = call_and_reply(text) else {
        return Ok(false);
    };
    let Some(reply) = read_report(reply) else {
        return Ok(false);
    };
    let Some(call) = read_call(alloc, call)? else {
        return Ok(false);
    };
    *answered = Answered { call, reply };
    Ok(true)
}

/// Fills in the event that the text spells, and tells whether it spells one.
pub fn read_single(alloc: Global, text: &[u8], event: &mut Single) -> Result<bool, AllocError>
    ensures { IfOk result (λ yes. Fills single_text IsSingle text.now event.new yes) }
{
    let Some((thread, more)) = parted(text, b' ') else {
        return Ok(false);
    };
    let Some((number, more)) = parted(more, b' ') else {
        return Ok(false);
    };
    let Some(thread) = read_number(thread, u64::MAX) else {
        return Ok(false);
    };
    let Some(number) = read_number(number, u64::MAX) else {
        return Ok(false);
    };
    event.thread = ObjectId::new(thread);
    event.number = number;
    if !read_answered(alloc, more, &mut event.answered)? {
        return Ok(false);
    }
    Ok(true)
}

/// Adds the spelling of the call and its reply, whose parts are in their ranges by their types.
pub fn put_answered(out: &mut Vec<u8>, answered: &Answered) -> Result<(), NoMemory>
    ensures text { OnOk result (out.new.items ≡ out.old.items ++ answered_text answered.now) }
    ensures fits { OnOk result (FitsAnswered answered.now) }
{
    put_call(out, &answered.call)?;
    out.extend_from_slice(b" => ")?;
    put_report(out, &answered.reply)?;
    Ok(())
}

/// Adds the spelling of the event, whose parts are in their ranges by their types.
pub fn put_single(out: &mut Vec<u8>, event: &Single) -> Result<(), NoMemory>
    ensures text { OnOk result (out.new.items ≡ out.old.items ++ single_text event.now) }
    ensures fits { OnOk result (FitsSingle event.now) }
{
    put_number(out, event.thread.number())?;
    out.push(b' ')?;
    put_number(out, event.number)?;
    out.push(b' ')?;
    put_answered(out, &event.answered)?;
    Ok(())
}

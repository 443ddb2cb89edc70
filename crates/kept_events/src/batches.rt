//! The calls of batches.
ghost use Rattle.std.specs.Prelude.{◌≡◌, ◌+◌, ◌≤◌, ◌↔◌, ◌∷◌, ◌++◌, [], true, IfOk, IfSome, IsSome, OnOk, length, vec_capacity};
ghost use Rattle.kernel_rules.specs.Events.{answers};
ghost use Rattle.kernel_rules.specs.History.{is_batch};
ghost use Rattle.kept_events.specs.Batches.{rest_calls, rest_answers, IsOpen, AreAnswered};

use crate::calls::KeptCall;
use crate::events::KeptEvent;
use crate::replies::KeptReply;
use base::{NoMemory, ObjectId};
use kernel_rules::histories::BATCH;
use kernel_rules::{Call, Reply};
use std::alloc::Global;
use std::marker::Model;

/// The calls of a batch after its first, and their replies.
#[derive(Drop)]
pub(crate) struct Rest {
    pub(crate) calls: Vec<KeptCall>,
    pub(crate) replies: Vec<KeptReply>,
}

/// The first call of a batch, and those after it: there are 1 to 16.
pub fn split_batch(calls: &[Call]) -> Option<(&Call, &[Call])>
    ensures some { IfSome result (λ batch. batch.0.now ∷ batch.1.now ≡ calls.now) }
    ensures size { IsSome result ↔ (is_batch calls.now ≡ true) }
{
    if calls.len() > BATCH {
        return None;
    }
    calls.split_first()
}

/// Room for the replies of a batch. The error is want of memory.
pub fn replies_room(alloc: Global, calls: &[Call]) -> Result<Vec<Reply>, NoMemory>
    ensures empty { IfOk result (λ room. room.items ≡ []) }
    ensures room { IfOk result (λ room. length calls.now ≤ vec_capacity room) }
{
    Ok(Vec::with_capacity(alloc, calls.len())?)
}

/// Calls that are kept. The error is want of memory.
pub fn kept_calls(alloc: Global, calls: &[Call]) -> Result<Vec<KeptCall>, NoMemory>
    ensures { IfOk result (λ kept. kept.items ≡ calls.now) }
{
    let mut kept = Vec::with_capacity(alloc, calls.len())?;
    for call in calls {
        kept.push_reserved(KeptCall::new(alloc, call)?);
    }
    Ok(kept)
}

/// Adds replies, for which there is room.
fn add_replies(kept: &mut Vec<KeptReply>, replies: &[KeptReply])
    requires { length kept.old.items + length replies.now ≤ vec_capacity kept.old }
    ensures { kept.new.items ≡ kept.old.items ++ replies.now }
{
    for reply in replies {
        kept.push_reserved(reply.again());
    }
}

impl Rest {
    /// Calls that have no reply yet, with room for the replies.
    fn new(alloc: Global, calls: &[Call]) -> Result<Rest, NoMemory>
        ensures calls { IfOk result (λ rest. rest.calls.items ≡ calls.now) }
        ensures empty { IfOk result (λ rest. rest.replies.items ≡ []) }
        ensures room { IfOk result (λ rest. length rest.calls.items ≤ vec_capacity rest.replies) }
    {
        let kept = kept_calls(alloc, calls)?;
        let replies = Vec::with_capacity(alloc, calls.len())?;
        Ok(Rest {
            calls: kept,
            replies,
        })
    }
}

/// The calls of a batch that are kept before they are made, with room for what they will be answered. One call has
/// no more memory than it has alone.
#[derive(Drop)]
pub struct KeptCalls {
    call: KeptCall,
    rest: Option<Box<Rest>>,
}

impl Model for KeptCalls {
    ghost use Rattle.std.specs.Prelude.{◌∷◌, List};
    ghost use Rattle.kernel_rules.specs.declared.calls.Call.{Call};
    ghost use Rattle.kept_events.specs.Batches.{rest_calls, IsOpen};

    ghost Value = { List Call };

    ghost view = { λ k. k.call ∷ rest_calls k.rest };

    ghost invariant = { λ k. IsOpen k.rest };
}

/// Calls after the first that have no reply yet, where there are any.
fn open_rest(alloc: Global, more: &[Call]) -> Result<Option<Box<Rest>>, NoMemory>
    ensures calls { IfOk result (λ rest. rest_calls rest ≡ more.now) }
    ensures open { IfOk result IsOpen }
{
    if more.is_empty() {
        return Ok(None);
    }
    let rest = Rest::new(alloc, more)?;
    Ok(Some(Box::new(alloc, rest)?))
}

/// The replies of calls that had none.
fn reply_rest(rest: &mut Option<Box<Rest>>, replies: &[KeptReply])
    requires open { IsOpen rest.old }
    requires each { length replies.now ≡ length (rest_calls rest.old) }
    ensures pairs { rest_answers rest.new ≡ answers (rest_calls rest.old) replies.now }
    ensures each { AreAnswered rest.new }
{
    if let Some(rest) = rest {
        add_replies(&mut rest.replies, replies);
    }
}

impl KeptCalls {
    /// Keeps the calls of a batch, with room for their replies. The error is want of memory.
    pub fn new(alloc: Global, call: &Call, more: &[Call]) -> Result<KeptCalls, NoMemory>
        ensures { IfOk result (λ kept. kept ≡ call.now ∷ more.now) }
    {
        let call = KeptCall::new(alloc, call)?;
        let rest = open_rest(alloc, more)?;
        Ok(KeptCalls { call, rest })
    }

    /// The event that they are, once they were answered so. It takes no memory.
    pub fn event(
        self,
        thread: ObjectId,
        number: u64,
        reply: KeptReply,
        more: &[KeptReply],
    ) -> KeptEvent
        requires { length self ≡ length more.now + 1 }
        ensures thread { result.thread ≡ thread }
        ensures number { result.number ≡ number }
        ensures calls { result.calls ≡ answers self (reply ∷ more.now) }
    {
        let KeptCalls { call, mut rest } = self;
        reply_rest(&mut rest, more);
        KeptEvent::new(thread, number, call, reply, rest)
    }
}

//! Events.
ghost use Rattle.std.specs.Prelude.{◌≡◌, ◌<◌, ◌≤◌, ◌+◌, ◌++◌, ◌∷◌, [], IfOk, OnOk, IfSome, length};
ghost use Rattle.std.specs.Prelude.{vec_len, vec_capacity};
ghost use Rattle.kernel_rules.specs.Events.{answers, told};
ghost use Rattle.kept_events.specs.Batches.{rest_calls, rest_answers, rest_replies, AreAnswered};
ghost use Rattle.kernel_rules.specs.Events.{replies_in};

use crate::batches::Rest;
use crate::calls::KeptCall;
use crate::replies::KeptReply;
use base::{NoMemory, ObjectId};
use kernel_rules::Mapping;
use kernel_rules::histories::{Answered, Event};
use std::alloc::Global;
use std::marker::Model;

/// An event that is kept.
#[derive(Drop)]
pub struct KeptEvent {
    thread: ObjectId,
    number: u64,
    call: KeptCall,
    reply: KeptReply,
    rest: Option<Box<Rest>>,
}

impl Model for KeptEvent {
    ghost use Rattle.std.specs.Prelude.{◌∷◌};
    ghost use Rattle.kernel_rules.specs.Events.{Event, told};
    ghost use Rattle.kept_events.specs.Batches.{rest_answers, AreAnswered};

    ghost Value = { Event };

    ghost view = { λ k. record {
      thread = k.thread;
      number = k.number;
      calls = told k.call k.reply ∷ rest_answers k.rest;
    } };

    ghost invariant = { λ k. AreAnswered k.rest };
}

/// A call and its reply.
fn answered(call: &KeptCall, reply: &KeptReply) -> Answered
    ensures { result ≡ told call.now reply.now }
{
    Answered {
        call: call.call(),
        reply: reply.reply(),
    }
}

/// Adds a call and its reply, for which there is room.
fn tell_answer(all: &mut Vec<Answered>, call: &KeptCall, reply: &KeptReply)
    requires { vec_len all.old < vec_capacity all.old }
    ensures capacity { vec_capacity all.new ≡ vec_capacity all.old }
    ensures added { all.new.items ≡ all.old.items ++ told call.now reply.now ∷ [] }
{
    let _named: Option<Mapping> = None;
    let answered = answered(call, reply);
    let (_call, _reply) = (&answered.call, &answered.reply);
    all.push_reserved(answered);
}

/// Adds calls and their replies, for which there is room.
fn tell_answers(all: &mut Vec<Answered>, calls: &[KeptCall], replies: &[KeptReply])
    requires each { length calls.now ≡ length replies.now }
    requires room { vec_len all.old + length calls.now ≤ vec_capacity all.old }
    ensures { all.new.items ≡ all.old.items ++ answers calls.now replies.now }
{
    for place in 0..calls.len() {
        tell_answer(all, &calls[place], &replies[place]);
    }
}

/// A first call and others, each with its reply.
fn answers_of(
    alloc: Global,
    call: &KeptCall,
    reply: &KeptReply,
    calls: &[KeptCall],
    replies: &[KeptReply],
) -> Result<Vec<Answered>, NoMemory>
    requires { length calls.now ≡ length replies.now }
    ensures { IfOk result (λ all. all.items
        ≡ told call.now reply.now ∷ answers calls.now replies.now) }
{
    let mut all = Vec::with_capacity(alloc, calls.len() + 1)?;
    tell_answer(&mut all, call, reply);
    tell_answers(&mut all, calls, replies);
    Ok(all)
}

/// A first call and the rest of its batch, each with its reply.
fn batch_of(
    alloc: Global,
    call: &KeptCall,
    reply: &KeptReply,
    rest: &Option<Box<Rest>>,
) -> Result<Vec<Answered>, NoMemory>
    requires { AreAnswered rest.now }
    ensures { IfOk result (λ all. all.items ≡ told call.now reply.now ∷ rest_answers rest.now) }
{
    match rest {
        None => answers_of(alloc, call, reply, &[], &[]),
        Some(rest) => answers_of(
            alloc,
            call,
            reply,
            rest.calls.as_slice(),
            rest.replies.as_slice(),
        ),
    }
}

/// The replies to calls after the first.
fn replies_of(rest: &Option<Box<Rest>>) -> &[KeptReply]
    ensures { result.now ≡ rest_replies rest.now }
{
    match rest {
        None => &[],
        Some(rest) => rest.replies.as_slice(),
    }
}

impl KeptEvent {
    /// The event of a first call and others, with their replies.
    pub(crate) fn new(
        thread: ObjectId,
        number: u64,
        call: KeptCall,
        reply: KeptReply,
        rest: Option<Box<Rest>>,
    ) -> KeptEvent
        requires { AreAnswered rest }
        ensures thread { result.thread ≡ thread }
        ensures number { result.number ≡ number }
        ensures calls { result.calls ≡ told call reply ∷ rest_answers rest }
    {
        KeptEvent {
            thread,
            number,
            call,
            reply,
            rest,
        }
    }

    /// The thread that called.
    pub fn thread(&self) -> ObjectId
        ensures { result ≡ self.now.thread }
    {
        self.thread
    }

    /// Which of its thread's events it is, from 1.
    pub fn number(&self) -> u64
        ensures { result ≡ self.now.number }
    {
        self.number
    }

    /// What its first call was answered, and what those after it were.
    pub fn replies(&self) -> (&KeptReply, &[KeptReply])
        ensures { replies_in self.now ≡ result.0.now ∷ result.1.now }
    {
        (&self.reply, replies_of(&self.rest))
    }

    /// The event. The error is want of memory.
    pub fn event(&self, alloc: Global) -> Result<Event, NoMemory>
        ensures { IfOk result (λ event. event ≡ self.now) }
    {
        let calls = batch_of(alloc, &self.call, &self.reply, &self.rest)?;
        Ok(Event {
            thread: self.thread,
            number: self.number,
            calls,
        })
    }
}

/// Adds an event that is kept, which there is.
fn tell(alloc: Global, events: &mut Vec<Event>, kept: Option<&KeptEvent>) -> Result<(), NoMemory>
    ensures { IfSome kept.entry (λ k. OnOk result
        (events.new.items ≡ events.old.items ++ k.now ∷ [])) }
{
    if let Some(kept) = kept {
        let event = kept.event(alloc)?;
        events.push(event)?;
    }
    Ok(())
}

/// The events, one after another.
pub fn events_of(alloc: Global, kept: &[KeptEvent]) -> Result<Vec<Event>, NoMemory>
    ensures { IfOk result (λ events. events.items ≡ kept.now) }
{
    let mut events = Vec::with_capacity(alloc, kept.len())?;
    for place in 0..kept.len() {
        tell(alloc, &mut events, kept.get(place))?;
    }
    Ok(events)
}

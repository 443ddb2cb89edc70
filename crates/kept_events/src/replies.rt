//! Replies of calls.
ghost use Rattle.std.specs.Prelude.{◌≡◌, IsTrue};
ghost use Rattle.kernel_rules.specs.Step.{answer};
ghost use Rattle.kernel_rules.specs.State.{State};
ghost use Rattle.kernel_rules.specs.declared.calls.Call.{Call};
ghost use Rattle.std.specs.Prelude.{ℕ};
ghost use Rattle.kept_events.specs.Replies.{is_of_call};

use base::{Category, Data, ObjectId, Refusal};
use kernel_rules::Reply;
use std::marker::Model;

/// How the reply of a call is kept.
#[derive(Clone, Copy)]
pub(crate) enum Answered {
    Done,
    Category(Category),
    Object(ObjectId),
    Entered { entry_point: u64, closure: u64 },
    Bytes(Data),
    Refused(Refusal),
}

/// The reply of a call, that is kept: a call answers no label and no list.
#[derive(Drop)]
pub struct KeptReply {
    answered: Answered,
}

impl Model for KeptReply {
    ghost use Rattle.kernel_rules.specs.declared.replies.Reply.{Reply};
    ghost use Rattle.kept_events.specs.Replies.{reply_of};

    ghost Value = { Reply };

    ghost view = { λ k. reply_of k.answered };
}

impl KeptReply {
    /// Keeps a reply that a call can have.
    pub fn new(reply: &Reply) -> KeptReply
        requires { IsTrue (is_of_call reply.now) }
        ensures { result ≡ reply.now }
    {
        let answered = match *reply {
            Reply::Category(category) => Answered::Category(category),
            Reply::Object(id) => Answered::Object(id),
            Reply::Entered {
                entry_point,
                closure,
            } => Answered::Entered {
                entry_point,
                closure,
            },
            Reply::Bytes(bytes) => Answered::Bytes(bytes),
            Reply::Refused(refusal) => Answered::Refused(refusal),
            _ => Answered::Done,
        };
        KeptReply { answered }
    }

    /// The same reply.
    pub fn again(&self) -> KeptReply
        ensures { result ≡ self.now }
    {
        KeptReply {
            answered: self.answered,
        }
    }

    /// The reply.
    pub fn reply(&self) -> Reply
        ensures { result ≡ self.now }
    {
        match self.answered {
            Answered::Done => Reply::Done,
            Answered::Category(category) => Reply::Category(category),
            Answered::Object(id) => Reply::Object(id),
            Answered::Entered {
                entry_point,
                closure,
            } => Reply::Entered {
                entry_point,
                closure,
            },
            Answered::Bytes(bytes) => Reply::Bytes(bytes),
            Answered::Refused(refusal) => Reply::Refused(refusal),
        }
    }
}

/// The rules answer a call by a reply that can be kept. Nothing is done: a caller's proof has this from a call.
pub fn call_answers()
    ensures { (s : State) (thread : ℕ) (call : Call) → IsTrue (is_of_call (answer s thread call)) }
{}

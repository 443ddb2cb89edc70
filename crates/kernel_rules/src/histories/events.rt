//! What was done, batch by batch.
use crate::{Call, Reply};
use base::ObjectId;
use std::marker::Model;

/// The most calls of a batch.
pub const BATCH: usize = 16;

/// A call and what it was answered.
#[derive(Clone, Copy)]
pub struct Answered {
    /// The call.
    pub call: Call,
    /// What was answered.
    pub reply: Reply,
}

/// The whole write calls of one batch, as they stand in a journal: who called, and what each was answered. A refused call
/// stands there too. Most batches have one call.
#[derive(Drop)]
pub struct Event {
    /// The thread that called.
    pub thread: ObjectId,
    /// Which of its thread's events it is, from 1.
    pub number: u64,
    /// The calls, 1 to 16 in a journal, each with what it was answered.
    pub calls: Vec<Answered>,
}

impl Model for Event {
    ghost use Rattle.kernel_rules.specs.Events.{Event as Batch};

    ghost Value = { Batch };

    ghost view = { λ e. record { thread = e.thread; number = e.number; calls = e.calls.items } };
}

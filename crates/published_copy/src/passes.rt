//! What a thread carries from call to call.
ghost use Rattle.std.specs.Prelude.{◌≡◌, ◌+◌, ◌<◌, ◌^◌, length};
ghost use Rattle.kernel_rules.specs.History.{IsLegal};
ghost use Rattle.published_copy.specs.Turns.{turn, Has};

use crate::log_positions::LogPosition;
use crate::naming::Naming;
use crate::notes::Note;
use crate::receipts::Placed;
use base::ObjectId;
use std::marker::Model;

/// What a thread carries from call to call: the number of its next event, and the events that it
/// has seen, which begin the boot's one list. It can't be copied, so a thread has one.
#[derive(Drop)]
pub struct Pass<B: Naming> {
    thread: ObjectId,
    number: u64,
    position: LogPosition<B>,
}

impl<B: Naming> Model for Pass<B> {
    ghost use Rattle.published_copy.specs.Turns.{Turn, turn};

    ghost Value = { Turn };

    ghost view = { λ p. turn p.thread p.number p.position };
}

impl<B: Naming> Pass<B> {
    /// The pass of a thread whose next event has this number, and which has seen these events.
    pub(crate) fn new(thread: ObjectId, number: u64, position: LogPosition<B>) -> Pass<B>
        ensures { result ≡ turn thread number position }
    {
        Pass {
            thread,
            number,
            position,
        }
    }

    /// The thread.
    pub fn thread(&self) -> ObjectId
        ensures { result ≡ self.now.thread }
    {
        self.thread
    }

    /// The number of its next event, from 1.
    pub fn number(&self) -> u64
        ensures { result ≡ self.now.number }
    {
        self.number
    }

    /// How many events it has seen. They are a legal list.
    pub fn length(&self) -> u64
        ensures length { result ≡ length self.now.seen }
        ensures legal { IsLegal B.boot.limits self.now.seen }
    {
        self.position.len()
    }

    /// Whether it has seen no fewer events than a note has. Of the lists of one boot the shorter begins the longer.
    pub fn has(&self, note: &Note<B>) -> bool
        ensures { Has result self.now.seen note.now }
    {
        self.position.has(note.position())
    }

    /// The events that it has seen.
    pub(crate) fn position(&self) -> &LogPosition<B>
        ensures { result.now ≡ self.now.seen }
    {
        &self.position
    }

    /// It has seen these events.
    pub(crate) fn see(&mut self, position: LogPosition<B>)
        ensures { self.new ≡ turn self.old.thread self.old.number position }
    {
        self.position = position;
    }

    /// Its event was committed, and it has seen these events, which are so many: the next number is
    /// one more.
    pub(crate) fn pass_on(&mut self, length: usize, position: LogPosition<B>) -> Placed
        requires { self.old.number + 1 < 2 ^ 64 }
        ensures number { result.number ≡ self.old.number }
        ensures length { result.length ≡ length }
        ensures pass { self.new ≡ turn self.old.thread (self.old.number + 1) position }
    {
        let number = self.number;
        self.number = number + 1;
        self.position = position;
        Placed { number, length }
    }
}

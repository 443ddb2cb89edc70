//! What one seat tells another.
ghost use Rattle.std.specs.Prelude.{◌≡◌, length};
ghost use Rattle.kernel_rules.specs.History.{IsLegal};
ghost use Rattle.published_copy.specs.Turns.{Has};

use crate::log_positions::LogPosition;
use crate::naming::Naming;
use std::marker::Model;

/// What a seat had by its opening, its submits and the notes that it learnt: for another seat,
/// which has then seen as much. Contracts see the list of events.
#[derive(Drop)]
pub struct Note<B: Naming> {
    position: LogPosition<B>,
}

impl<B: Naming> Model for Note<B> {
    ghost use Rattle.std.specs.Prelude.{List};
    ghost use Rattle.kernel_rules.specs.Events.{Event};

    ghost Value = { List Event };

    ghost view = { λ n. n.position };
}

impl<B: Naming> Note<B> {
    /// A note of these events.
    pub(crate) fn new(position: LogPosition<B>) -> Note<B>
        ensures { result ≡ position }
    {
        Note { position }
    }

    /// How many events they are. They are a legal list.
    pub fn length(&self) -> u64
        ensures length { result ≡ length self.now }
        ensures legal { IsLegal B.boot.limits self.now }
    {
        self.position.len()
    }

    /// Whether the note has no fewer events than another. Of the lists of one boot the shorter begins the longer.
    pub fn has(&self, other: &Note<B>) -> bool
        ensures { Has result self.now other.now }
    {
        self.position.has(&other.position)
    }

    /// The events.
    pub(crate) fn position(&self) -> &LogPosition<B>
        ensures { result.now ≡ self.now }
    {
        &self.position
    }
}

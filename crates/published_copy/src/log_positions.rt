//! Beginnings of the boot's one list of events.
ghost use Rattle.std.specs.Prelude.{◌≡◌, length};
ghost use Rattle.kernel_rules.specs.History.{IsLegal};
ghost use Rattle.published_copy.specs.Entries.{made};
ghost use Rattle.published_copy.specs.Turns.{Has};

use crate::logs::SeenLog;
use crate::naming::Naming;
use std::marker::{Model, PhantomData};

/// A beginning of the boot's one list of events that was seen. Contracts see the list, which is
/// legal; at run time it is its length.
#[derive(Drop)]
pub(crate) struct LogPosition<B: Naming> {
    length: u64,
    seen: SeenLog,
    of: PhantomData<B>,
}

impl<B: Naming> Model for LogPosition<B> {
    ghost use Rattle.std.specs.Prelude.{◌≡◌, List};
    ghost use Rattle.std.specs.Prelude as std;
    ghost use Rattle.kernel_rules.specs.Events.{Event};
    ghost use Rattle.kernel_rules.specs.History.{IsLegal};
    ghost use Rattle.published_copy.specs.Entries.{made};

    ghost Value = { List Event };

    ghost view = { λ f. made f.seen.log };

    ghost invariant = { λ f. (f.length ≡ std.length (made f.seen.log))
        × (f.seen.book ≡ B.boot.log) × IsLegal B.boot.limits (made f.seen.log) };
}

impl<B: Naming> LogPosition<B> {
    /// The events of a log that was seen, which are so many.
    pub(crate) fn of(events: u64, seen: SeenLog) -> LogPosition<B>
        requires length { events ≡ length (made seen.log) }
        requires log { seen.book ≡ B.boot.log }
        requires legal { IsLegal B.boot.limits (made seen.log) }
        ensures { result ≡ made seen.log }
    {
        LogPosition {
            length: events,
            seen,
            of: PhantomData,
        }
    }

    /// How many events they are.
    pub(crate) fn len(&self) -> u64
        ensures length { result ≡ length self.now }
        ensures legal { IsLegal B.boot.limits self.now }
    {
        self.length
    }

    /// The same events.
    pub(crate) fn again(&self) -> LogPosition<B>
        ensures { result ≡ self.now }
    {
        LogPosition {
            length: self.length,
            seen: self.seen.again(),
            of: PhantomData,
        }
    }

    /// Whether these are no fewer events than the other's. Of two beginnings of one list the
    /// shorter begins the longer.
    pub(crate) fn has(&self, other: &LogPosition<B>) -> bool
        ensures { Has result self.now other.now }
    {
        let mut both = self.seen.again();
        both.learn(&other.seen);
        self.length >= other.length
    }
}

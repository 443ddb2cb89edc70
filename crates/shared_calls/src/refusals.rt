//! Why seats and batches are refused.
ghost use Rattle.std.specs.Prelude.{◌≡◌, ◌≢◌};
ghost use Rattle.shared_calls.specs.declared.refusals.DumpRefusal.TheVariants.{Ahead, NoLog, Short};
ghost use Rattle.shared_calls.specs.declared.refusals.SubmitRefusal.TheVariants.{Memory};

use base::NoMemory;
use thiserror::Error;

/// Why a batch is not submitted. It is not in the list then.
#[derive(Clone, Copy, PartialEq, Eq, Debug, Error)]
pub enum SubmitRefusal {
    /// There was no memory.
    #[error("out of memory")]
    Memory,
    /// There are no calls, or more than 16.
    #[error("bad batch")]
    BadBatch,
    /// Another seat adds a batch at this moment.
    #[error("busy")]
    Busy,
    /// A seat lacks as many batches as it may lack; or the list has a log, and as many batches as it may have.
    #[error("list full")]
    Full,
}

impl From<NoMemory> for SubmitRefusal {
    ghost from_gives = { λ _ refusal. refusal ≡ Memory };

    fn from(_: NoMemory) -> SubmitRefusal {
        SubmitRefusal::Memory
    }
}

/// Why there is no dump.
#[derive(Clone, Copy, PartialEq, Eq, Debug, Error)]
pub enum DumpRefusal {
    /// There was no memory.
    #[error("out of memory")]
    Memory,
    /// The list has no log.
    #[error("no log")]
    NoLog,
    /// The seat at which it was to begin has seen more batches than those with which it was to end.
    #[error("ahead")]
    Ahead,
    /// The list has fewer batches than those with which it was to end.
    #[error("short")]
    Short,
    /// The list has as many seats as it may have, 4,096: a dump that is made takes the place of one.
    #[error("too many seats")]
    TooMany,
}

impl From<SeatRefusal> for DumpRefusal {
    ghost from_gives = { λ _ refusal. (refusal ≢ NoLog) × (refusal ≢ Ahead) × (refusal ≢ Short) };

    fn from(why: SeatRefusal) -> DumpRefusal {
        match why {
            SeatRefusal::Memory => DumpRefusal::Memory,
            SeatRefusal::TooMany => DumpRefusal::TooMany,
        }
    }
}

/// Why there is no other seat.
#[derive(Clone, Copy, PartialEq, Eq, Debug, Error)]
pub enum SeatRefusal {
    /// There was no memory.
    #[error("out of memory")]
    Memory,
    /// The list has as many seats as it may have, 4,096.
    #[error("too many seats")]
    TooMany,
}

impl From<NoMemory> for SeatRefusal {
    fn from(_: NoMemory) -> SeatRefusal {
        SeatRefusal::Memory
    }
}

//! Why a seat is not opened, a call is not committed, and a query is not answered.
ghost use Rattle.std.specs.Prelude.{◌≡◌};
ghost use Rattle.base.specs.declared.refusals.Refusal.TheVariants as is;
ghost use Rattle.published_copy.specs.declared.refusals.SubmitRefusal.TheVariants.{Memory};
ghost use Rattle.published_copy.specs.Refusals.{seat_refusal, submit_refusal};

use base::{NoMemory, Refusal};
use thiserror::Error;

/// Why a seat is not opened. Nothing has changed then.
#[derive(Clone, Copy, PartialEq, Eq, Debug, Error)]
pub enum SeatRefusal {
    /// The thread has had a seat.
    #[error("seat taken")]
    SeatTaken,
    /// Not a live thread.
    #[error("no thread")]
    NoThread,
    /// All seats of the boot were opened.
    #[error("seats spent")]
    SeatsSpent,
}

impl SeatRefusal {
    /// Its place in the table of refusals: 41 to 43.
    pub fn refusal(self) -> Refusal
        ensures { result ≡ seat_refusal self }
    {
        match self {
            SeatRefusal::SeatTaken => Refusal::SeatTaken,
            SeatRefusal::NoThread => Refusal::NoThread,
            SeatRefusal::SeatsSpent => Refusal::SeatsSpent,
        }
    }
}

/// Why a call is not committed. Nothing has changed then.
#[derive(Clone, Copy, PartialEq, Eq, Debug, Error)]
pub enum SubmitRefusal {
    /// There was no memory.
    #[error("out of memory")]
    Memory,
    /// The number is not its thread's next, or the list that was seen is longer than the journal.
    #[error("out of turn")]
    OutOfTurn,
    /// A batch of no call, or of more than 16.
    #[error("bad batch")]
    BadBatch,
}

impl SubmitRefusal {
    /// Its place in the table of refusals: 40, 44 or 45.
    pub fn refusal(self) -> Refusal
        ensures { result ≡ submit_refusal self }
    {
        match self {
            SubmitRefusal::Memory => Refusal::Memory,
            SubmitRefusal::OutOfTurn => Refusal::OutOfTurn,
            SubmitRefusal::BadBatch => Refusal::BadBatch,
        }
    }
}

impl From<NoMemory> for SubmitRefusal {
    ghost from_gives = { λ _ refusal. refusal ≡ Memory };

    fn from(_: NoMemory) -> SubmitRefusal {
        SubmitRefusal::Memory
    }
}

/// Why a query is not answered: no reader is let in. Nothing has changed then.
#[derive(Clone, Copy, PartialEq, Eq, Debug, Error)]
#[error("unread")]
pub struct Unread;

impl Unread {
    /// Its place in the table of refusals: 46.
    pub fn refusal(self) -> Refusal
        ensures { result ≡ is.Unread }
    {
        Refusal::Unread
    }
}

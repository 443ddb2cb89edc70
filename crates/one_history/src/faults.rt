//! Why nothing is told.
use published_copy::{SeatRefusal, SubmitRefusal, Unread};
use thiserror::Error;

/// Why nothing is told.
#[derive(Clone, Copy, PartialEq, Eq, Debug, Error)]
pub enum RoundFault {
    /// A thread was given no seat.
    #[error("a seat was refused")]
    Seat(#[from] SeatRefusal),
    /// The call was not made.
    #[error("a call was not made")]
    Submit(#[from] SubmitRefusal),
    /// No reader is let in.
    #[error("a query was not read")]
    Read(#[from] Unread),
    /// The book has fewer events than the reader has seen, which no run meets.
    #[error("the book is behind its reader")]
    Behind,
}

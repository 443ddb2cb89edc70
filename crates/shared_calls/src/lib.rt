//! One kernel that many threads call and read, with no lock and no wait.
//!
//! The calls of all threads stand in one list, which only grows, in batches of 1 to 16. Each seat has a kernel of its own, which
//! plays the list: it is in the state that the seat's beginning of the list leads to. A submitted batch becomes the last of the list
//! at one step; a read plays what the list has more, and answers. No step waits: where another seat adds a batch at the same time, a
//! submit is refused as busy, and changes nothing but what the seat has seen. Each batch has a mark, which its seat had alone before:
//! so a batch that is refused is in nobody's list. What a seat has seen can be dumped as a legal history.
#![tactic(auto)]

mod beginnings;
mod blocks;
mod chairs;
mod cursors;
mod directory;
mod dumps;
mod journals;
mod lists;
mod playing;
mod readers;
mod refusals;
mod rules;
mod seats;
mod standing;
mod tellings;

pub use dumps::SeatDump;
pub use readers::Reader;
pub use refusals::{DumpRefusal, SeatRefusal, SubmitRefusal};
pub use seats::Seat;

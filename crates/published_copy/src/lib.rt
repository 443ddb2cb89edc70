//! One kernel that many threads call and read, in two copies. A thread calls through its seat, under
//! one lock, and each call is one event of a journal, which each copy makes; it reads the copy that
//! is published, and waits for nobody. The journal is legal, and the published copy is in its state;
//! what a seat has seen is a beginning of the journal, which begins each that it sees later. A read's reply is the answer in the state of what its seat has then seen,
//! and notes carry what one seat has seen to another. Who gets the lock next, and when a reader
//! sees another's event that it was not told of, is left open. Where only one caller has all threads,
//! there is a book with one kernel and no copies.
#![tactic(auto)]

mod book_guards;
mod books;
mod boots;
mod copies;
mod entries;
mod further;
mod log_positions;
mod logs;
mod naming;
mod notes;
mod ops;
mod pairs;
mod passes;
mod places;
mod read_handles;
mod receipts;
mod refusals;
mod rules;
mod seating;
mod seats;
mod sole;
mod tallies;
mod whole_logs;
mod writers;

pub use book_guards::BookGuard;
pub use books::Book;
pub use boots::{Boot, Shared};
pub use kept_events::{KeptEvent, KeptReply};
pub use naming::Naming;
pub use notes::Note;
pub use passes::Pass;
pub use receipts::{BatchReceipt, Placed, ReadReceipt, Receipt};
pub use refusals::{SeatRefusal, SubmitRefusal, Unread};
pub use seats::Seat;
pub use sole::SoleBook;
pub use syscall_core::BootRefusal;

//! The promise to who shares a kernel, as the contract of one function: a thread calls, another one learns of it and reads, and
//! then the book is looked at.
//!
//! There is one legal history, the book's journal. What both threads have seen begins it, the calls are an event of it, each
//! reply is the rules' answer at its place there, and what the book's kernel keeps is what recomputation gives at its end.
#![tactic(auto)]

mod faults;
mod kept;
mod told;

pub use faults::RoundFault;
pub use kept::{KeptParts, Looked, kept_of};
pub use told::{Round, RoundAnswers, told_by};

//! What `histar try` prints: the answer to each line of a dialogue, with names where they are bound, or in one line why there
//! is none; and what its words tell: why the last call was answered so, the objects, a line that was taken back, and help. It
//! promises exactly these texts. The words of the command line are left to others.
#![tactic(auto)]

mod program;
mod responding;
mod telling;
pub mod tried_lines;
mod why;
mod words;

pub use program::{NAME, try_on};
pub use responding::respond;
pub use words::{Word, word_of};

//! Calls as words: the table of calls, and reading and writing a spoken call.
//!
//! A call is a verb and its arguments, of the kinds that the table gives. Each spoken call has one spelling, its words parted by
//! single spaces. What the words stand for, and which calls make a text, is left to the crates above.

mod args;
mod spoken;
mod verbs;
mod writing;

pub use args::{Arg, ArgKind};
pub use spoken::{SpokenCall, read_arguments, read_spoken};
pub use verbs::Verb;
pub use writing::put_spoken;

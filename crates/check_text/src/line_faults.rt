//! Where a line stops being the beginning of a well-formed line of a script, and what may stand there.
//!
//! The words before that place begin well-formed lines, which go on there with just what is expected. What stands there in
//! the line does not begin so. Where there is no such place the line is well formed. Whether it may stand where it stands
//! is left to others.

mod expected;
mod lines;
mod verbs;
mod words;

pub use expected::{Expected, LineFault};
pub use lines::{fault_in, longest_beginning};
pub use verbs::{all_verbs, suits};

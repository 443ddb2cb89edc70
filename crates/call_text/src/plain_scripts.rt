//! Scripts as people write them, and the exact form of each: comments and empty lines are dropped, a text in quotes becomes data,
//! and the last line ends with LF. It promises exactly this form, and for each of its lines the number of the line that was
//! written. An exact script is its own form. Whether the form spells a script is left to others.

mod laws;
mod lines;
mod numbers;
mod scripts;

pub use laws::exact_is_plain;
pub use lines::{is_silent, put_plain};
pub use numbers::{number_at, renumbered};
pub use scripts::{Plain, plain_of};

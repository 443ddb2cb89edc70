//! What `histar check` prints of a script: why its first faulty line is faulty, at which column, and what is expected
//! there; or the warnings of a script that can be played, in the order of its lines. It promises exactly this text, of the exact
//! form of what people write and by the numbers of the lines that they wrote; a column is that of the exact form. The words of the
//! command line are left to others.
#![tactic(auto)]

mod checks;
mod fault_texts;
mod forms;
mod hints;
pub mod line_faults;
mod lines;
mod places;
mod program;
mod reasons;
pub mod script_checks;
mod warning_texts;

pub use checks::{Checked, Exact, Faults, check, put_why, read_or_tell};
pub use lines::{binding, cut};
pub use program::{NAME, check_on, plain_on};

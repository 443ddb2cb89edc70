//! The names of a run as text: a line for each name, with the object or the category that it is bound to.
//!
//! Names have one text. It is read as them, or the first line at which bytes stop being the beginning of such a text is told.
//! Which names those of a run are is left to others. A line of a dump is told by names, where its numbers have some.

mod errors;
mod lines;
mod reading;
mod writing;

pub use errors::NamesError;
pub use lines::{lines_stay_without_names, named_line};
pub use reading::{one_reading, read_names, written_is_read};
pub use writing::write_names;

//! A dialogue with a kernel: lines that are asked one after another, each answered at once. A contract sees a dialogue as the
//! limits of its boot and the list of its lines.
//!
//! It promises that the reply to a line is the rules' in the state that the lines before it lead to; that a line which is
//! faulty, uses an unknown name or is of no live thread changes nothing; that `undo` takes exactly the last line back; and
//! which script a dialogue is saved as. What is printed, and reading lines, is left to others.

mod answers;
mod dialogues;
mod full_lines;
mod kept;
mod questions;
mod saving;
mod standing;

pub use answers::LineAnswer;
pub use dialogues::Dialogue;
pub use full_lines::full_line;
pub use kept::TriedLine;
pub use questions::Question;
pub use saving::put_line;
pub use standing::Standing;

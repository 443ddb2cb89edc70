//! The arguments of the programs: of `histar` what is asked for and of which file, of `histar show` and `histar-audit` the path of a
//! dump, and what is shown, told or written of it.
//!
//! `clap` reads them and writes what it has to say of them. What they ask for is what `clap` finds in them, each number the one
//! that its word spells. Which words are taken, and which texts are written, is shown by tests.
#![tactic(auto)]

mod answers;
mod args;
mod audit;
mod check;
mod dialogue;
mod ids;
mod run;
mod show;
mod versions;
mod words;

pub use answers::tell_answer;
pub use audit::{AuditArgs, read_audit_words};
pub use check::CheckArgs;
pub use ids::without_marks;
pub use run::RunArgs;
pub use show::{Colours, ShowArgs, View, read_show_words, words_of_show};
pub use words::{Verb, read_words};

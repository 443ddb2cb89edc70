//! What people see of a dump: the state that it leads to (`states`) as a `tree` or as a graph (`dot`), `why` a call of it is answered as it is,
//! and its lines as `json`.
//!
//! Each promises exactly its text, a definition over that state and the names that are known. Pages are left to `page_text`, and the words of the command
//! line to the program.
#![tactic(auto)]

pub mod dot;
pub mod json;
pub mod states;
pub mod tree;
pub mod why;

//! The calls and queries of a kernel over whatever keeps its objects: `step` and `ask` find what
//! refuses a call, and what it changes and answers where nothing does. They promise the answers and
//! the states of the rules, that a refused call and want of memory change nothing, and that calls
//! which store no label compare none anew, and others at most so many. What the objects are kept in
//! is left to the store.
#![tactic(auto)]

pub mod kernel_tables;
mod queries;
mod steps;

pub use queries::{ask, ask_into};
pub use steps::{step, step_surely, step_surely_into};

//! What the programs share at their two ends: the words that they are started with and what these ask for, reading their input
//! whole, writing a file whole, and the faults that end them with one line on standard error.
//!
//! The status and the words of each fault are definitions. The clauses tell which fault and which status comes of what; that
//! lines reach the stream is shown by tests.
#![tactic(auto)]

mod faults;
mod files;
mod inputs;
mod options;
mod pipes;
mod saving;
mod sinks;
mod words;

pub use faults::Fault;
pub use files::{beside, is_input, put_file};
pub use inputs::{bytes_of, input_fault, open_input};
pub use options::{AUDIT_DEFAULTS, AuditOptions, DEFAULTS, Options};
pub use pipes::{Hushed, Piped};
pub use saving::{Place, save};
pub use sinks::{Counted, PutFault, Sink, deliver, put};
pub use words::words_of;

//! Calls and replies as records that C can hand over: one record for every request, one for every
//! answer.
//!
//! A record asks for one write call, for one read call, for one look-up in what a kernel keeps, for a
//! part of the log of its calls, or, where it is malformed, for nothing. Each call and each query has a record that asks for it. An
//! answer tells one reply, whole. The kernel that makes the calls, and the memory that it stands in,
//! are left to others.
#![tactic(auto)]

mod answers;
mod asking;
mod changes;
mod creations;
mod labels;
mod laws;
mod logs;
mod lookups;
mod queries;
mod records;
mod words;
mod writing;

pub use answers::tell;
pub use asking::call_into;
pub use labels::level_of;
pub use laws::{answers_tell_one_reply, writes_are_no_reads};
pub use logs::{LogRequest, log_request_of, tell_length, tell_text};
pub use lookups::{Found, Lookup, lookup_of, tell_found};
pub use queries::query_of;
pub use records::{Answer, LabelRecord, Request};
pub use writing::{put_call, put_query};

//! Whether a dump is true: its calls are played again on a plain kernel, booted with its limits, and what they make
//! is written as a dump. The dump that is audited is true where the two are the same text. `read_audited` reads it once: what is
//! asked of it then, as `tracing::trace`, takes what was read from there.
#![tactic(auto)]

mod audits;
pub mod clean_dumps;
mod differences;
mod lines;
mod replays;
mod starts;
pub mod tracing;
mod verdicts;

pub use audits::{
    Audited, audit, audit_dump, clean_is_legal, migrated_verdicts, one_verdict, read_audited,
};
pub use lines::{put_numbered, put_verdict};
pub use verdicts::Verdict;

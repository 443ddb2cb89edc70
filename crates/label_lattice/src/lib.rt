//! Labels: each category has a level, all but finitely many of them the label's default (HiStar,
//! OSDI 2006).
//!
//! Each function gives the pointwise rule over all categories, by a clause over all of them and by
//! a test that computes, and counts one scan on the meter that is handed in. A stored label has one
//! form, and its content is reached through these functions alone. Which labels a thread may use is
//! left to the crates above.
#![tactic(auto)]

mod exceptions;
pub mod label_rules;
mod labels;
pub mod laws;
mod listing;
mod orders;
mod pairings;
mod planes;
mod raw_labels;
mod walk;
mod ways;

pub use labels::Label;
pub use pairings::{Pair, Pairs};
pub use raw_labels::RawLabel;
pub use ways::BothWays;

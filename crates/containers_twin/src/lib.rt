//! Containers beside a plain twin of them.
//!
//! `Hierarchy` is what both offer: calls that test what they need, and tell whether they were made. `Guarded` plays them
//! on `containers`, and `Twin` on a list of ids and a list of links, from which it computes all else anew, liveness too.
//! The twin is simple on purpose and is for tests alone; nothing is promised of its time or memory.
#![tactic(auto)]

mod guarded;
mod hierarchy;
mod twin;

pub use guarded::Guarded;
pub use hierarchy::{Hierarchy, is_container};
pub use twin::Twin;

//! Checkpoints: one that is restored and played on, and one that no dump can have.
pub mod conditions;
pub mod memory;
pub mod played_on;
pub mod samples;

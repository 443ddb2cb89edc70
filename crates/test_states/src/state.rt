//! The plain state: what a booted one shows, and each change once.
pub mod booted;
pub mod changes;
pub mod samples;

//! Calls of the public surface where all goes well, proved: that what they ask of a caller can be met. Beside them stands what scenes see
//! and are played with (`look`, `samples`).
#![tactic(auto)]

pub mod logged;
pub mod look;
pub mod metered;
pub mod samples;
pub mod words;

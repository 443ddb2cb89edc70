//! Scenes of the arena kernel, and of the kernel that many threads call and read.
#![tactic(auto)]

pub mod arena;
pub mod seats;

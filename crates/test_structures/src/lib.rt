//! The scenes of words and of the structures below a kernel.
#![tactic(auto)]

pub mod structures;
pub mod words;

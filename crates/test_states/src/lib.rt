//! Scenes of the plain machine: its state, looks by which a call is answered, explanations, hand-overs, calls and checkpoints.
#![tactic(auto)]

pub mod findings;
pub mod hand_overs;
pub mod looks;
pub mod plain;
pub mod restored;
pub mod state;

//! The label kernel as a static library for C: boot, or the open at a checkpoint's text, one call for all calls, for the log of them
//! and for checkpoints, and the end, in memory that C gives.
//!
//! A call makes exactly what its record asks for, and answers by the rules. What does not hold here
//! is left to C: that the memory is what the functions ask for, and that one call at a time uses it.
//! Nothing here waits, locks, prints or ends the program. Only boot and open take memory, the log where one is
//! begun, and checkpoints.
#![tactic(auto)]

mod exports;
mod held;
mod logs;
mod looking;
mod opening;

pub use exports::{
    histar_boot, histar_boot_at, histar_call, histar_end, histar_size, histar_version,
};
pub use held::{Held, Kept};

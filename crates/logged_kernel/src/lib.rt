//! A kernel for one caller, with a log of its calls where one is wanted. The log begins right after the boot, at the
//! checkpoint that the kernel was restored from, or where it was cut. It has each write call since then, refused or not, as an
//! event with its answer, where reads are wanted each of these with its answer, and at most as much as its beginner said. It is
//! legal from there, the kernel is in the state that it leads to, and its dump is one that an audit finds clean. Only the log, a
//! piece of its dump and checkpoints take memory after the open. Who calls, and where the kernel stands, is left to others.
#![tactic(auto)]

mod entries;
mod kernel;
mod laws;
mod logging;
mod numbers;

pub use entries::{Entry, KeptRead};
pub use kernel::{LoggedKernel, NotKept};
pub use laws::pieces_are_the_dump;
pub use logging::EventLog;

//! The reference machine of HiStar's kernel objects (OSDI 2006): containers, segments, address
//! spaces, threads, gates and devices under labels and quotas, kept as a plain map of records. It
//! promises that `step`, `ask` and `run` give the answers and the states of the definitions, that a
//! refused call and want of memory change nothing, and that every state is well formed. It leaves
//! threads that share a machine, tables that make calls fast, and the texts of calls and states to
//! others.
#![tactic(auto)]

mod checkpointing;
mod kernel;
mod machine;
pub mod recording;
pub mod restoring;

pub use crate::restoring::RestoreFault;
pub use checkpointing::checkpoint;
pub use checkpoints::{
    Attributes, Checkpoint, FilledSlot, NextNumber, RawBody, RawGate, RawObject, RawThread,
    Recorded, SlotList,
};
pub use kernel::PlainKernel;
pub use kernel_rules::histories::{Answered, Event};
pub use kernel_rules::{
    Body, Call, Compared, Entry, Gate, Ids, Mapping, NewAddressSpace, NewContainer, NewCopy,
    NewGate, NewSegment, NewThread, Object, Query, Reply, Shown, Tables, Thread, Used,
};
pub use machine::{Machine, run};
pub use plain_state::BootRefusal;

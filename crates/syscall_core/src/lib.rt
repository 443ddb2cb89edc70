//! The fast machine of HiStar's kernel objects (OSDI 2006): objects in an arena, with interned
//! labels whose order is kept, kept uses and translations, bytes in frames and mappings in cells.
//! It promises the answers and the states of the definitions, as the plain machine does, that what
//! is kept equals recomputation, and that no call takes memory after boot or is refused for want of
//! it. Threads that share a machine, and the texts of calls and states, are left to others. The
//! names of `plain_core` are given on.
#![tactic(auto)]

mod checkpointing;
mod kept_state;
mod kernel;
mod origins;
mod restores;
mod stores;

pub use kernel::Kernel;
pub use plain_core::{
    Answered, Body, BootRefusal, Call, Compared, Entry, Event, Gate, Ids, Machine, Mapping,
    NewAddressSpace, NewContainer, NewCopy, NewGate, NewSegment, NewThread, Object, PlainKernel,
    Query, Reply, Shown, Tables, Thread, Used, run,
};
pub use restores::RestoreError;

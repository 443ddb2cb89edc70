//! Why nothing is shown of a dump.
ghost use Rattle.shown_dumps.specs.declared.states.faults.ShowFault.TheVariants.{Memory as OutOfMemory};
ghost use Rattle.std.specs.Prelude.{◌≡◌};

use base::NoMemory;
use thiserror::Error;

/// Why nothing is shown of a dump.
#[derive(Clone, Copy, PartialEq, Eq, Debug, Error)]
pub enum ShowFault {
    /// The first line, from 1, at which the text stops being the beginning of a dump.
    #[error("unreadable at line {0}")]
    Unreadable(u64),
    /// The checkpoint of the dump can't be restored.
    #[error("the checkpoint can't be restored")]
    IllFormed,
    /// The line tells no call.
    #[error("no call at this line")]
    NoCall,
    /// No live thread has the id that is asked about.
    #[error("no thread of this id")]
    NoThread,
    /// There was no memory.
    #[error("out of memory")]
    Memory,
}

impl From<NoMemory> for ShowFault {
    ghost from_gives = { λ _ e. e ≡ OutOfMemory };

    fn from(_: NoMemory) -> ShowFault {
        ShowFault::Memory
    }
}

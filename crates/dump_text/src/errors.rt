//! Why a dump is not read.
ghost use Rattle.std.specs.Prelude.{◌≡◌};
ghost use Rattle.dump_text.specs.declared.errors.DumpError.TheVariants.{Memory as OutOfMemory};
ghost use Rattle.dump_text.specs.Refused.{refusal_of};

use base::Refusal;
use std::alloc::{AllocError, AllocFailed};
use thiserror::Error;

/// Why a dump is not read.
#[derive(Clone, Copy, PartialEq, Eq, Debug, Error)]
pub enum DumpError {
    /// The first line, from 1, at which the text stops being the beginning of a dump.
    #[error("line {0}: not a dump")]
    Line(u64),
    /// There was no memory for what is read.
    #[error("out of memory")]
    Memory,
}

impl DumpError {
    /// 50 for a faulty line, 51 for want of memory.
    pub fn refusal(self) -> Refusal
        ensures { result ≡ refusal_of self }
    {
        match self {
            DumpError::Line(_) => Refusal::TextFault,
            DumpError::Memory => Refusal::TextMemory,
        }
    }
}

impl From<AllocError> for DumpError {
    ghost from_gives = { λ _ e. e ≡ OutOfMemory };

    fn from(_: AllocError) -> DumpError {
        DumpError::Memory
    }
}

impl<T: Drop> From<AllocFailed<T>> for DumpError {
    ghost from_gives = { λ _ e. e ≡ OutOfMemory };

    fn from(_: AllocFailed<T>) -> DumpError {
        DumpError::Memory
    }
}

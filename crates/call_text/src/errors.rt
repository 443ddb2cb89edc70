//! Why a script is not read.
ghost use Rattle.std.specs.Prelude.{◌≡◌};
ghost use Rattle.call_text.specs.declared.errors.ScriptError.TheVariants.{Memory as OutOfMemory};
ghost use Rattle.call_text.specs.Refused.{refusal_of};

use base::Refusal;
use std::alloc::{AllocError, AllocFailed};
use thiserror::Error;

/// Why a script is not read.
#[derive(Clone, Copy, PartialEq, Eq, Debug, Error)]
pub enum ScriptError {
    /// The first line, from 1, at which the text stops being the beginning of a script.
    #[error("line {0}: script fault")]
    Line(u32),
    /// There was no memory for what is read.
    #[error("out of memory")]
    Memory,
}

impl ScriptError {
    /// 50 for a faulty line, 51 for want of memory.
    pub fn refusal(self) -> Refusal
        ensures { result ≡ refusal_of self }
    {
        match self {
            ScriptError::Line(_) => Refusal::TextFault,
            ScriptError::Memory => Refusal::TextMemory,
        }
    }
}

impl From<AllocError> for ScriptError {
    ghost from_gives = { λ _ e. e ≡ OutOfMemory };

    fn from(_: AllocError) -> ScriptError {
        ScriptError::Memory
    }
}

impl<T: Drop> From<AllocFailed<T>> for ScriptError {
    ghost from_gives = { λ _ e. e ≡ OutOfMemory };

    fn from(_: AllocFailed<T>) -> ScriptError {
        ScriptError::Memory
    }
}

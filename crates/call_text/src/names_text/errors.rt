//! Why names are not read.
ghost use Rattle.std.specs.Prelude.{◌≡◌};
ghost use Rattle.call_text.specs.declared.names_text.errors.NamesError.TheVariants.{Memory as OutOfMemory};

use std::alloc::{AllocError, AllocFailed};
use thiserror::Error;

/// Why names are not read.
#[derive(Clone, Copy, PartialEq, Eq, Debug, Error)]
pub enum NamesError {
    /// The first line, from 1, at which the text stops being the beginning of a text of names.
    #[error("line {0}: not a name")]
    Line(u64),
    /// There was no memory for what is read.
    #[error("out of memory")]
    Memory,
}

impl From<AllocError> for NamesError {
    ghost from_gives = { λ _ e. e ≡ OutOfMemory };

    fn from(_: AllocError) -> NamesError {
        NamesError::Memory
    }
}

impl<T: Drop> From<AllocFailed<T>> for NamesError {
    ghost from_gives = { λ _ e. e ≡ OutOfMemory };

    fn from(_: AllocFailed<T>) -> NamesError {
        NamesError::Memory
    }
}

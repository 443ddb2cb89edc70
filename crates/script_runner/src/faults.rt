//! Why a script is not played.
use base::NoMemory;
use published_copy::BootRefusal;
use std::alloc::{AllocError, AllocFailed};
use thiserror::Error;

/// Why a script is not played. Nothing of it is printed then.
#[derive(Clone, Copy, PartialEq, Eq, Debug, Error)]
pub enum PlayFault {
    /// The kernel did not boot.
    #[error("the kernel did not boot")]
    Boot(BootRefusal),
    /// There was no memory, or a thread could not be started.
    #[error("out of memory")]
    Memory,
    /// The gate stopped a worker: a line has no answer.
    #[error("stopped")]
    Stopped,
}

impl From<AllocError> for PlayFault {
    fn from(_: AllocError) -> PlayFault {
        PlayFault::Memory
    }
}

impl<T: Drop> From<AllocFailed<T>> for PlayFault {
    fn from(_: AllocFailed<T>) -> PlayFault {
        PlayFault::Memory
    }
}

impl From<NoMemory> for PlayFault {
    fn from(_: NoMemory) -> PlayFault {
        PlayFault::Memory
    }
}

impl From<BootRefusal> for PlayFault {
    fn from(refusal: BootRefusal) -> PlayFault {
        PlayFault::Boot(refusal)
    }
}

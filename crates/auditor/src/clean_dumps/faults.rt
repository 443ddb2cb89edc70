//! Why a dump is not looked into.
ghost use Rattle.std.specs.Prelude.{◌≡◌};
ghost use Rattle.auditor.specs.Refused.{refusal_of};
ghost use Rattle.auditor.specs.declared.clean_dumps.faults.DumpFault.TheVariants.{NoMemory as OutOfMemory};

use base::{NoMemory, Refusal};
use thiserror::Error;

/// Why a dump is not looked into.
#[derive(Clone, Copy, PartialEq, Eq, Debug, Error)]
pub enum DumpFault {
    /// 62: the text is no clean dump.
    #[error("not a clean dump")]
    NotClean,
    /// There was no memory.
    #[error("out of memory")]
    NoMemory,
}

impl DumpFault {
    /// 62 for a text that is no clean dump, 51 for want of memory.
    pub fn refusal(self) -> Refusal
        ensures { result ≡ refusal_of self }
    {
        match self {
            DumpFault::NotClean => Refusal::NotClean,
            DumpFault::NoMemory => Refusal::TextMemory,
        }
    }
}

impl From<NoMemory> for DumpFault {
    ghost from_gives = { λ _ e. e ≡ OutOfMemory };

    fn from(_: NoMemory) -> DumpFault {
        DumpFault::NoMemory
    }
}

//! Why there is no graph.
ghost use Rattle.shown_dumps.specs.declared.dot.faults.DotFault.TheVariants.{Unshown as NotShown};
ghost use Rattle.shown_dumps.specs.declared.states.faults.ShowFault.TheVariants.{Memory as OutOfMemory};
ghost use Rattle.std.specs.Prelude.{◌≡◌};

use crate::states::ShowFault;
use base::NoMemory;

/// Why there is no graph.
#[derive(Clone, Copy, PartialEq, Eq, Debug)]
pub enum DotFault {
    /// Nothing can be shown of the dump.
    Unshown(ShowFault),
    /// Flows are asked for, and an audit does not find the dump clean.
    NotClean,
}

impl From<NoMemory> for DotFault {
    ghost from_gives = { λ _ e. e ≡ NotShown OutOfMemory };

    fn from(_: NoMemory) -> DotFault {
        DotFault::Unshown(ShowFault::Memory)
    }
}

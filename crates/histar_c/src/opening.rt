//! A kernel that a text opens.
ghost use Rattle.std.specs.Prelude.{◌≡◌};
ghost use Rattle.histar_c.specs.Opened.{IsOpened, IsOpenedAt, IsRestored, number_of};
ghost use Rattle.histar_c.specs.Served.{held_kernel, kernel_in};

use crate::held::{Held, Kept, kept_kernel, new_kernel};
use base::Limits;
use checkpoints::Checkpoint;
use dump_text::{Dump, DumpError, read_dump};
use logged_kernel::LoggedKernel;
use std::alloc::Global;
use syscall_core::RestoreError;

/// The number that tells why a checkpoint is not restored: 30 for want of memory, 31 for limits out of range, 60 where it can't be.
fn restore_number(error: RestoreError) -> u32
    ensures { result ≡ number_of error }
{
    match error {
        RestoreError::BadLimits => 31,
        RestoreError::IllFormed => 60,
        RestoreError::OlderContainer => 60,
        RestoreError::NoMemory => 30,
    }
}

/// A kernel in the state that a checkpoint writes down, or why there is none.
fn restored(alloc: Global, limits: &Limits, checkpoint: Checkpoint) -> Result<Kept, u32>
    ensures { IsRestored limits.now checkpoint (kernel_in result) }
{
    match LoggedKernel::restore(alloc, limits, checkpoint) {
        Ok(logged) => kept_kernel(alloc, logged),
        Err(error) => Err(restore_number(error)),
    }
}

/// A kernel where a dump without events begins, or why there is none: 63 where it has some.
fn begun(alloc: Global, dump: Dump) -> Result<Kept, u32>
    ensures { IsOpenedAt dump.limits dump.checkpoint dump.events (kernel_in result) }
{
    let Dump {
        limits,
        checkpoint,
        events,
        ..
    } = dump;
    if !events.is_empty() {
        return Err(63);
    }
    match checkpoint {
        None => new_kernel(alloc, &limits),
        Some(checkpoint) => restored(alloc, &limits, checkpoint),
    }
}

/// The kernel that a text opens, or why there is none.
pub(crate) fn opened(alloc: Global, text: &[u8]) -> Held
    ensures { IsOpened text.now (held_kernel result) }
{
    let kernel = match read_dump(alloc, text) {
        Ok(dump) => begun(alloc, dump),
        Err(DumpError::Line(_)) => Err(50),
        Err(DumpError::Memory) => Err(30),
    };
    Held { kernel }
}

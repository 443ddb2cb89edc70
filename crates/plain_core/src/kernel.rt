//! The plain kernel: a map of records, and all else computed anew.
ghost use Rattle.std.specs.Prelude.{◌≡◌, ◌↔◌, true, false, IsTrue, IfOk, OnOk, IsErrOf};
ghost use Rattle.std.specs.List.{list_all};
ghost use Rattle.checkpoints.specs.Reached.{is_plain};
ghost use Rattle.checkpoints.specs.Restorable.{each, is_restorable, has_slots, filled_in};
ghost use Rattle.checkpoints.specs.Restored.{restored};
ghost use Rattle.base.specs.Limits.{in_range};
ghost use Rattle.kernel_rules.specs.Scratch.{scratch};
ghost use Rattle.base.specs.declared.kinds.Kind.TheVariants as kinds;
ghost use Rattle.kernel_rules.specs.State.{is_live_kind};
ghost use Rattle.kernel_rules.specs.WellFormed.{is_well_formed};

use crate::machine::Machine;
use crate::restoring::{RestoreFault, restore, write};
use base::{Kind, Limits, Meter, NoMemory, ObjectId};
use checkpoints::{Checkpoint, NextNumber};
use kernel_calls::kernel_tables::tables;
use kernel_calls::{ask, step};
use kernel_rules::{Call, Query, Reply, Tables};
use plain_state::{BootRefusal, PlainState};
use std::alloc::Global;

/// A label kernel that keeps nothing but its records, and computes liveness, use and label rules
/// anew at each call. A contract sees it as its state, which is well formed at all times.
#[derive(Drop)]
pub struct PlainKernel {
    state: PlainState,
}

impl PlainKernel {
    ghost use Rattle.plain_core.specs.Kernel.{kernel_state};
    ghost use Rattle.kernel_rules.specs.Runs.{booted};

    /// A newly booted kernel: the root container 1, the boot thread 2 and the device 3. The error
    /// is `BadLimits` exactly where a limit is out of its range, and else, for want of memory,
    /// `Unavailable`.
    pub fn boot(alloc: Global, limits: &Limits) -> Result<PlainKernel, BootRefusal>
        ensures state { IfOk result (λ kernel. kernel_state kernel ≡ booted limits.now) }
        ensures limits { IsErrOf result BootRefusal.BadLimits ↔ (in_range limits.now ≡ false) }
    {
        match PlainState::boot(alloc, limits) {
            Ok(state) => Ok(PlainKernel { state }),
            Err(refusal) => Err(refusal),
        }
    }

    /// A kernel in the state that a checkpoint writes down. The error is `IllFormed` only where the
    /// checkpoint can't be restored; where it can't be, it is `IllFormed` or want of memory, and where
    /// it can be, want of memory alone.
    pub fn restore(
        alloc: Global,
        limits: &Limits,
        checkpoint: &Checkpoint,
    ) -> Result<PlainKernel, RestoreFault>
        ensures state { IfOk result (λ kernel. kernel_state kernel ≡ restored limits.now checkpoint.now) }
        ensures fit { OnOk result (is_restorable limits.now checkpoint.now ≡ true) }
        ensures ill_formed { IsErrOf result RestoreFault.IllFormed
            → is_restorable limits.now checkpoint.now ≡ false }
    {
        match restore(alloc, limits, checkpoint) {
            Ok(state) => Ok(PlainKernel { state }),
            Err(fault) => Err(fault),
        }
    }

    /// The checkpoint that writes down the kernel's state, with these numbers. In the state no thread or device is read-only
    /// for good, and no thread's metadata were set, as calls leave it. The error is want of memory.
    pub(crate) fn write(
        &self,
        alloc: Global,
        next: Vec<NextNumber>,
        meter: &mut Meter,
    ) -> Result<Checkpoint, NoMemory>
        requires { each is_plain (kernel_state self.now) ≡ true }
        ensures value { IfOk result (λ written.
            restored (kernel_state self.now).limits written ≡ kernel_state self.now) }
        ensures slots { IfOk result (λ written.
            list_all (λ e. has_slots (filled_in e.object.body)) written.objects ≡ true) }
        ensures next { IfOk result (λ written. written.next ≡ next.items) }
    {
        write(alloc, &self.state, next, meter)
    }

    /// The tables of the kernel's state, recomputed: what a machine that decides fast would keep. Want
    /// of memory is the only error.
    pub fn tables(&self, meter: &mut Meter) -> Result<Tables, NoMemory>
        ensures { IfOk result (λ tables. tables ≡ scratch (kernel_state self.now)) }
    {
        tables(self.state.alloc(), &self.state, meter)
    }

    /// A law, which does nothing when it is called: the state of every kernel is well formed.
    pub fn well_formed(&self)
        ensures { IsTrue (is_well_formed (kernel_state self.now)) }
    {
        self.state.well_formed();
    }

    /// Whether an id is that of a live thread.
    pub fn is_thread(&self, thread: ObjectId) -> bool
        ensures { result ≡ is_live_kind (kernel_state self.now) kinds.Thread thread }
    {
        self.state.is_live_kind(Kind::Thread, thread)
    }
}

impl Machine for PlainKernel {
    ghost use Rattle.plain_core.specs.Kernel.{kernel_state};

    ghost state = { kernel_state };

    fn step(
        &mut self,
        thread: ObjectId,
        call: &Call,
        meter: &mut Meter,
    ) -> Result<Reply, NoMemory> {
        step(&mut self.state, thread, call, meter)
    }

    fn ask(&self, thread: ObjectId, query: &Query, meter: &mut Meter) -> Result<Reply, NoMemory> {
        Ok(ask(&self.state, thread, query, meter))
    }
}

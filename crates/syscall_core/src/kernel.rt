//! The arena kernel: what it keeps equals recomputation, and no call takes memory after boot.
//!
//! A call has 720 bytes and a reply 688, since both can carry three labels. The compiler sets a value that a function makes to
//! zero first. So calls have a second form that puts the reply where the caller wants it (`step_into`, `ask_into`).
ghost use Rattle.std.specs.Prelude.{◌≡◌, ◌≢◌, ◌≤◌, ◌+◌, ◌↔◌, true, false, IfOk, OnOk, IfErr, IfSome, IsErrOf, IsTrue, Some, None};
ghost use Rattle.std.specs.Prelude.{option_copied, option_map, slice_get};
ghost use Rattle.base.specs.Limits.{in_range};
ghost use Rattle.base.specs.declared.kinds.Kind.TheVariants as kinds;
ghost use Rattle.kernel_rules.specs.Scratch.{ids_of, scratch};
ghost use Rattle.kernel_rules.specs.State.{is_live_kind, object_at, use_of};
ghost use Rattle.kernel_rules.specs.Runs.{booted};
ghost use Rattle.kernel_rules.specs.WellFormed.{is_well_formed};
ghost use Rattle.arena_state.specs.Kept.{AreStored, Stores};
ghost use Rattle.kernel_rules.specs.Translate.{translate};
ghost use Rattle.arena_state.specs.States.{state_of};
ghost use Rattle.checkpoints.specs.Restored.{restored};
ghost use Rattle.syscall_core.specs.Restored.{restore_refusal, AreNext, WasReached};

use crate::checkpointing::{copied, written};
use crate::kept_state::KeptState;
use crate::origins::Origin;
use crate::restores::{RestoreError, restored_state};
use arena_state::ArenaState;
use base::{Kind, Limits, Meter, NoMemory, ObjectId, Rights};
use checkpoints::{Checkpoint, NextNumber};
use kernel_calls::kernel_tables::tables;
use kernel_calls::{ask_into, step_surely_into};
use kernel_rules::{Call, Query, Reply, Tables};
use label_intern::{LabelIx, OrderBits};
use label_lattice::Label;
use plain_core::{BootRefusal, Machine};
use std::alloc::Global;

/// A label kernel that takes all its memory at boot and keeps what its calls decide by: label
/// orders, translations, uses and live ids. A contract sees it as its state, which is well formed
/// at all times.
#[derive(Drop)]
pub struct Kernel {
    alloc: Global,
    origin: Origin,
    kept: KeptState,
    ghost reached: { WasReached origin (state_of kept.state) },
}

// The state after a boot, for limits in range. Want of memory is the only error.
fn booted_state(alloc: Global, limits: &Limits) -> Result<KeptState, NoMemory>
    requires { in_range limits.now ≡ true }
    ensures { IfOk result (λ kept. state_of kept.state ≡ booted limits.now) }
{
    let mut meter = Meter::new(alloc)?;
    let state = ArenaState::boot(alloc, limits, &mut meter)?;
    let rows = state.new_rows(alloc, &mut meter)?;
    Ok(KeptState { state, rows })
}

impl Kernel {
    ghost use Rattle.kernel_rules.specs.Runs.{booted};
    ghost use Rattle.syscall_core.specs.Kernel.{kernel_state, label_at, order_at};

    /// A newly booted kernel: the root container 1, the boot thread 2 and the device 3. All its memory
    /// is taken here. The error is `BadLimits` exactly where a limit is out of its range, and else, for
    /// want of memory, `Unavailable`.
    pub fn boot(alloc: Global, limits: &Limits) -> Result<Kernel, BootRefusal>
        ensures state { IfOk result (λ kernel. kernel_state kernel ≡ booted limits.now) }
        ensures limits { IsErrOf result BootRefusal.BadLimits ↔ (in_range limits.now ≡ false) }
    {
        if !limits.is_in_range() {
            return Err(BootRefusal::BadLimits);
        }
        match booted_state(alloc, limits) {
            Ok(kept) => Ok(Kernel {
                alloc,
                origin: Origin::new(limits),
                kept,
            }),
            Err(_) => Err(BootRefusal::Unavailable),
        }
    }

    /// A kernel in the state that a checkpoint writes down. All its memory is taken here, as at a boot. The error is
    /// `BadLimits` exactly where a limit is out of its range. Else it is `IllFormed` only where the checkpoint can't be
    /// restored, `OlderContainer` only where it can be and a container lists another one whose id is not above its own, and
    /// want of memory at any time. The checkpoint stays.
    pub fn restore(
        alloc: Global,
        limits: &Limits,
        checkpoint: &Checkpoint,
    ) -> Result<Kernel, RestoreError>
        ensures state { IfOk result (λ kernel. kernel_state kernel ≡ restored limits.now checkpoint.now) }
        ensures fit { OnOk result (restore_refusal limits.now checkpoint.now ≡ None) }
        ensures limits { IsErrOf result RestoreError.BadLimits ↔ (in_range limits.now ≡ false) }
        ensures refused { IfErr result (λ error. error ≢ RestoreError.NoMemory
            → restore_refusal limits.now checkpoint.now ≡ Some error) }
    {
        match restored_state(alloc, limits, checkpoint) {
            Ok(kept) => Ok(Kernel {
                alloc,
                origin: Origin::new(limits),
                kept,
            }),
            Err(error) => Err(error),
        }
    }

    /// A kernel in the same state, whose calls leave this one as it is. All its memory is taken here, as at a boot. The error
    /// is want of memory.
    pub fn copy(&self, alloc: Global) -> Result<Kernel, NoMemory>
        ensures { IfOk result (λ kernel. kernel_state kernel ≡ kernel_state self.now) }
    {
        let kept = copied(alloc, self.origin.limits(), &self.kept)?;
        Ok(Kernel {
            alloc,
            origin: Origin::new(self.origin.limits()),
            kept,
        })
    }

    /// The checkpoint that writes the kernel's state down, with these next numbers. Where the numbers are from 2 and those of
    /// given threads, which rise, `restore` refuses it for nothing but want of memory, with the limits of this kernel. The
    /// error is want of memory.
    pub fn checkpoint(&self, alloc: Global, next: Vec<NextNumber>) -> Result<Checkpoint, NoMemory>
        ensures state { IfOk result (λ made.
            restored (kernel_state self.now).limits made ≡ kernel_state self.now) }
        ensures next { IfOk result (λ made. made.next ≡ next.items) }
        ensures fit { AreNext (kernel_state self.now) next.items → IfOk result (λ made.
            restore_refusal (kernel_state self.now).limits made ≡ None) }
    {
        written(alloc, self.origin.limits(), &self.kept, next)
    }

    /// The id of the next new object; at 2^61 there is none left.
    pub fn next_id(&self) -> ObjectId
        ensures { result ≡ (kernel_state self.now).next_id }
    {
        self.kept.state.next_id()
    }

    /// The limits of the boot.
    pub fn limits(&self) -> &Limits
        ensures { result.now ≡ (kernel_state self.now).limits }
    {
        self.origin.limits()
    }

    /// A law, which does nothing when it is called: the state of every kernel is well formed.
    pub fn well_formed(&self)
        ensures { IsTrue (is_well_formed (kernel_state self.now)) }
    {}

    /// The tables of the kernel's state, recomputed by its calls. Want of memory is the only error.
    pub fn tables(&self, meter: &mut Meter) -> Result<Tables, NoMemory>
        ensures { IfOk result (λ tables. tables ≡ scratch (kernel_state self.now)) }
    {
        tables(self.alloc, &self.kept, meter)
    }

    /// Whether an id is that of a live thread. No label is scanned.
    pub fn is_thread(&self, thread: ObjectId, meter: &mut Meter) -> bool
        ensures value { result ≡ is_live_kind (kernel_state self.now) kinds.Thread thread }
        ensures scans { meter.new.scans ≡ meter.old.scans }
        ensures probes { meter.new.probes ≤ meter.old.probes + 16 }
    {
        self.kept.rows.few();
        self.kept.state.is_live_kind(Kind::Thread, thread, meter)
    }

    /// A law, which does nothing when it is called: the labels of the indexes are those that the state stores. Each stored
    /// label has one index, and no other label has one.
    pub fn labels_are_kept(&self)
        ensures { AreStored (kernel_state self.now) (label_at self.now) }
    {
        self.kept.state.labels_are_kept();
    }

    /// The label of an index, none where it has none. It is a label that the state stores; `labels_are_kept` says that each
    /// of these has one index.
    pub fn kept_label(&self, index: LabelIx) -> Option<&Label>
        ensures value { option_copied result ≡ label_at self.now index.0 }
        ensures stored { IfSome result (λ label. Stores (kernel_state self.now) label.now) }
    {
        self.labels_are_kept();
        self.kept.state.kept_label(index)
    }

    /// How the label of an index compares with that of another, none exactly where one of the two has none. No label is
    /// scanned.
    pub fn kept_order(&self, one: LabelIx, other: LabelIx) -> Option<OrderBits>
        ensures { option_map (λ o. o.0) result ≡ order_at self.now one.0 other.0 }
    {
        self.kept.state.kept_order(one, other)
    }

    /// What a slot of a live thread's address space shows, as it is kept: a segment, with the
    /// rights to it. None for any other id, and from the sixteenth slot on. No label is scanned.
    pub fn kept_translation(
        &self,
        thread: ObjectId,
        slot: usize,
        meter: &mut Meter,
    ) -> Option<(ObjectId, Rights)>
        ensures value { result ≡ translate (kernel_state self.now) thread slot }
        ensures threads { is_live_kind (kernel_state self.now) kinds.Thread thread ≡ false
            → result ≡ None }
        ensures slots { 16 ≤ slot → result ≡ None }
        ensures scans { meter.new.scans ≡ meter.old.scans }
        ensures probes { meter.new.probes ≤ meter.old.probes + 16 }
    {
        let kept = &self.kept;
        kept.rows.few();
        kept.state.kept_translation(thread, slot, &kept.rows, meter)
    }

    /// What a live object uses, in pages of 256 bytes, as it is kept; none for any other id.
    pub fn kept_use(&self, id: ObjectId, meter: &mut Meter) -> Option<u32>
        ensures value { result
            ≡ option_map (λ _. use_of (kernel_state self.now) id) (object_at (kernel_state self.now) id) }
        ensures scans { meter.new.scans ≡ meter.old.scans }
        ensures probes { meter.new.probes ≤ meter.old.probes + 16 }
    {
        self.kept.rows.few();
        self.kept.state.kept_use(id, meter)
    }

    /// The id at a place among the live ids, which rise, from 0 on; none from their number on.
    pub fn kept_live(&self, place: usize, meter: &mut Meter) -> Option<ObjectId>
        ensures value { result ≡ slice_get (ids_of (kernel_state self.now).objects) place }
        ensures scans { meter.new.scans ≡ meter.old.scans }
        ensures probes { meter.new.probes ≤ meter.old.probes + 16 }
    {
        self.kept.state.kept_live(place, meter)
    }
}

impl Kernel {
    ghost use Rattle.kernel_rules.specs.Step.{answer, next, query_answer};
    ghost use Rattle.kernel_calls.specs.Scans.{is_load, is_quiet, most_scans, stores};
    ghost use Rattle.kernel_store.specs.Storing.{label_count};
    ghost use Rattle.syscall_core.specs.Kernel.{kernel_state};

    /// One call, as `step_surely` says, with its reply put where another stands, whatever that is: a reply is
    /// large, and is so made where it is wanted.
    pub fn step_into(&mut self, thread: ObjectId, call: &Call, reply: &mut Reply, meter: &mut Meter)
        ensures reply { reply.new ≡ answer (kernel_state self.old) thread call.now }
        ensures state { kernel_state self.new ≡ next (kernel_state self.old) thread call.now }
        ensures quiet { is_quiet call.now ≡ true → meter.new.scans ≡ meter.old.scans }
        ensures scans { meter.new.scans ≤ meter.old.scans
            + most_scans (stores call.now) (label_count (kernel_state self.old)) }
    {
        self.kept.state.labels_are_carried();
        step_surely_into(&mut self.kept, thread, call, reply, meter)
    }

    /// One call of a thread that may change the state, as `Machine::step` says; it takes no memory, so
    /// there is no error. A call that stores no label scans none, refused or not; one that stores n labels,
    /// where objects carry m different ones before it, scans at most 12 + 6(n + 1)(m + n) times.
    pub fn step_surely(&mut self, thread: ObjectId, call: &Call, meter: &mut Meter) -> Reply
        ensures reply { result ≡ answer (kernel_state self.old) thread call.now }
        ensures state { kernel_state self.new ≡ next (kernel_state self.old) thread call.now }
        ensures quiet { is_quiet call.now ≡ true → meter.new.scans ≡ meter.old.scans }
        ensures scans { meter.new.scans ≤ meter.old.scans
            + most_scans (stores call.now) (label_count (kernel_state self.old)) }
    {
        let mut reply = Reply::Done;
        self.step_into(thread, call, &mut reply, meter);
        reply
    }

    /// One query, as `ask_surely` says, with its reply put where another stands, whatever that is.
    pub fn ask_into(&self, thread: ObjectId, query: &Query, reply: &mut Reply, meter: &mut Meter)
        ensures reply { reply.new ≡ query_answer (kernel_state self.now) thread query.now }
        ensures scans { meter.new.scans ≡ meter.old.scans }
        ensures probes { is_load query.now ≡ true
            → meter.new.probes ≤ meter.old.probes + 64 }
    {
        ask_into(&self.kept, thread, query, reply, meter)
    }

    /// One query of a thread, as `Machine::ask` says; it takes no memory, so there is no error. No label
    /// is scanned, and a `load` adds at most 64 probes.
    pub fn ask_surely(&self, thread: ObjectId, query: &Query, meter: &mut Meter) -> Reply
        ensures reply { result ≡ query_answer (kernel_state self.now) thread query.now }
        ensures scans { meter.new.scans ≡ meter.old.scans }
        ensures probes { is_load query.now ≡ true
            → meter.new.probes ≤ meter.old.probes + 64 }
    {
        let mut reply = Reply::Done;
        self.ask_into(thread, query, &mut reply, meter);
        reply
    }
}

impl Machine for Kernel {
    ghost use Rattle.std.specs.Prelude.{⊤, IsOk, IfOk, OnOk, OnErr, ◌≡◌, ◌≤◌, ◌+◌};
    ghost use Rattle.kernel_calls.specs.Scans.{is_load, is_quiet, most_scans, stores};
    ghost use Rattle.kernel_rules.specs.Step.{answer, next, query_answer};
    ghost use Rattle.kernel_store.specs.Storing.{label_count};
    ghost use Rattle.syscall_core.specs.Kernel.{kernel_state};

    ghost state = { kernel_state };

    ghost sure = { ⊤ };

    fn step(&mut self, thread: ObjectId, call: &Call, meter: &mut Meter) -> Result<Reply, NoMemory>
        ensures reply { IfOk result (λ reply. reply ≡ answer (kernel_state self.old) thread call.now) }
        ensures ok { OnOk result (kernel_state self.new ≡ next (kernel_state self.old) thread call.now) }
        ensures err { OnErr result (kernel_state self.new ≡ kernel_state self.old) }
        ensures sure { IsOk result }
        ensures quiet { is_quiet call.now ≡ true → meter.new.scans ≡ meter.old.scans }
        ensures scans { meter.new.scans ≤ meter.old.scans
            + most_scans (stores call.now) (label_count (kernel_state self.old)) }
    {
        Ok(self.step_surely(thread, call, meter))
    }

    fn ask(&self, thread: ObjectId, query: &Query, meter: &mut Meter) -> Result<Reply, NoMemory>
        ensures reply { IfOk result
            (λ reply. reply ≡ query_answer (kernel_state self.now) thread query.now) }
        ensures sure { IsOk result }
        ensures scans { meter.new.scans ≡ meter.old.scans }
        ensures probes { is_load query.now ≡ true
            → meter.new.probes ≤ meter.old.probes + 64 }
    {
        Ok(self.ask_surely(thread, query, meter))
    }
}

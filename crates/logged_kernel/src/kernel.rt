//! A kernel with its log.
ghost use Rattle.std.specs.Prelude.{◌≡◌, ◌≢◌, ◌↔◌, ◌&&◌, false, true, IfErr, IfOk, OnOk, OnErr, IsErrOf, None, Some, option_map};
ghost use Rattle.base.specs.Limits.{in_range};
ghost use Rattle.checkpoints.specs.Restored.{restored};
ghost use Rattle.kernel_rules.specs.Runs.{booted};
ghost use Rattle.kernel_rules.specs.Step.{answer, query_answer};
ghost use Rattle.dump_text.specs.Boot.{boot_checkpoint};
ghost use Rattle.syscall_core.specs.Kernel.{kernel_state};
ghost use Rattle.syscall_core.specs.Restored.{AreNext, restore_refusal};
ghost use Rattle.logged_kernel.specs.Logged.{AreNumbered, IsCut, IsMade, IsPieceOf, IsWritten, Writes, begun, is_full, keeps_reads, with_query};

use crate::logging::{EventLog, checkpoint_text_of, keep_read, make_kept, piece_of};
use crate::numbers::next_numbers;
use base::{Limits, Meter, NoMemory, ObjectId};
use checkpoints::{Checkpoint, NextNumber};
use dump_text::{boot_checkpoint, boots_can_begin};
use kernel_rules::{Call, Query, Reply};
use std::alloc::Global;
use std::marker::Model;
use syscall_core::{BootRefusal, Kernel, RestoreError};
use thiserror::Error;

/// Why a call was not made: the log has no room for it.
#[derive(Clone, Copy, PartialEq, Eq, Debug, Error)]
pub enum NotKept {
    /// There is no memory for it, or the thread has no next number.
    #[error("out of memory")]
    NoMemory,
    /// The log has as much as it may have.
    #[error("log full")]
    LogFull,
}

/// A kernel, and the log of its calls where one is kept. A contract sees the kernel, its limits, the checkpoint at which the
/// log begins, whether no write call was made since, what is kept, how much there may be, and whether reads are kept. The
/// events are legal from there, the kernel is in the state that they lead to, and each read has the rules' reply at its place.
#[derive(Drop)]
pub struct LoggedKernel {
    kernel: Kernel,
    alloc: Global,
    limits: Limits,
    origin: Checkpoint,
    is_new: bool,
    log: Option<EventLog>,
    most: u64,
    reads: bool,
}

impl Model for LoggedKernel {
    ghost use Rattle.syscall_core.specs.Kernel.{kernel_state};
    ghost use Rattle.logged_kernel.specs.Logged.{Logged, IsNumbered, IsSound, entries_in};

    ghost Value = { Logged };

    ghost view = { λ k. record {
      kernel = k.kernel;
      limits = k.limits;
      origin = k.origin;
      is_new = k.is_new;
      log = entries_in k.log;
      most = k.most;
      reads = k.reads;
    } };

    ghost invariant = { λ k. IsSound k.limits k.origin (kernel_state k.kernel) k.is_new (entries_in k.log)
        × IsNumbered k.origin.next k.log };
}

impl LoggedKernel {
    /// A newly booted kernel, as `Kernel::boot` gives it. Its calls are not kept.
    pub fn boot(alloc: Global, limits: &Limits) -> Result<LoggedKernel, BootRefusal>
        ensures state { IfOk result (λ k. kernel_state k.kernel ≡ booted limits.now) }
        ensures limits { IfOk result (λ k. k.limits ≡ limits.now) }
        ensures origin { IfOk result (λ k. k.origin ≡ boot_checkpoint limits.now) }
        ensures new { IfOk result (λ k. k.is_new ≡ true) }
        ensures unlogged { IfOk result (λ k. k.log ≡ None) }
        ensures refused { IsErrOf result BootRefusal.BadLimits ↔ (in_range limits.now ≡ false) }
    {
        boots_can_begin();
        let kernel = Kernel::boot(alloc, limits)?;
        let Ok(origin) = boot_checkpoint(alloc, limits) else {
            return Err(BootRefusal::Unavailable);
        };
        Ok(LoggedKernel {
            kernel,
            alloc,
            limits: *limits,
            origin,
            is_new: true,
            log: None,
            most: u64::MAX,
            reads: false,
        })
    }

    /// A kernel in the state that a checkpoint writes down, as `Kernel::restore` gives it. Its calls are not kept.
    pub fn restore(
        alloc: Global,
        limits: &Limits,
        origin: Checkpoint,
    ) -> Result<LoggedKernel, RestoreError>
        ensures state { IfOk result (λ k. kernel_state k.kernel ≡ restored limits.now origin) }
        ensures limits { IfOk result (λ k. k.limits ≡ limits.now) }
        ensures origin { IfOk result (λ k. k.origin ≡ origin) }
        ensures new { IfOk result (λ k. k.is_new ≡ true) }
        ensures unlogged { IfOk result (λ k. k.log ≡ None) }
        ensures fit { OnOk result (restore_refusal limits.now origin ≡ None) }
        ensures refused { IfErr result (λ error. error ≢ RestoreError.NoMemory
            → restore_refusal limits.now origin ≡ Some error) }
    {
        let kernel = Kernel::restore(alloc, limits, &origin)?;
        Ok(LoggedKernel {
            kernel,
            alloc,
            limits: *limits,
            origin,
            is_new: true,
            log: None,
            most: u64::MAX,
            reads: false,
        })
    }

    /// The kernel.
    pub fn kernel(&self) -> &Kernel
        ensures { result.now ≡ self.now.kernel }
    {
        &self.kernel
    }

    /// Begins the log, of so much at most: each write call from here on is kept, and each read where reads are wanted. Tells
    /// whether it began, which it does where no write call was made since the boot or the checkpoint. Else nothing changes.
    pub fn begin_log(&mut self, most: u64, reads: bool) -> bool
        ensures began { result ≡ self.old.is_new }
        ensures log { self.new ≡ begun most reads self.old }
    {
        if !self.is_new {
            return false;
        }
        self.log = Some(EventLog::new(self.alloc));
        self.most = most;
        self.reads = reads;
        true
    }

    // Whether the log has as much as it may have.
    fn is_full(&self) -> bool
        ensures { result ≡ is_full self.now }
    {
        match &self.log {
            None => false,
            Some(log) => self.most <= log.entries.len() as u64,
        }
    }

    // Makes a call of a thread, whose event is the last where a log is kept, however much it has. The error is want of memory
    // for the event, or that the thread has no next number.
    fn make(
        &mut self,
        thread: ObjectId,
        call: &Call,
        reply: &mut Reply,
        meter: &mut Meter,
    ) -> Result<(), NoMemory>
        ensures made { OnOk result (IsMade self.old self.new thread call.now) }
        ensures reply { OnOk result
            (reply.new ≡ answer (kernel_state self.old.kernel) thread call.now) }
        ensures kept { OnErr result (self.new ≡ self.old) }
        ensures sure { self.old.log ≡ None → OnErr result ⊥ }
    {
        match &mut self.log {
            None => self.kernel.step_into(thread, call, reply, meter),
            Some(log) => make_kept(
                &mut self.kernel,
                &self.origin,
                log,
                thread,
                call,
                reply,
                meter,
            )?,
        }
        self.is_new = false;
        Ok(())
    }

    /// Makes a call of a thread. The reply becomes the answer. Where a log is kept, the call with its answer is its last
    /// event. It is refused exactly where the log has as much as it may have, and for want of memory for that event,
    /// or where the thread has no next number; that changes nothing in the kernel and the log. Where no log is kept, no
    /// memory is taken, and there is no error.
    pub fn step_into(
        &mut self,
        thread: ObjectId,
        call: &Call,
        reply: &mut Reply,
        meter: &mut Meter,
    ) -> Result<(), NotKept>
        ensures made { OnOk result (IsMade self.old self.new thread call.now) }
        ensures reply { OnOk result
            (reply.new ≡ answer (kernel_state self.old.kernel) thread call.now) }
        ensures kept { OnErr result (self.new ≡ self.old) }
        ensures full { IsErrOf result NotKept.LogFull ↔ (is_full self.old ≡ true) }
        ensures sure { self.old.log ≡ None → OnErr result ⊥ }
    {
        if self.is_full() {
            return Err(NotKept::LogFull);
        }
        match self.make(thread, call, reply, meter) {
            Ok(()) => Ok(()),
            Err(_) => Err(NotKept::NoMemory),
        }
    }

    // Asks a query of a thread, and keeps it where reads are kept, however much the log has. The error is want of memory for it.
    fn ask(
        &mut self,
        thread: ObjectId,
        query: &Query,
        reply: &mut Reply,
        meter: &mut Meter,
    ) -> Result<(), NoMemory>
        ensures reply { reply.new ≡ query_answer (kernel_state self.old.kernel) thread query.now }
        ensures log { OnOk result (self.new ≡ with_query self.old thread query.now) }
        ensures kept { OnErr result (self.new ≡ self.old) }
        ensures sure { keeps_reads self.old ≡ false → OnErr result ⊥ }
    {
        self.kernel.ask_into(thread, query, reply, meter);
        if !self.reads {
            return Ok(());
        }
        match &mut self.log {
            None => Ok(()),
            Some(log) => keep_read(log, thread, query, reply, meter),
        }
    }

    /// Asks a query of a thread. The reply becomes the answer. Where reads are kept, its line stands in the log, before those
    /// of greater threads at the same place. It is refused exactly where such a log has as much as it may have, and for want of
    /// memory for that line; that changes nothing in the kernel and the log. Where no reads are kept, there is no error.
    pub fn ask_into(
        &mut self,
        thread: ObjectId,
        query: &Query,
        reply: &mut Reply,
        meter: &mut Meter,
    ) -> Result<(), NotKept>
        ensures reply { OnOk result
            (reply.new ≡ query_answer (kernel_state self.old.kernel) thread query.now) }
        ensures log { OnOk result (self.new ≡ with_query self.old thread query.now) }
        ensures kept { OnErr result (self.new ≡ self.old) }
        ensures full { IsErrOf result NotKept.LogFull ↔ (self.old.reads && is_full self.old ≡ true) }
        ensures sure { keeps_reads self.old ≡ false → OnErr result ⊥ }
    {
        if self.reads && self.is_full() {
            return Err(NotKept::LogFull);
        }
        match self.ask(thread, query, reply, meter) {
            Ok(()) => Ok(()),
            Err(NoMemory) => Err(NotKept::NoMemory),
        }
    }

    /// A piece of the text of the log's dump, by its number; none where no log is kept. Number 0 has what stands before the
    /// events, each next one up to 64 events and reads, and the last one the tables; past it a piece is empty. One after another they
    /// are the dump of events that are legal from the checkpoint at which they begin, so an audit finds it clean. The error
    /// is want of memory for the piece of a log that is kept.
    pub fn dump_piece(&self, number: u64, meter: &mut Meter) -> Result<Option<Vec<u8>>, NoMemory>
        ensures piece { IfOk result
            (λ text. IsPieceOf self.now number (option_map (λ t. t.items) text)) }
        ensures sure { self.now.log ≡ None → OnErr result ⊥ }
    {
        let Some(log) = &self.log else {
            return Ok(None);
        };
        let text = piece_of(log, &self.limits, &self.origin, &self.kernel, number, meter)?;
        Ok(Some(text))
    }

    // The next number of each thread that was given, where it isn't 1; of none where no log is kept.
    fn next(&self) -> Result<Vec<NextNumber>, NoMemory>
        ensures whole { IfOk result (λ next. AreNext (kernel_state self.now.kernel) next.items) }
        ensures numbers { IfOk result (λ next. AreNumbered self.now next.items) }
    {
        let Some(log) = &self.log else {
            return Ok(Vec::new(self.alloc));
        };
        let next_id = self.kernel.next_id().number();
        next_numbers(self.alloc, &self.origin, log.entries.as_slice(), next_id)
    }

    /// The checkpoint of the kernel as it stands, with the next number of each thread that was given; where no log is kept,
    /// each thread begins with 1. The error is want of memory, or that a thread has no next number.
    pub fn checkpoint(&self) -> Result<Checkpoint, NoMemory>
        ensures { IfOk result (Writes self.now) }
    {
        let next = self.next()?;
        self.kernel.checkpoint(self.alloc, next)
    }

    /// The text of the kernel's checkpoint: the dump of that and of no events, so an audit finds it clean. The error is want
    /// of memory, or that a thread has no next number.
    pub fn checkpoint_text(&self, meter: &mut Meter) -> Result<Vec<u8>, NoMemory>
        ensures { IfOk result (λ text. IsWritten self.now text.items) }
    {
        let checkpoint = self.checkpoint()?;
        let tables = self.kernel.tables(meter)?;
        let text = checkpoint_text_of(self.alloc, &self.limits, checkpoint, tables)?;
        Ok(text)
    }

    /// Begins the log anew at the kernel as it stands, of so much at most and with reads where they are wanted: what was kept is
    /// gone, and the numbers of threads go on. Where no log was kept, one begins. The error is want of memory, or that a thread
    /// has no next number, and nothing changes.
    pub fn cut_log(&mut self, most: u64, reads: bool) -> Result<(), NoMemory>
        ensures cut { OnOk result (IsCut most reads self.old self.new) }
        ensures kept { OnErr result (self.new ≡ self.old) }
    {
        self.origin = self.checkpoint()?;
        self.is_new = true;
        self.log = Some(EventLog::new(self.alloc));
        self.most = most;
        self.reads = reads;
        Ok(())
    }
}

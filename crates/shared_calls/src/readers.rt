//! Readers of one seat's kernel, at once.
ghost use Rattle.std.specs.Prelude.{◌≡◌, IfOk};
ghost use Rattle.std.specs.Arc.{arc_value};
ghost use Rattle.kernel_rules.specs.Step.{query_answer};
ghost use Rattle.syscall_core.specs.Kernel.{kernel_state};

use base::{Meter, NoMemory, ObjectId};
use kernel_rules::{Query, Reply};
use std::marker::Model;
use std::sync::Arc;
use syscall_core::Kernel;

/// A reader of a seat's kernel, which other readers read at once. A contract sees it as the state that it reads, which stays as it is.
#[derive(Drop)]
pub struct Reader {
    kernel: Arc<Kernel>,
}

impl Model for Reader {
    ghost use Rattle.std.specs.Arc.{arc_value};
    ghost use Rattle.kernel_rules.specs.State.{State};
    ghost use Rattle.syscall_core.specs.Kernel.{kernel_state};

    ghost Value = { State };

    ghost view = { λ r. kernel_state (arc_value r.kernel) };
}

impl Reader {
    /// A reader of this kernel. The error is want of memory.
    pub(crate) fn of(kernel: &Arc<Kernel>) -> Result<Reader, NoMemory>
        ensures { IfOk result (λ reader. reader ≡ kernel_state (arc_value kernel.now)) }
    {
        let kernel = Arc::try_clone(kernel)?;
        Ok(Reader { kernel })
    }

    /// Another reader of the same. The error is want of memory.
    pub fn another(&self) -> Result<Reader, NoMemory>
        ensures { IfOk result (λ reader. reader ≡ self.now) }
    {
        Reader::of(&self.kernel)
    }

    /// Asks as a thread. It waits for nobody and takes no memory.
    pub fn ask_into(&self, thread: ObjectId, query: &Query, reply: &mut Reply, meter: &mut Meter)
        ensures { reply.new ≡ query_answer self.now thread query.now }
    {
        self.kernel.ask_into(thread, query, reply, meter);
    }
}

/// What may be handed to another thread, and what threads may share.
fn crosses<T: Send + Sync>(_value: &T) {}

/// Threads may share a reader.
fn reader_crosses(reader: &Reader) {
    crosses(reader);
}

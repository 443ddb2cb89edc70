//! What the workers of a run asked, and what they were answered.
ghost use Rattle.std.specs.Prelude.{IfOk};
ghost use Rattle.script_runner.specs.Reads.{reads_kept, AreInOrder};

use crate::answers::Answers;
use base::{NoMemory, ObjectId};
use kernel_rules::Query;
use std::alloc::Global;

/// The queries of a worker that were answered, in their order.
#[derive(Drop)]
pub struct Reads {
    /// Its thread.
    pub thread: ObjectId,
    /// The queries, with what they were answered.
    pub(crate) answers: Answers,
}

/// A read of a run.
#[derive(Drop)]
pub struct SeenRead {
    /// The thread that asked.
    pub thread: ObjectId,
    /// How many events it had then seen.
    pub length: usize,
    /// What it asked.
    pub query: Query,
    /// What it was answered, as it is printed where no name is known.
    pub text: Vec<u8>,
}

/// The reads of all workers: by rising length, at each length by rising thread, and there in the thread's order. The
/// error is want of memory.
pub fn seen_reads(alloc: Global, workers: &[Reads]) -> Result<Vec<SeenRead>, NoMemory>
    ensures { IfOk result (λ reads. AreInOrder (reads_kept workers.now) reads.items) }
{
    let mut all = Vec::new(alloc);
    for reads in workers {
        reads.answers.add_reads(alloc, reads.thread, &mut all)?;
    }
    all.sort_by_key(|read| (read.length, read.thread.number()))?;
    Ok(all)
}

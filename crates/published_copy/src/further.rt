//! What the calls of a batch after its first are answered.
ghost use Rattle.std.specs.Prelude.{◌≡◌, ◌≤◌, ◌∷◌, [], length, vec_capacity, IfOk};
ghost use Rattle.kernel_rules.specs.Events.{by};
ghost use Rattle.kernel_rules.specs.Runs.{replies_to, state_after};
ghost use Rattle.syscall_core.specs.Kernel.{kernel_state};

use base::{Meter, NoMemory, ObjectId};
use kept_events::{KeptReply, call_answers};
use kernel_rules::histories::BATCH;
use kernel_rules::{Call, Reply};
use std::alloc::Global;
use std::marker::Model;
use syscall_core::Kernel;

/// What the calls of a batch after its first were answered, with room for those of the longest batch, so that no batch takes
/// memory for them. A contract sees the replies.
#[derive(Drop)]
pub(crate) struct Further {
    replies: Vec<KeptReply>,
}

impl Model for Further {
    ghost use Rattle.std.specs.Prelude.{◌≤◌, List, vec_capacity};
    ghost use Rattle.kernel_rules.specs.declared.replies.Reply.{Reply};

    ghost Value = { List Reply };

    ghost view = { λ f. f.replies.items };

    ghost invariant = { λ f. 15 ≤ vec_capacity f.replies };
}

/// A kernel makes calls of a thread, and their answers become the replies, for which there is room. A call that is
/// refused changes nothing, and those after it are made.
fn make_more(
    kernel: &mut Kernel,
    meter: &mut Meter,
    thread: ObjectId,
    calls: &[Call],
    replies: &mut Vec<KeptReply>,
)
    requires empty { replies.old.items ≡ [] }
    requires room { length calls.now ≤ vec_capacity replies.old }
    ensures replies { replies.new.items
        ≡ replies_to (kernel_state kernel.old) (by thread calls.now) }
    ensures state { kernel_state kernel.new
        ≡ state_after (kernel_state kernel.old) (by thread calls.now) }
    ensures capacity { vec_capacity replies.new ≡ vec_capacity replies.old }
{
    let mut reply = Reply::Done;
    for call in calls {
        kernel.step_into(thread, call, &mut reply, meter);
        call_answers();
        replies.push_reserved(KeptReply::new(&reply));
    }
}

impl Further {
    /// No replies. The error is want of memory.
    pub(crate) fn new(alloc: Global) -> Result<Further, NoMemory>
        ensures { IfOk result (λ further. further ≡ []) }
    {
        let replies = Vec::with_capacity(alloc, BATCH - 1)?;
        Ok(Further { replies })
    }

    /// The replies.
    pub(crate) fn replies(&self) -> &[KeptReply]
        ensures { result.now ≡ self.now }
    {
        self.replies.as_slice()
    }

    /// A kernel makes the calls of a batch: the reply becomes the answer to the first, and these become the answers to
    /// those after it.
    pub(crate) fn make(
        &mut self,
        kernel: &mut Kernel,
        meter: &mut Meter,
        thread: ObjectId,
        call: &Call,
        more: &[Call],
        reply: &mut Reply,
    )
        requires { length more.now ≤ 15 }
        ensures replies { reply.new ∷ self.new
            ≡ replies_to (kernel_state kernel.old) (by thread (call.now ∷ more.now)) }
        ensures state { kernel_state kernel.new
            ≡ state_after (kernel_state kernel.old) (by thread (call.now ∷ more.now)) }
    {
        kernel.step_into(thread, call, reply, meter);
        self.replies.clear();
        if !more.is_empty() {
            make_more(kernel, meter, thread, more, &mut self.replies);
        }
    }
}

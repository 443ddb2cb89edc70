//! How a kernel makes the calls of batches.
ghost use Rattle.std.specs.Prelude.{◌≡◌, ◌≤◌, ◌<◌, ◌+◌, ◌∷◌, ◌++◌, [], length, vec_len, vec_capacity, IfOk, OnOk};
ghost use Rattle.kernel_rules.specs.Events.{by};
ghost use Rattle.kernel_rules.specs.History.{answered};
ghost use Rattle.kernel_rules.specs.Runs.{replies_to, state_after};
ghost use Rattle.kernel_rules.specs.Step.{answer, next};
ghost use Rattle.syscall_core.specs.Kernel.{kernel_state};

use crate::rules::Entry;
use base::{Meter, NoMemory, ObjectId};
use kept_events::KeptCall;
use kernel_rules::histories::Answered;
use kernel_rules::{Call, Mapping, Reply};
use std::alloc::Global;
use syscall_core::Kernel;

/// A kernel makes a call that is kept.
fn play_call(
    kernel: &mut Kernel,
    thread: ObjectId,
    kept: &KeptCall,
    reply: &mut Reply,
    meter: &mut Meter,
)
    ensures state { kernel_state kernel.new ≡ next (kernel_state kernel.old) thread kept.now }
    ensures reply { reply.new ≡ answer (kernel_state kernel.old) thread kept.now }
{
    let call = kept.call();
    kernel.step_into(thread, &call, reply, meter);
}

/// A kernel makes calls that are kept, one after another.
fn play_more(
    kernel: &mut Kernel,
    thread: ObjectId,
    calls: &[KeptCall],
    reply: &mut Reply,
    meter: &mut Meter,
)
    ensures { kernel_state kernel.new
        ≡ state_after (kernel_state kernel.old) (by thread calls.now) }
{
    for call in calls {
        play_call(kernel, thread, call, reply, meter);
    }
}

/// A kernel makes the batch that stands at a place. It is out of line, so that reads don't pay for its stack frame.
#[inline(never)]
pub(crate) fn play(kernel: &mut Kernel, entry: &Entry, reply: &mut Reply, meter: &mut Meter)
    ensures { kernel_state kernel.new ≡ state_after (kernel_state kernel.old)
        (by entry.now.thread (entry.now.call ∷ entry.now.more.items)) }
{
    play_call(kernel, entry.thread, &entry.call, reply, meter);
    if !entry.more.is_empty() {
        play_more(kernel, entry.thread, entry.more.as_slice(), reply, meter);
    }
}

/// A kernel makes the calls of a batch, and the replies become its answers, for which there is room.
pub(crate) fn make_all(
    kernel: &mut Kernel,
    meter: &mut Meter,
    thread: ObjectId,
    calls: &[Call],
    replies: &mut Vec<Reply>,
)
    requires empty { replies.old.items ≡ [] }
    requires room { length calls.now ≤ vec_capacity replies.old }
    ensures replies { replies.new.items
        ≡ replies_to (kernel_state kernel.old) (by thread calls.now) }
    ensures state { kernel_state kernel.new
        ≡ state_after (kernel_state kernel.old) (by thread calls.now) }
{
    let _named: Option<Mapping> = None;
    let mut reply = Reply::Done;
    for call in calls {
        kernel.step_into(thread, call, &mut reply, meter);
        replies.push_reserved(reply);
    }
}

/// A kernel makes a call that is kept, which is put at the end with its answer. There is room for it.
fn answer_call(
    kernel: &mut Kernel,
    meter: &mut Meter,
    thread: ObjectId,
    kept: &KeptCall,
    all: &mut Vec<Answered>,
)
    requires { vec_len all.old < vec_capacity all.old }
    ensures state { kernel_state kernel.new ≡ next (kernel_state kernel.old) thread kept.now }
    ensures told { all.new.items
        ≡ all.old.items ++ answered (kernel_state kernel.old) thread (kept.now ∷ []) }
    ensures capacity { vec_capacity all.new ≡ vec_capacity all.old }
{
    let _named: Option<Mapping> = None;
    let mut reply = Reply::Done;
    let call = kept.call();
    kernel.step_into(thread, &call, &mut reply, meter);
    all.push_reserved(Answered { call, reply });
}

/// A kernel makes calls that are kept, which are put at the end with their answers. There is room for them.
fn answer_more(
    kernel: &mut Kernel,
    meter: &mut Meter,
    thread: ObjectId,
    calls: &[KeptCall],
    all: &mut Vec<Answered>,
)
    requires { vec_len all.old + length calls.now ≤ vec_capacity all.old }
    ensures state { kernel_state kernel.new
        ≡ state_after (kernel_state kernel.old) (by thread calls.now) }
    ensures told { all.new.items
        ≡ all.old.items ++ answered (kernel_state kernel.old) thread calls.now }
{
    for call in calls {
        answer_call(kernel, meter, thread, call, all);
    }
}

/// A kernel makes the batch that stands at a place, and each call is told with its answer. The error is want of memory, and no call
/// is made then.
pub(crate) fn answer_all(
    alloc: Global,
    kernel: &mut Kernel,
    meter: &mut Meter,
    entry: &Entry,
) -> Result<Vec<Answered>, NoMemory>
    ensures state { OnOk result (kernel_state kernel.new ≡ state_after (kernel_state kernel.old)
        (by entry.now.thread (entry.now.call ∷ entry.now.more.items))) }
    ensures told { IfOk result (λ all. all.items ≡ answered (kernel_state kernel.old)
        entry.now.thread (entry.now.call ∷ entry.now.more.items)) }
{
    let mut all = Vec::with_capacity(alloc, entry.more.len() + 1)?;
    answer_call(kernel, meter, entry.thread, &entry.call, &mut all);
    answer_more(kernel, meter, entry.thread, entry.more.as_slice(), &mut all);
    Ok(all)
}

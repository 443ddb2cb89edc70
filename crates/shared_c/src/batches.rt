//! Batches of calls, for C: calls are kept one by one, and made at once.
ghost use Rattle.std.specs.Prelude.{◌≡◌, Some};
ghost use Rattle.shared_c.specs.Served.{IsBatchCalled, IsBegun, IsCallKept, IsReplyTold};

use crate::held::{KeptSeat, refusal_number};
use base::ObjectId;
use call_records::{Answer, tell};
use kernel_rules::histories::BATCH;

/// Forgets the calls that were kept.
pub(crate) fn begin(kept: &mut KeptSeat)
    ensures { IsBegun kept.old kept.new }
{
    kept.calls.clear();
}

/// Keeps the call that stands in the seat for a batch, and gives 0; 45 where 16 are kept already, and 40 for want of memory.
pub(crate) fn keep(kept: &mut KeptSeat) -> u32
    ensures { IsCallKept kept.old.call kept.old kept.new result }
{
    if kept.calls.len() >= BATCH {
        return 45;
    }
    let Ok(()) = kept.calls.reserve(1) else {
        return 40;
    };
    kept.calls.push_reserved(kept.call);
    0
}

/// Makes the calls that were kept as one batch of a thread, and gives 0; else the number of the refusal, and none is made.
#[inline(never)]
pub(crate) fn make_batch(kept: &mut KeptSeat, thread: ObjectId) -> u32
    ensures { IsBatchCalled thread kept.old kept.new result }
{
    let made = kept
        .seat
        .submit_batch(kept.alloc, thread, kept.calls.as_slice());
    match made {
        Ok(replies) => {
            kept.replies = replies;
            0
        }
        Err(refusal) => refusal_number(refusal),
    }
}

/// Tells what a call of the batch that was made last was answered, and gives the number of its refusal; 45 where there is no such call.
pub(crate) fn tell_reply(kept: &mut KeptSeat, at: u64, answer: &mut Answer) -> u32
    ensures { IsReplyTold at kept.old kept.new result answer.old answer.new }
{
    match kept.replies.get(at as usize) {
        Some(reply) => tell(reply, answer, &mut kept.meter),
        None => 45,
    }
}

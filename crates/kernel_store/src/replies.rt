//! The reply of a call.
ghost use Rattle.std.specs.Prelude.{◌≡◌, true};
ghost use Rattle.kernel_rules.specs.WellFormed.{is_well_formed};
ghost use Rattle.kernel_rules.specs.declared.replies.Reply.TheVariants as told;

use crate::stores::Store;
use base::{ObjectId, Refusal};
use kernel_rules::Reply;

/// The reply is a refusal. This is out of line, so its callers don't pay for the stack frame of a reply, which is large.
#[inline(never)]
pub fn refuse(reply: &mut Reply, refusal: Refusal)
    ensures { reply.new ≡ told.Refused refusal }
{
    *reply = Reply::Refused(refusal);
}

/// The reply is `Done`. This is out of line, like `refuse`.
#[inline(never)]
pub fn set_done(reply: &mut Reply)
    ensures { reply.new ≡ told.Done }
{
    *reply = Reply::Done;
}

/// The reply of an accepted call is `Done`. It is written only if it is not `Done` yet. The second clause says that the state is
/// well formed, as every state of a store is: the caller's proof needs it for `next`.
#[inline(always)]
pub fn tell_done<S: Store>(state: &S, reply: &mut Reply)
    ensures reply { reply.new ≡ told.Done }
    ensures sound { is_well_formed (S.state state.now) ≡ true }
{
    let _state = state;
    match reply {
        Reply::Done => {}
        _ => set_done(reply),
    }
}

#[inline(never)]
fn set_object(reply: &mut Reply, made: ObjectId)
    ensures { reply.new ≡ told.Object made }
{
    *reply = Reply::Object(made);
}

/// The reply of an accepted call is the new object. The second clause is that of `tell_done`.
#[inline(always)]
pub fn tell_object<S: Store>(state: &S, made: ObjectId, reply: &mut Reply)
    ensures reply { reply.new ≡ told.Object made }
    ensures sound { is_well_formed (S.state state.now) ≡ true }
{
    let _state = state;
    set_object(reply, made);
}

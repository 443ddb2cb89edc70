//! Replies that are bytes.
ghost use Rattle.std.specs.Prelude.{◌≡◌};
ghost use Rattle.kernel_rules.specs.declared.replies.Reply.TheVariants as told;

use base::Data;
use kernel_rules::Reply;

/// The reply is these bytes. (A reply is large: where bytes stand, these alone are moved, and else none are put there first.)
pub(crate) fn tell_bytes(reply: &mut Reply, bytes: &Data)
    ensures { reply.new ≡ told.Bytes bytes.now }
{
    match reply {
        Reply::Bytes(_) => {}
        _ => *reply = Reply::Bytes(Data::from_slice(&[])),
    }
    if let Reply::Bytes(told) = reply {
        *told = *bytes;
    }
}

//! Whether two replies of write calls are the same.
ghost use Rattle.std.specs.Prelude.{◌≡◌, true, IfOk, []};
ghost use Rattle.std.specs.Str.{bytes_eq};
ghost use Rattle.call_text.specs.Reply.{reply_text};
ghost use Rattle.hidden_replies.specs.Asked.{same_by};
ghost use Rattle.hidden_replies.specs.Replies.{is_category, is_object, is_entered, is_bytes};
ghost use Rattle.hidden_replies.specs.Replies.{is_refused, is_done, same_reply};
ghost use Rattle.kernel_rules.specs.declared.replies.Reply.{Reply as Told};

use base::{Data, NoMemory, ObjectId};
use call_text::{Asked, NameList, put_reply};
use kernel_rules::Reply;
use std::alloc::Global;

fn is_done(reply: &Reply) -> bool
    ensures { result ≡ is_done reply.now }
{
    matches!(reply, Reply::Done)
}

fn is_category(category: u64, reply: &Reply) -> bool
    ensures { result ≡ is_category category reply.now }
{
    match reply {
        Reply::Category(other) => category == other.0,
        _ => false,
    }
}

fn is_object(id: ObjectId, reply: &Reply) -> bool
    ensures { result ≡ is_object id reply.now }
{
    match reply {
        Reply::Object(other) => id.number() == other.number(),
        _ => false,
    }
}

fn is_entered(point: u64, handed: u64, reply: &Reply) -> bool
    ensures { result ≡ is_entered point handed reply.now }
{
    match reply {
        Reply::Entered {
            entry_point,
            closure,
        } => point == *entry_point && handed == *closure,
        _ => false,
    }
}

fn is_bytes(bytes: &Data, reply: &Reply) -> bool
    ensures { result ≡ is_bytes bytes.now reply.now }
{
    match reply {
        Reply::Bytes(other) => bytes.as_slice() == other.as_slice(),
        _ => false,
    }
}

fn is_refused(number: u8, reply: &Reply) -> bool
    ensures { result ≡ is_refused number reply.now }
{
    match reply {
        Reply::Refused(refusal) => number == refusal.number(),
        _ => false,
    }
}

/// Whether the replies of two write calls are the same.
pub fn same_reply(one: &Reply, other: &Reply) -> bool
    ensures { result ≡ same_reply one.now other.now }
{
    match one {
        Reply::Done => is_done(other),
        Reply::Category(category) => is_category(category.0, other),
        Reply::Object(id) => is_object(*id, other),
        Reply::Entered {
            entry_point,
            closure,
        } => is_entered(*entry_point, *closure, other),
        Reply::Bytes(bytes) => is_bytes(bytes, other),
        Reply::Refused(refusal) => is_refused(refusal.number(), other),
        _ => false,
    }
}

/// A reply as dumps spell it, each object and category by its number.
fn spelled(alloc: Global, reply: &Reply) -> Result<Vec<u8>, NoMemory>
    ensures { IfOk result (λ text. text.items ≡ reply_text [] reply.now) }
{
    let mut text = Vec::new(alloc);
    put_reply(&mut text, reply, &NameList { named: &[] })?;
    Ok(text)
}

/// Whether the replies of two reads are spelled the same.
fn same_answer(alloc: Global, one: &Reply, other: &Reply) -> Result<bool, NoMemory>
    ensures { IfOk result (λ same. same ≡ bytes_eq (reply_text [] one.now) (reply_text [] other.now)) }
{
    let one = spelled(alloc, one)?;
    let other = spelled(alloc, other)?;
    Ok(one.as_slice() == other.as_slice())
}

/// Whether two replies to what is asked are the same.
pub fn same_by(alloc: Global, asked: &Asked, one: &Reply, other: &Reply) -> Result<bool, NoMemory>
    ensures { IfOk result (λ same. same ≡ same_by asked.now one.now other.now) }
{
    match asked {
        Asked::Write(_) => Ok(same_reply(one, other)),
        Asked::Read(_) => same_answer(alloc, one, other),
    }
}

/// A law, which does nothing when it is called: replies that are found the same are one reply.
pub fn same_are_one()
    ensures { (a b : Told) → same_reply a b ≡ true → a ≡ b }
{}

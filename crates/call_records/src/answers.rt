//! What an answer tells of a reply.
ghost use Rattle.std.specs.Prelude.{◌≡◌, ◌≤◌, ◌∷◌, length};
ghost use Rattle.kernel_rules.specs.declared.replies.Reply.TheVariants as replies;
ghost use Rattle.call_records.specs.Told.{refusal_number, bit, Has, Tells};

use crate::labels::put_label;
use crate::records::Answer;
use base::{Data, Meter, ObjectId};
use kernel_rules::{Mapping, Reply};

/// 1 for true.
pub(crate) fn bit(flag: bool) -> u64
    ensures { result ≡ bit flag }
{
    if flag { 1 } else { 0 }
}

/// Writes the number of a reply, and its numbers, of which there are at most 17.
#[inline(always)]
pub(crate) fn put(reply: u32, numbers: &[u64], answer: &mut Answer)
    requires { length numbers.now ≤ 17 }
    ensures has { Has reply numbers.now answer.new }
    ensures rest { answer.new ≡ record answer.old { reply = reply; numbers = answer.new.numbers } }
{
    answer.reply = reply;
    answer.numbers[..numbers.len()].copy_from_slice(numbers);
}

/// Writes bytes.
pub(crate) fn put_bytes(data: &Data, answer: &mut Answer)
    ensures { Tells (replies.Bytes data.now) answer.new }
{
    let bytes = data.as_slice();
    answer.len = bytes.len() as u32;
    answer.bytes[..bytes.len()].copy_from_slice(bytes);
    put(4, &[], answer);
}

/// Writes ids, after how many a container lists.
fn put_ids(count: u64, ids: &[ObjectId], answer: &mut Answer)
    requires { length ids.now ≤ 16 }
    ensures { Tells (replies.Listed count ids.now) answer.new }
{
    put(8, &[count], answer);
    answer.len = ids.len() as u32;
    for place in 0..ids.len() {
        answer.numbers[place + 1] = ids[place].number();
    }
}

/// Writes what a slot maps.
fn put_mapping(mapping: &Mapping, answer: &mut Answer)
    ensures { Tells (replies.Mapping (Some mapping.now)) answer.new }
{
    answer.len = 1;
    let numbers = [
        mapping.page as u64,
        mapping.entry.container.number(),
        mapping.entry.object.number(),
        mapping.first as u64,
        mapping.count as u64,
        bit(mapping.rights.read),
        bit(mapping.rights.write),
    ];
    put(11, &numbers, answer);
}

/// Writes that a slot maps nothing.
fn put_no_mapping(answer: &mut Answer)
    ensures { Tells (replies.Mapping None) answer.new }
{
    answer.len = 0;
    put(11, &[], answer);
}

/// Writes a reply into an answer.
fn put_reply(reply: &Reply, answer: &mut Answer, meter: &mut Meter)
    ensures { Tells reply.now answer.new }
{
    match reply {
        Reply::Done => put(0, &[], answer),
        Reply::Category(category) => put(1, &[category.0], answer),
        Reply::Object(id) => put(2, &[id.number()], answer),
        Reply::Entered {
            entry_point,
            closure,
        } => put(3, &[*entry_point, *closure], answer),
        Reply::Bytes(data) => put_bytes(data, answer),
        Reply::Own {
            label,
            clearance,
            verify,
            space,
            entry_point,
            closure,
        } => {
            put_label(label, &mut answer.label, meter);
            put_label(clearance, &mut answer.clearance, meter);
            put_label(verify, &mut answer.verify, meter);
            let container = space.container.number();
            let object = space.object.number();
            put(5, &[container, object, *entry_point, *closure], answer);
        }
        Reply::Label(label) => {
            put_label(label, &mut answer.label, meter);
            put(6, &[], answer);
        }
        Reply::Quota {
            quota,
            used,
            fixed,
            immutable,
        } => {
            let (quota, used) = (*quota as u64, *used as u64);
            put(7, &[quota, used, bit(*fixed), bit(*immutable)], answer);
        }
        Reply::Listed { count, ids } => put_ids(*count, ids.as_slice(), answer),
        Reply::Parent(id) => put(9, &[id.number()], answer),
        Reply::Pages(pages) => put(10, &[*pages as u64], answer),
        Reply::Mapping(None) => put_no_mapping(answer),
        Reply::Mapping(Some(mapping)) => put_mapping(mapping, answer),
        Reply::Refused(refusal) => put(12, &[refusal.number() as u64], answer),
    }
}

/// The number of the refusal, 0 for none.
fn refusal_number(reply: &Reply) -> u32
    ensures { result ≡ refusal_number reply.now }
{
    match reply {
        Reply::Refused(refusal) => refusal.number() as u32,
        _ => 0,
    }
}

/// Writes a reply into an answer, and gives the number of the refusal, 0 for none.
pub fn tell(reply: &Reply, answer: &mut Answer, meter: &mut Meter) -> u32
    ensures number { result ≡ refusal_number reply.now }
    ensures told { Tells reply.now answer.new }
{
    put_reply(reply, answer, meter);
    refusal_number(reply)
}

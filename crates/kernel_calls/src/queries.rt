//! One query: which function answers it.
ghost use Rattle.std.specs.Prelude.{◌≡◌, true};
ghost use Rattle.kernel_rules.specs.Step.{query_answer};
ghost use Rattle.kernel_calls.specs.Scans.{is_load};

use base::{Meter, ObjectId};
use kernel_rules::{Query, Reply};
use kernel_store::Store;
use link_calls::{container_list, container_parent, obj_quota};
use memory_calls::{Span, as_get, load, meta_get, segment_len, segment_read};
use thread_calls::{obj_label, self_get};

/// One query, as `ask` says. The reply is overwritten in place, since it is large.
pub fn ask_into<S: Store>(
    state: &S,
    thread: ObjectId,
    query: &Query,
    reply: &mut Reply,
    meter: &mut Meter,
)
    ensures value { reply.new ≡ query_answer (S.state state.now) thread query.now }
    ensures meter { S.kept meter.new ≡ S.kept meter.old }
    ensures looks { is_load query.now ≡ true → S.spends 9 meter.old meter.new }
{
    match query {
        Query::SelfGet => self_get(state, thread, reply, meter),
        Query::ObjLabel { entry } => obj_label(state, thread, entry, reply, meter),
        Query::ObjQuota { entry } => obj_quota(state, thread, entry, reply, meter),
        Query::ContainerList { container, from } => {
            container_list(state, thread, *container, *from, reply, meter)
        }
        Query::ContainerParent { container } => {
            container_parent(state, thread, *container, reply, meter)
        }
        Query::SegmentLen { entry } => segment_len(state, thread, entry, reply, meter),
        Query::SegmentRead {
            entry,
            offset,
            count,
        } => {
            let span = Span {
                offset: *offset,
                count: *count,
            };
            segment_read(state, thread, entry, span, reply, meter)
        }
        Query::MetaGet { entry } => meta_get(state, thread, entry, reply, meter),
        Query::AsGet { space, slot } => as_get(state, thread, space, *slot, reply, meter),
        Query::Load { address, count } => load(state, thread, *address, *count, reply, meter),
    }
}

/// One query: its refusal, or what it finds where nothing refuses it. It compares no label anew, and
/// reading through the address space takes at most 9 looks, those at the bytes among them.
pub fn ask<S: Store>(state: &S, thread: ObjectId, query: &Query, meter: &mut Meter) -> Reply
    ensures value { result ≡ query_answer (S.state state.now) thread query.now }
    ensures meter { S.kept meter.new ≡ S.kept meter.old }
    ensures looks { is_load query.now ≡ true → S.spends 9 meter.old meter.new }
{
    let mut reply = Reply::Done;
    ask_into(state, thread, query, &mut reply, meter);
    reply
}

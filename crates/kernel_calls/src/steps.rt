//! One call: which function makes it.
ghost use Rattle.std.specs.Prelude.{◌≡◌, ◌≤◌, ◌+◌, true, IfOk, OnOk, OnErr};
ghost use Rattle.kernel_rules.specs.Step.{answer, next};
ghost use Rattle.kernel_calls.specs.Scans.{is_quiet, most_scans, stores};

use base::{Meter, ObjectId};
use kernel_rules::{Call, Reply};
use kernel_store::Store;
use link_calls::{container_create, link, quota_move, set_fixed, unref};
use memory_calls::{
    Filling, Patch, as_create, as_map, as_unmap, dev_recv, dev_send, meta_set, segment_copy,
    segment_create, segment_resize, segment_write, set_immutable, store,
};
use std::convert::Infallible;
use thread_calls::{
    Entering, cat_create, gate_create, gate_enter, self_set_as, self_set_clearance, self_set_label,
    thread_create,
};

// One call, as `step` says. The reply is overwritten in place, since it is large.
fn step_into<S: Store>(
    state: &mut S,
    thread: ObjectId,
    call: &Call,
    reply: &mut Reply,
    meter: &mut Meter,
) -> Result<(), S::Want>
    ensures reply { OnOk result (reply.new ≡ answer (S.state state.old) thread call.now) }
    ensures ok { OnOk result (S.state state.new ≡ next (S.state state.old) thread call.now) }
    ensures err { OnErr result (S.state state.new ≡ S.state state.old) }
    ensures meter { is_quiet call.now ≡ true → S.kept meter.new ≡ S.kept meter.old }
    ensures scans { S.kept meter.new
        ≤ S.kept meter.old + most_scans (stores call.now) (S.stored state.old) }
{
    match call {
        Call::CatCreate => Ok(cat_create(state, thread, reply, meter)),
        Call::SelfSetLabel { label } => Ok(self_set_label(state, thread, label, reply, meter)),
        Call::SelfSetClearance { clearance } => {
            Ok(self_set_clearance(state, thread, clearance, reply, meter))
        }
        Call::SelfSetAs { space } => Ok(self_set_as(state, thread, space, reply, meter)),
        Call::ContainerCreate(made) => container_create(state, thread, made, reply, meter),
        Call::SegmentCreate(made) => segment_create(state, thread, made, reply, meter),
        Call::SegmentCopy(made) => segment_copy(state, thread, made, reply, meter),
        Call::AsCreate(made) => as_create(state, thread, made, reply, meter),
        Call::ThreadCreate(made) => thread_create(state, thread, made, reply, meter),
        Call::GateCreate(made) => gate_create(state, thread, made, reply, meter),
        Call::Link { target, entry } => link(state, thread, *target, entry, reply, meter),
        Call::Unref { entry } => unref(state, thread, entry, reply, meter),
        Call::QuotaMove { entry, change } => {
            Ok(quota_move(state, thread, entry, *change, reply, meter))
        }
        Call::SetFixed { entry } => Ok(set_fixed(state, thread, entry, reply, meter)),
        Call::SetImmutable { entry } => Ok(set_immutable(state, thread, entry, reply, meter)),
        Call::MetaSet { entry, data } => Ok(meta_set(state, thread, entry, data, reply, meter)),
        Call::SegmentResize { entry, pages } => {
            segment_resize(state, thread, entry, *pages, reply, meter)
        }
        Call::SegmentWrite {
            entry,
            offset,
            data,
        } => {
            let patch = Patch {
                offset: *offset,
                bytes: data,
            };
            Ok(segment_write(state, thread, entry, &patch, reply, meter))
        }
        Call::AsMap {
            space,
            slot,
            mapping,
        } => {
            let slot = *slot;
            let filling = Filling { slot, mapping };
            Ok(as_map(state, thread, space, &filling, reply, meter))
        }
        Call::AsUnmap { space, slot } => Ok(as_unmap(state, thread, space, *slot, reply, meter)),
        Call::Store { address, data } => Ok(store(state, thread, *address, data, reply, meter)),
        Call::GateEnter {
            gate,
            label,
            clearance,
            verify,
        } => {
            let entering = Entering {
                label,
                clearance,
                verify,
            };
            Ok(gate_enter(state, thread, gate, &entering, reply, meter))
        }
        Call::DevSend { entry, data } => dev_send(state, thread, entry, data, reply, meter),
        Call::DevRecv { entry } => Ok(dev_recv(state, thread, entry, reply, meter)),
    }
}

/// One call: its refusal, or what it changes and answers where nothing refuses it. Without memory,
/// which is the only error, nothing is changed.
pub fn step<S: Store>(
    state: &mut S,
    thread: ObjectId,
    call: &Call,
    meter: &mut Meter,
) -> Result<Reply, S::Want>
    ensures reply { IfOk result (λ reply. reply ≡ answer (S.state state.old) thread call.now) }
    ensures ok { OnOk result (S.state state.new ≡ next (S.state state.old) thread call.now) }
    ensures err { OnErr result (S.state state.new ≡ S.state state.old) }
    ensures meter { is_quiet call.now ≡ true → S.kept meter.new ≡ S.kept meter.old }
    ensures scans { S.kept meter.new
        ≤ S.kept meter.old + most_scans (stores call.now) (S.stored state.old) }
{
    let mut reply = Reply::Done;
    step_into(state, thread, call, &mut reply, meter)?;
    Ok(reply)
}

/// One call, as `step_surely` says. The reply is overwritten in place.
pub fn step_surely_into<S: Store<Want = Infallible>>(
    state: &mut S,
    thread: ObjectId,
    call: &Call,
    reply: &mut Reply,
    meter: &mut Meter,
)
    ensures reply { reply.new ≡ answer (S.state state.old) thread call.now }
    ensures state { S.state state.new ≡ next (S.state state.old) thread call.now }
    ensures meter { is_quiet call.now ≡ true → S.kept meter.new ≡ S.kept meter.old }
    ensures scans { S.kept meter.new
        ≤ S.kept meter.old + most_scans (stores call.now) (S.stored state.old) }
{
    match step_into(state, thread, call, reply, meter) {
        Ok(()) => {}
        Err(never) => match never {},
    }
}

/// One call over a store that takes no memory after it was made: its refusal, or what it changes and
/// answers where nothing refuses it. There is no error.
pub fn step_surely<S: Store<Want = Infallible>>(
    state: &mut S,
    thread: ObjectId,
    call: &Call,
    meter: &mut Meter,
) -> Reply
    ensures reply { result ≡ answer (S.state state.old) thread call.now }
    ensures state { S.state state.new ≡ next (S.state state.old) thread call.now }
    ensures meter { is_quiet call.now ≡ true → S.kept meter.new ≡ S.kept meter.old }
    ensures scans { S.kept meter.new
        ≤ S.kept meter.old + most_scans (stores call.now) (S.stored state.old) }
{
    let mut reply = Reply::Done;
    step_surely_into(state, thread, call, &mut reply, meter);
    reply
}

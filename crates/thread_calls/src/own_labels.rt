//! The calls by which a thread changes its label and its clearance.
#![tactic(auto, unfolding(kernel_rules::specs::Table::refused, kernel_rules::specs::Table::query_refused), using(kernel_store::proofs::SightLaws::kind_seen, kernel_store::proofs::CallLaws::calls))]

ghost use Rattle.std.specs.Prelude.{◌≡◌, ◌≤◌, ◌+◌, option_copied};
ghost use Rattle.label_lattice.specs.LabelRules.{may_clear, stored};
ghost use Rattle.kernel_rules.specs.State.{label_at, clearance_at};
ghost use Rattle.kernel_rules.specs.Step.{answer, next};
ghost use Rattle.kernel_rules.specs.Table.{refused};
ghost use Rattle.kernel_rules.specs.declared.calls.Call.TheVariants as call;
ghost use Rattle.kernel_store.specs.Storing.{storing};

use base::{Meter, ObjectId, Refusal};
use kernel_rules::Reply;
use kernel_store::{
    Store, good_label, halted, is_in_range, refusal_of, refuse, stored_label, tell_done,
};
use label_lattice::label_rules::may_clear;
use label_lattice::{Label, RawLabel};

// What refuses a new own label, which is the stored one, where there is one.
fn refused_self_set_label<S: Store>(
    state: &S,
    caller: S::Location,
    raw: &RawLabel,
    label: Option<&Label>,
    meter: &mut Meter,
) -> Option<Refusal>
    requires caller { S.stands state.now caller }
    requires label { option_copied label ≡ stored raw.now }
    ensures value { result ≡ refused (S.state state.now) (S.id_of caller) (call.SelfSetLabel raw.now) }
    ensures meter { S.kept meter.new ≤ S.kept meter.old + 2 }
{
    let in_range = is_in_range(state, caller, label, meter);
    refusal_of(&[
        &halted(state, caller),
        &good_label(state, raw, label),
        &[(Refusal::LabelRange, !in_range)],
    ])
}

/// The thread has another label, or is told what refuses it.
#[inline(never)]
pub fn self_set_label<S: Store>(
    state: &mut S,
    thread: ObjectId,
    raw: &RawLabel,
    reply: &mut Reply,
    meter: &mut Meter,
)
    ensures reply { reply.new ≡ answer (S.state state.old) thread (call.SelfSetLabel raw.now) }
    ensures state { S.state state.new
        ≡ next (S.state state.old) thread (call.SelfSetLabel raw.now) }
    ensures meter { S.kept meter.new ≤ S.kept meter.old + 3 + storing 1 (S.stored state.old) }
{
    let label = stored_label(state, raw, meter);
    let label = label.as_ref();
    let caller = state.find(thread, meter);
    if let Some(refusal) = refused_self_set_label(state, caller, raw, label, meter) {
        return refuse(reply, refusal);
    }
    state.set_label(caller, label, meter);
    tell_done(state, reply);
}

fn may_clear_to<S: Store>(
    state: &S,
    caller: S::Location,
    asked: Option<&Label>,
    meter: &mut Meter,
) -> bool
    requires { S.stands state.now caller }
    ensures value { result ≡ may_clear (label_at (S.state state.now) (S.id_of caller))
        (clearance_at (S.state state.now) (S.id_of caller)) (option_copied asked.entry) }
    ensures meter { S.kept meter.new ≤ S.kept meter.old + 2 }
{
    may_clear(state.label(caller), state.clearance(caller), asked, meter)
}

// What refuses a new own clearance, which is the stored one, where there is one.
fn refused_self_set_clearance<S: Store>(
    state: &S,
    caller: S::Location,
    raw: &RawLabel,
    clearance: Option<&Label>,
    meter: &mut Meter,
) -> Option<Refusal>
    requires caller { S.stands state.now caller }
    requires clearance { option_copied clearance ≡ stored raw.now }
    ensures value { result ≡ refused (S.state state.now) (S.id_of caller) (call.SelfSetClearance raw.now) }
    ensures meter { S.kept meter.new ≤ S.kept meter.old + 2 }
{
    let in_range = may_clear_to(state, caller, clearance, meter);
    refusal_of(&[
        &halted(state, caller),
        &good_label(state, raw, clearance),
        &[(Refusal::ClearanceRange, !in_range)],
    ])
}

/// The thread has another clearance, or is told what refuses it.
#[inline(never)]
pub fn self_set_clearance<S: Store>(
    state: &mut S,
    thread: ObjectId,
    raw: &RawLabel,
    reply: &mut Reply,
    meter: &mut Meter,
)
    ensures reply { reply.new ≡ answer (S.state state.old) thread (call.SelfSetClearance raw.now) }
    ensures state { S.state state.new
        ≡ next (S.state state.old) thread (call.SelfSetClearance raw.now) }
    ensures meter { S.kept meter.new ≤ S.kept meter.old + 3 + storing 1 (S.stored state.old) }
{
    let clearance = stored_label(state, raw, meter);
    let clearance = clearance.as_ref();
    let caller = state.find(thread, meter);
    if let Some(refusal) = refused_self_set_clearance(state, caller, raw, clearance, meter) {
        return refuse(reply, refusal);
    }
    state.set_clearance(caller, clearance, meter);
    tell_done(state, reply);
}

//! The calls that make and enter gates.
#![tactic(auto, unfolding(kernel_rules::specs::Table::refused, kernel_rules::specs::Table::query_refused), using(kernel_store::proofs::SightLaws::kind_seen, kernel_store::proofs::CallLaws::calls))]

ghost use Rattle.std.specs.Prelude.{◌≡◌, ◌≤◌, ◌+◌, ℕ, true};
ghost use Rattle.std.specs.Prelude.{OnOk, OnErr, IfSome, option_copied};
ghost use Rattle.label_lattice.specs.Label.{IsStored};
ghost use Rattle.label_lattice.specs.LabelRules.{may_enter, stored};
ghost use Rattle.base.specs.declared.kinds.Kind.TheVariants as kinds;
ghost use Rattle.kernel_rules.specs.State.{gate_at, is_kind_at};
ghost use Rattle.kernel_rules.specs.Step.{answer, next, through_gate, told_by};
ghost use Rattle.kernel_rules.specs.Conditions.{own_bearer, gate_bearer};
ghost use Rattle.kernel_rules.specs.Table.{refused};
ghost use Rattle.kernel_rules.specs.declared.calls.Call.TheVariants as call;
ghost use Rattle.kernel_rules.specs.declared.replies.Reply.TheVariants as told;
ghost use Rattle.kernel_store.specs.Locations.{Stand, entry_of};
ghost use Rattle.kernel_store.specs.Storing.{storing};

use base::{Kind, Meter, ObjectId, Refusal};
use kernel_rules::{Entry, Gate, NewGate, Reply};
use kernel_store::{
    Named, NewBody, NewObject, Store, ThreadLabels, find_all, find_container, good_label,
    halted_at, in_container, look, look_at, new_bearer, of_kind, refusal_of, refuse, space_entry,
    stored_label, tell_done, tell_object,
};
use label_lattice::label_rules::{Asked, Bearer, may_enter};
use label_lattice::{Label, RawLabel};

// What refuses to make a gate, whose label and clearance are the stored ones, where there are any.
fn refused_gate_create<S: Store>(
    state: &S,
    named: Named<S::Location>,
    made: &NewGate,
    label: Option<&Label>,
    clearance: Option<&Label>,
    meter: &mut Meter,
) -> Option<Refusal>
    requires named { Stand (S.stands state.now) named }
    requires container { S.id_of named.container ≡ made.now.container }
    requires label { option_copied label ≡ stored made.now.label }
    requires clearance { option_copied clearance ≡ stored made.now.clearance }
    ensures value { result ≡ refused (S.state state.now) (S.id_of named.caller)
        (call.GateCreate made.now) }
    ensures meter { S.kept meter.new ≤ S.kept meter.old + 3 }
{
    let space = look_at(state, named.caller, &made.space, meter);
    let object = NewObject {
        kind: Kind::Gate,
        quota: made.quota,
        pages: 1,
        label: &made.label,
        stored: label,
    };
    refusal_of(&[
        &halted_at(&space),
        &space_entry(&made.space, &space),
        &new_bearer(state, named, &object, &made.clearance, clearance, meter),
    ])
}

// As `gate_create` says, in the container that lies there.
fn create_gate_in<S: Store>(
    state: &mut S,
    named: Named<S::Location>,
    made: &NewGate,
    reply: &mut Reply,
    meter: &mut Meter,
) -> Result<(), S::Want>
    requires named { Stand (S.stands state.old) named }
    requires container { S.id_of named.container ≡ made.now.container }
    ensures reply { OnOk result (reply.new ≡ answer (S.state state.old) (S.id_of named.caller)
        (call.GateCreate made.now)) }
    ensures ok { OnOk result (S.state state.new ≡ next (S.state state.old) (S.id_of named.caller)
        (call.GateCreate made.now)) }
    ensures err { OnErr result (S.state state.new ≡ S.state state.old) }
    ensures meter { S.kept meter.new ≤ S.kept meter.old + 5 + storing 2 (S.stored state.old) }
{
    let label = stored_label(state, &made.label, meter);
    let label = label.as_ref();
    let clearance = stored_label(state, &made.clearance, meter);
    let clearance = clearance.as_ref();
    if let Some(refusal) = refused_gate_create(state, named, made, label, clearance, meter) {
        refuse(reply, refusal);
        return Ok(());
    }
    let Some(clearance) = clearance else {
        tell_object(state, state.next_id(), reply);
        return Ok(());
    };
    let gate = Gate {
        clearance: *clearance,
        space: made.space,
        entry_point: made.entry_point,
        closure: made.closure,
    };
    let body = NewBody::Gate(&gate);
    let id = state.create(named.container, label, made.quota, &body, meter)?;
    tell_object(state, id, reply);
    Ok(())
}

/// Makes a gate, or tells what refuses to. The error is want of memory, and nothing is changed then.
#[inline(never)]
pub fn gate_create<S: Store>(
    state: &mut S,
    thread: ObjectId,
    made: &NewGate,
    reply: &mut Reply,
    meter: &mut Meter,
) -> Result<(), S::Want>
    ensures reply { OnOk result (reply.new
        ≡ answer (S.state state.old) thread (call.GateCreate made.now)) }
    ensures ok { OnOk result (S.state state.new
        ≡ next (S.state state.old) thread (call.GateCreate made.now)) }
    ensures err { OnErr result (S.state state.new ≡ S.state state.old) }
    ensures meter { S.kept meter.new ≤ S.kept meter.old + 5 + storing 2 (S.stored state.old) }
{
    let named = find_container(state, thread, made.container, meter);
    create_gate_in(state, named, made, reply, meter)
}

fn own_bearer<S: Store>(state: &S, caller: S::Location) -> Bearer
    requires { S.stands state.now caller }
    ensures { result ≡ own_bearer (S.state state.now) (S.id_of caller) }
{
    Bearer {
        label: state.label(caller).copied(),
        clearance: state.clearance(caller).copied(),
    }
}

fn gate_bearer<S: Store>(state: &S, gate: S::Location) -> Bearer
    requires { S.stands state.now gate }
    ensures { result ≡ gate_bearer (S.state state.now) (S.id_of gate) }
{
    let clearance = match state.gate(gate) {
        None => None,
        Some(gate) => Some(gate.clearance),
    };
    Bearer {
        label: state.label(gate).copied(),
        clearance,
    }
}

fn is_open<S: Store>(
    state: &S,
    caller: S::Location,
    gate: S::Location,
    asked: &Asked,
    meter: &mut Meter,
) -> bool
    requires caller { S.stands state.now caller }
    requires gate { S.stands state.now gate }
    ensures value { result ≡ may_enter (own_bearer (S.state state.now) (S.id_of caller))
        (gate_bearer (S.state state.now) (S.id_of gate)) asked.now }
    ensures meter { S.kept meter.new ≤ S.kept meter.old + 5 }
{
    let own = own_bearer(state, caller);
    let gate = gate_bearer(state, gate);
    may_enter(&own, &gate, asked, meter)
}

/// The three labels that a thread asks of a gate, as they are given.
#[derive(Clone, Copy)]
pub struct Entering<'a> {
    /// Its new label.
    pub label: &'a RawLabel,
    /// Its new clearance.
    pub clearance: &'a RawLabel,
    /// The label that it proves to the gate's owner.
    pub verify: &'a RawLabel,
}

// What refuses to enter a gate by these labels, as they are stored, where they can be.
fn refused_gate_enter<S: Store>(
    state: &S,
    named: Named<S::Location>,
    entering: &Entering,
    asked: &Asked,
    meter: &mut Meter,
) -> Option<Refusal>
    requires named { Stand (S.stands state.now) named }
    requires label { asked.now.label ≡ stored entering.now.label.now }
    requires clearance { asked.now.clearance ≡ stored entering.now.clearance.now }
    requires verify { asked.now.verify ≡ stored entering.now.verify.now }
    ensures value { result ≡ refused (S.state state.now) (S.id_of named.caller)
        (call.GateEnter (entry_of S.id_of named) entering.now.label.now
        entering.now.clearance.now entering.now.verify.now) }
    ensures meter { S.kept meter.new ≤ S.kept meter.old + 5 }
{
    let seen = look(state, named, meter);
    let open = is_open(state, named.caller, named.object, asked, meter);
    refusal_of(&[
        &halted_at(&seen),
        &in_container(&seen),
        &of_kind(Kind::Gate, &seen.object),
        &good_label(state, entering.label, asked.label.as_ref()),
        &good_label(state, entering.clearance, asked.clearance.as_ref()),
        &good_label(state, entering.verify, asked.verify.as_ref()),
        &[(Refusal::GateDenied, !open)],
    ])
}

fn enter<S: Store>(
    state: &mut S,
    thread: S::Location,
    asked: &Asked,
    gate: &Option<Gate>,
    meter: &mut Meter,
)
    requires there { S.stands state.old thread }
    requires thread { is_kind_at (S.state state.old) kinds.Thread (S.id_of thread) ≡ true }
    requires gate { (id : ℕ) × (gate.now ≡ gate_at (S.state state.old) id) }
    requires label { IfSome asked.now.label IsStored }
    requires clearance { IfSome asked.now.clearance IsStored }
    requires verify { IfSome asked.now.verify IsStored }
    ensures state { S.state state.new ≡ through_gate (S.state state.old) (S.id_of thread)
        asked.now.label asked.now.clearance asked.now.verify gate.now }
    ensures meter { S.kept meter.new
        ≤ S.kept meter.old + storing 3 (S.stored state.old) }
{
    if let Some(label) = &asked.label {
        if let Some(clearance) = &asked.clearance {
            if let Some(verify) = &asked.verify {
                if let Some(gate) = gate {
                    let labels = ThreadLabels {
                        label,
                        clearance,
                        verify,
                    };
                    state.enter(thread, &labels, gate, meter);
                }
            }
        }
    }
}

// The reply is what a gate tells.
fn tell(gate: &Option<Gate>, reply: &mut Reply)
    requires { reply.old ≡ told.Done }
    ensures { reply.new ≡ told_by gate.now }
{
    if let Some(gate) = gate {
        *reply = Reply::Entered {
            entry_point: gate.entry_point,
            closure: gate.closure,
        };
    }
}

// As `gate_enter` says, of a gate that was found.
fn enter_found<S: Store>(
    state: &mut S,
    named: Named<S::Location>,
    entering: &Entering,
    reply: &mut Reply,
    meter: &mut Meter,
)
    requires { Stand (S.stands state.old) named }
    ensures reply { reply.new ≡ answer (S.state state.old) (S.id_of named.caller)
        (call.GateEnter (entry_of S.id_of named) entering.now.label.now
        entering.now.clearance.now entering.now.verify.now) }
    ensures state { S.state state.new ≡ next (S.state state.old) (S.id_of named.caller)
        (call.GateEnter (entry_of S.id_of named) entering.now.label.now
        entering.now.clearance.now entering.now.verify.now) }
    ensures meter { S.kept meter.new ≤ S.kept meter.old + 8 + storing 3 (S.stored state.old) }
{
    let asked = Asked {
        label: stored_label(state, entering.label, meter),
        clearance: stored_label(state, entering.clearance, meter),
        verify: stored_label(state, entering.verify, meter),
    };
    if let Some(refusal) = refused_gate_enter(state, named, entering, &asked, meter) {
        return refuse(reply, refusal);
    }
    let entered = state.gate(named.object);
    enter(state, named.caller, &asked, &entered, meter);
    tell_done(state, reply);
    tell(&entered, reply);
}

/// The thread enters a gate, or is told what refuses it: it has the asked labels, and the gate's address space, entry point
/// and closure, of which the reply tells.
#[inline(never)]
pub fn gate_enter<S: Store>(
    state: &mut S,
    thread: ObjectId,
    gate: &Entry,
    entering: &Entering,
    reply: &mut Reply,
    meter: &mut Meter,
)
    ensures reply { reply.new ≡ answer (S.state state.old) thread
        (call.GateEnter gate.now entering.now.label.now
        entering.now.clearance.now entering.now.verify.now) }
    ensures state { S.state state.new ≡ next (S.state state.old) thread
        (call.GateEnter gate.now entering.now.label.now
        entering.now.clearance.now entering.now.verify.now) }
    ensures meter { S.kept meter.new ≤ S.kept meter.old + 8 + storing 3 (S.stored state.old) }
{
    let named = find_all(state, thread, gate, meter);
    enter_found(state, named, entering, reply, meter)
}

//! The calls that make threads, give them an address space, and tell what they are.
#![tactic(auto, unfolding(kernel_rules::specs::Table::refused, kernel_rules::specs::Table::query_refused), using(kernel_store::proofs::SightLaws::kind_seen, kernel_store::proofs::CallLaws::calls))]

ghost use Rattle.std.specs.Prelude.{◌≡◌, ◌≤◌, ◌+◌, OnOk, OnErr, option_copied};
ghost use Rattle.label_lattice.specs.LabelRules.{stored};
ghost use Rattle.kernel_rules.specs.Step.{answer, next, query_answer};
ghost use Rattle.kernel_rules.specs.Table.{refused, query_refused};
ghost use Rattle.kernel_rules.specs.declared.calls.Call.TheVariants as call;
ghost use Rattle.kernel_rules.specs.declared.calls.Query.TheVariants as query;
ghost use Rattle.kernel_store.specs.Locations.{Stand, entry_of};
ghost use Rattle.kernel_store.specs.Storing.{storing};

use base::{Kind, Meter, ObjectId, Refusal};
use kernel_rules::{Entry, NewThread, Reply};
use kernel_store::{
    Named, NewBody, NewObject, Store, ThreadStart, find_all, find_container, halted, halted_at,
    in_container, look, new_bearer, refusal_of, refuse, space_entry, stored_label, tell_done,
    tell_object,
};
use label_lattice::Label;

// What refuses another address space.
fn refused_self_set_as<S: Store>(
    state: &S,
    named: Named<S::Location>,
    space: &Entry,
    meter: &mut Meter,
) -> Option<Refusal>
    requires named { Stand (S.stands state.now) named }
    requires space { entry_of S.id_of named ≡ space.now }
    ensures value { result ≡ refused (S.state state.now) (S.id_of named.caller)
        (call.SelfSetAs space.now) }
    ensures meter { S.kept meter.new ≡ S.kept meter.old }
{
    let seen = look(state, named, meter);
    refusal_of(&[&halted_at(&seen), &space_entry(space, &seen)])
}

/// The thread has another address space, or is told what refuses it.
#[inline(never)]
pub fn self_set_as<S: Store>(
    state: &mut S,
    thread: ObjectId,
    space: &Entry,
    reply: &mut Reply,
    meter: &mut Meter,
)
    ensures reply { reply.new ≡ answer (S.state state.old) thread (call.SelfSetAs space.now) }
    ensures state { S.state state.new
        ≡ next (S.state state.old) thread (call.SelfSetAs space.now) }
    ensures meter { S.kept meter.new ≡ S.kept meter.old }
{
    let named = find_all(state, thread, space, meter);
    if let Some(refusal) = refused_self_set_as(state, named, space, meter) {
        return refuse(reply, refusal);
    }
    state.set_space(named.caller, *space, meter);
    tell_done(state, reply);
}

// What refuses to make a thread, whose label and clearance are the stored ones, where there are any.
fn refused_thread_create<S: Store>(
    state: &S,
    named: Named<S::Location>,
    made: &NewThread,
    label: Option<&Label>,
    clearance: Option<&Label>,
    meter: &mut Meter,
) -> Option<Refusal>
    requires named { Stand (S.stands state.now) named }
    requires container { S.id_of named.container ≡ made.now.container }
    requires label { option_copied label ≡ stored made.now.label }
    requires clearance { option_copied clearance ≡ stored made.now.clearance }
    ensures value { result ≡ refused (S.state state.now) (S.id_of named.caller)
        (call.ThreadCreate made.now) }
    ensures meter { S.kept meter.new ≤ S.kept meter.old + 3 }
{
    let object = NewObject {
        kind: Kind::Thread,
        quota: made.quota,
        pages: 1,
        label: &made.label,
        stored: label,
    };
    refusal_of(&[
        &halted(state, named.caller),
        &new_bearer(state, named, &object, &made.clearance, clearance, meter),
    ])
}

// As `thread_create` says, in the container that lies there.
fn create_thread_in<S: Store>(
    state: &mut S,
    named: Named<S::Location>,
    made: &NewThread,
    reply: &mut Reply,
    meter: &mut Meter,
) -> Result<(), S::Want>
    requires named { Stand (S.stands state.old) named }
    requires container { S.id_of named.container ≡ made.now.container }
    ensures reply { OnOk result (reply.new ≡ answer (S.state state.old) (S.id_of named.caller)
        (call.ThreadCreate made.now)) }
    ensures ok { OnOk result (S.state state.new ≡ next (S.state state.old) (S.id_of named.caller)
        (call.ThreadCreate made.now)) }
    ensures err { OnErr result (S.state state.new ≡ S.state state.old) }
    ensures meter { S.kept meter.new ≤ S.kept meter.old + 5 + storing 3 (S.stored state.old) }
{
    let label = stored_label(state, &made.label, meter);
    let label = label.as_ref();
    let clearance = stored_label(state, &made.clearance, meter);
    let clearance = clearance.as_ref();
    if let Some(refusal) = refused_thread_create(state, named, made, label, clearance, meter) {
        refuse(reply, refusal);
        return Ok(());
    }
    let Some(clearance) = clearance else {
        tell_object(state, state.next_id(), reply);
        return Ok(());
    };
    let body = NewBody::Thread(ThreadStart {
        clearance,
        entry_point: made.entry_point,
    });
    let id = state.create(named.container, label, made.quota, &body, meter)?;
    tell_object(state, id, reply);
    Ok(())
}

/// Makes a thread, or tells what refuses to. The error is want of memory, and nothing is changed then.
#[inline(never)]
pub fn thread_create<S: Store>(
    state: &mut S,
    thread: ObjectId,
    made: &NewThread,
    reply: &mut Reply,
    meter: &mut Meter,
) -> Result<(), S::Want>
    ensures reply { OnOk result (reply.new
        ≡ answer (S.state state.old) thread (call.ThreadCreate made.now)) }
    ensures ok { OnOk result (S.state state.new
        ≡ next (S.state state.old) thread (call.ThreadCreate made.now)) }
    ensures err { OnErr result (S.state state.new ≡ S.state state.old) }
    ensures meter { S.kept meter.new ≤ S.kept meter.old + 5 + storing 3 (S.stored state.old) }
{
    let named = find_container(state, thread, made.container, meter);
    create_thread_in(state, named, made, reply, meter)
}

// What refuses to tell what the caller is.
fn refused_self_get<S: Store>(state: &S, caller: S::Location) -> Option<Refusal>
    requires { S.stands state.now caller }
    ensures { result ≡ query_refused (S.state state.now) (S.id_of caller) query.SelfGet }
{
    refusal_of(&[&halted(state, caller)])
}

/// What the caller is, or what refuses to tell it.
#[inline(never)]
pub fn self_get<S: Store>(state: &S, thread: ObjectId, reply: &mut Reply, meter: &mut Meter)
    ensures value { reply.new ≡ query_answer (S.state state.now) thread query.SelfGet }
    ensures meter { S.kept meter.new ≡ S.kept meter.old }
{
    let caller = state.find(thread, meter);
    if let Some(refusal) = refused_self_get(state, caller) {
        return refuse(reply, refusal);
    }
    let label = state.label(caller).copied();
    match (state.thread(caller), label) {
        (Some(own), Some(label)) => {
            *reply = Reply::Own {
                label,
                clearance: own.clearance,
                verify: own.verify,
                space: own.space,
                entry_point: own.entry_point,
                closure: own.closure,
            };
        }
        _ => tell_done(state, reply),
    }
}

// What refuses to tell the label of an object.
fn refused_obj_label<S: Store>(
    state: &S,
    named: Named<S::Location>,
    meter: &mut Meter,
) -> Option<Refusal>
    requires { Stand (S.stands state.now) named }
    ensures value { result ≡ query_refused (S.state state.now) (S.id_of named.caller)
        (query.ObjLabel (entry_of S.id_of named)) }
    ensures meter { S.kept meter.new ≡ S.kept meter.old }
{
    let seen = look(state, named, meter);
    let hidden = seen.object.is(Kind::Thread) && !state.is_shown(named.caller, named.object, meter);
    refusal_of(&[
        &halted_at(&seen),
        &in_container(&seen),
        &[(Refusal::CannotObserve, hidden)],
    ])
}

/// The label of an object, or what refuses to tell it.
#[inline(never)]
pub fn obj_label<S: Store>(
    state: &S,
    thread: ObjectId,
    entry: &Entry,
    reply: &mut Reply,
    meter: &mut Meter,
)
    ensures value { reply.new ≡ query_answer (S.state state.now) thread (query.ObjLabel entry.now) }
    ensures meter { S.kept meter.new ≡ S.kept meter.old }
{
    let named = find_all(state, thread, entry, meter);
    if let Some(refusal) = refused_obj_label(state, named, meter) {
        return refuse(reply, refusal);
    }
    match state.label(named.object) {
        None => tell_done(state, reply),
        Some(label) => *reply = Reply::Label(*label),
    }
}

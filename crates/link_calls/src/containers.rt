//! The calls that make containers and read their lists.
#![tactic(auto, unfolding(kernel_rules::specs::Table::refused, kernel_rules::specs::Table::query_refused), using(kernel_store::proofs::SightLaws::kind_seen, kernel_store::proofs::CallLaws::calls))]

ghost use Rattle.std.specs.Prelude.{◌≡◌, ◌≤◌, ◌+◌, OnOk, OnErr};
ghost use Rattle.std.specs.Prelude.{option_copied};
ghost use Rattle.label_lattice.specs.LabelRules.{stored};
ghost use Rattle.kernel_rules.specs.Step.{answer, next, query_answer};
ghost use Rattle.kernel_rules.specs.Table.{refused, query_refused};
ghost use Rattle.kernel_rules.specs.declared.calls.Call.TheVariants as call;
ghost use Rattle.kernel_rules.specs.declared.calls.Query.TheVariants as query;
ghost use Rattle.kernel_store.specs.Locations.{Stand};
ghost use Rattle.kernel_store.specs.Storing.{storing};

use base::{Kind, Meter, ObjectId, Refusal};
use kernel_rules::{NewContainer, Reply};
use kernel_store::{
    Named, NewBody, NewObject, Store, at_container, find_container, halted, halted_at, look,
    new_object, refusal_of, refuse, stored_label, tell_object,
};
use label_lattice::Label;

// What refuses to make a container, whose label is the stored one, where there is one.
fn refused_container_create<S: Store>(
    state: &S,
    named: Named<S::Location>,
    made: &NewContainer,
    label: Option<&Label>,
    meter: &mut Meter,
) -> Option<Refusal>
    requires named { Stand (S.stands state.now) named }
    requires container { S.id_of named.container ≡ made.now.container }
    requires label { option_copied label ≡ stored made.now.label }
    ensures value { result ≡ refused (S.state state.now) (S.id_of named.caller)
        (call.ContainerCreate made.now) }
    ensures meter { S.kept meter.new ≤ S.kept meter.old + 2 }
{
    let object = NewObject {
        kind: Kind::Container,
        quota: made.quota,
        pages: 1,
        label: &made.label,
        stored: label,
    };
    refusal_of(&[
        &halted(state, named.caller),
        &new_object(state, named, &object, meter),
    ])
}

/// Makes a container without entries, or tells what refuses to. The error is want of memory, and nothing is changed then.
#[inline(never)]
pub fn container_create<S: Store>(
    state: &mut S,
    thread: ObjectId,
    made: &NewContainer,
    reply: &mut Reply,
    meter: &mut Meter,
) -> Result<(), S::Want>
    ensures reply { OnOk result (reply.new
        ≡ answer (S.state state.old) thread (call.ContainerCreate made.now)) }
    ensures ok { OnOk result (S.state state.new
        ≡ next (S.state state.old) thread (call.ContainerCreate made.now)) }
    ensures err { OnErr result (S.state state.new ≡ S.state state.old) }
    ensures meter { S.kept meter.new ≤ S.kept meter.old + 3 + storing 1 (S.stored state.old) }
{
    let named = find_container(state, thread, made.container, meter);
    let label = stored_label(state, &made.label, meter);
    let label = label.as_ref();
    if let Some(refusal) = refused_container_create(state, named, made, label, meter) {
        refuse(reply, refusal);
        return Ok(());
    }
    let kinds = state.joined(named.container, made.avoid);
    let body = NewBody::Container(kinds);
    let id = state.create(named.container, label, made.quota, &body, meter)?;
    tell_object(state, id, reply);
    Ok(())
}

// What refuses to read a container's list.
fn refused_container_list<S: Store>(
    state: &S,
    named: Named<S::Location>,
    from: u32,
    meter: &mut Meter,
) -> Option<Refusal>
    requires { Stand (S.stands state.now) named }
    ensures value { result ≡ query_refused (S.state state.now) (S.id_of named.caller)
        (query.ContainerList (S.id_of named.container) from) }
    ensures meter { S.kept meter.new ≡ S.kept meter.old }
{
    let seen = look(state, named, meter);
    let past = state.list_len(named.container, meter) < from as usize;
    refusal_of(&[
        &halted_at(&seen),
        &at_container(&seen),
        &[(Refusal::Bounds, past)],
    ])
}

/// The length of a container's list and up to 16 of its ids, or what refuses to read it.
#[inline(never)]
pub fn container_list<S: Store>(
    state: &S,
    thread: ObjectId,
    container: ObjectId,
    from: u32,
    reply: &mut Reply,
    meter: &mut Meter,
)
    ensures value { reply.new ≡ query_answer (S.state state.now) thread
        (query.ContainerList container from) }
    ensures meter { S.kept meter.new ≡ S.kept meter.old }
{
    let named = find_container(state, thread, container, meter);
    if let Some(refusal) = refused_container_list(state, named, from, meter) {
        return refuse(reply, refusal);
    }
    *reply = Reply::Listed {
        count: state.list_len(named.container, meter) as u64,
        ids: state.ids_from(named.container, from, meter),
    };
}

// What refuses to ask for a container's own container.
fn refused_container_parent<S: Store>(
    state: &S,
    named: Named<S::Location>,
    meter: &mut Meter,
) -> Option<Refusal>
    requires { Stand (S.stands state.now) named }
    ensures value { result ≡ query_refused (S.state state.now) (S.id_of named.caller)
        (query.ContainerParent (S.id_of named.container)) }
    ensures meter { S.kept meter.new ≡ S.kept meter.old }
{
    let seen = look(state, named, meter);
    refusal_of(&[&halted_at(&seen), &at_container(&seen)])
}

/// The container that lists a container, or what refuses to ask for it; the root's is the root.
#[inline(never)]
pub fn container_parent<S: Store>(
    state: &S,
    thread: ObjectId,
    container: ObjectId,
    reply: &mut Reply,
    meter: &mut Meter,
)
    ensures value { reply.new ≡ query_answer (S.state state.now) thread
        (query.ContainerParent container) }
    ensures meter { S.kept meter.new ≡ S.kept meter.old }
{
    let named = find_container(state, thread, container, meter);
    if let Some(refusal) = refused_container_parent(state, named, meter) {
        return refuse(reply, refusal);
    }
    *reply = Reply::Parent(state.parent(named.container, meter));
}

//! The graph.
ghost use Rattle.std.specs.Prelude.{◌≡◌, ◌++◌, ◌+◌, ◌^◌, ◌<◌, IfErr, IfOk, OnOk};
ghost use Rattle.dump_text.specs.Dump.{IsDump};
ghost use Rattle.shown_dumps.specs.Dots.{is_before, is_first, is_other, is_shared, opened_of, closed_of, opened_at, closed_at, dot_from};
ghost use Rattle.shown_dumps.specs.Dots.{own_arrows, arrows_of, arrows_at, arrows_from, dot_text};
ghost use Rattle.shown_dumps.specs.DotShown.{IsRed, IsDot, IsNoDot};
ghost use Rattle.plain_state.specs.StateOf.{state_of};

use crate::dot::faults::DotFault;
use crate::dot::looks::Look;
use crate::dot::nodes::{put_arrows, put_closed, put_list_arrow, put_opened};
use crate::states::{ShowFault, dump_in, state_in};
use crate::tree::Place;
use auditor::clean_dumps::DumpFault;
use auditor::tracing::trace;
use auditor::{Audited, audit_dump};
use base::{Category, Meter, NoMemory, ObjectId};
use call_text::Named;
use dump_text::Dump;
use kernel_rules::Object;
use plain_state::PlainState;
use std::alloc::Global;

/// Whether another container lists the object at a place.
fn is_other(state: &PlainState, place: &Place, container: ObjectId) -> bool
    ensures { result ≡ is_other (state_of state.now) place.now container }
{
    state.lists(container, place.id) && container != place.container
}

/// Whether one does that has a lower id.
fn is_before(state: &PlainState, place: &Place, container: ObjectId) -> bool
    ensures { result ≡ is_before (state_of state.now) place.now container }
{
    state.lists(container, place.id) && container.number() < place.container.number()
}

/// Whether more than one container lists the object at a place.
fn is_shared(state: &PlainState, place: &Place) -> bool
    ensures { result ≡ is_shared (state_of state.now) place.now }
{
    for (id, _) in state.records().objects.iter() {
        if is_other(state, place, *id) {
            return true;
        }
    }
    false
}

/// Whether the object at a place stands there: in the first container that lists it.
fn is_first(state: &PlainState, place: &Place) -> bool
    ensures { result ≡ is_first (state_of state.now) place.now }
{
    for (id, _) in state.records().objects.iter() {
        if is_before(state, place, *id) {
            return false;
        }
    }
    true
}

/// Adds what stands of an object at a place before what it lists.
fn put_opened_of(
    out: &mut Vec<u8>,
    state: &PlainState,
    look: &Look<'_>,
    place: &Place,
    object: &Object,
    meter: &mut Meter,
) -> Result<(), NoMemory>
    ensures { OnOk result (out.new.items
        ≡ out.old.items ++ opened_of look.now.names.now (state_of state.now) look.now.reached.now place.now object.now) }
{
    if is_first(state, place) {
        put_opened(out, state, look, place, object, meter)?;
    }
    Ok(())
}

/// Adds what stands at a place before what the object there lists.
fn put_before(
    out: &mut Vec<u8>,
    state: &PlainState,
    look: &Look<'_>,
    place: &Place,
    meter: &mut Meter,
) -> Result<(), NoMemory>
    ensures { OnOk result (out.new.items
        ≡ out.old.items ++ opened_at look.now.names.now (state_of state.now) look.now.reached.now place.now) }
{
    match state.object(place.id) {
        None => Ok(()),
        Some(object) => put_opened_of(out, state, look, place, object, meter),
    }
}

/// Adds what stands of an object at a place after what it lists.
fn put_closed_of(
    out: &mut Vec<u8>,
    state: &PlainState,
    place: &Place,
    object: &Object,
) -> Result<(), NoMemory>
    ensures { OnOk result (out.new.items ≡ out.old.items ++ closed_of (state_of state.now) place.now object.now) }
{
    if is_first(state, place) {
        put_closed(out, place, object)?;
    }
    Ok(())
}

/// Adds what stands at a place after what the object there lists.
fn put_after(out: &mut Vec<u8>, state: &PlainState, place: &Place) -> Result<(), NoMemory>
    ensures { OnOk result (out.new.items ≡ out.old.items ++ closed_at (state_of state.now) place.now) }
{
    match state.object(place.id) {
        None => Ok(()),
        Some(object) => put_closed_of(out, state, place, object),
    }
}

/// Adds so many levels of the graph from a place on.
fn put_dot(
    out: &mut Vec<u8>,
    state: &PlainState,
    look: &Look<'_>,
    levels: u32,
    place: &Place,
    meter: &mut Meter,
) -> Result<(), NoMemory>
    requires { place.now.depth + levels < 2 ^ 62 }
    ensures { OnOk result (out.new.items
        ≡ out.old.items ++ dot_from look.now.names.now (state_of state.now) look.now.reached.now levels place.now) }
{
    if levels == 0 {
        return Ok(());
    }
    put_before(out, state, look, place, meter)?;
    for id in state.list(place.id) {
        put_dot(out, state, look, levels - 1, &place.below(*id), meter)?;
    }
    put_after(out, state, place)?;
    Ok(())
}

/// Adds the arrows from an object, where it stands.
fn put_own_arrows(
    out: &mut Vec<u8>,
    state: &PlainState,
    place: &Place,
    object: &Object,
) -> Result<(), NoMemory>
    ensures { OnOk result (out.new.items ≡ out.old.items ++ own_arrows (state_of state.now) place.now object.now) }
{
    if is_first(state, place) {
        put_arrows(out, place, &object.body)?;
    }
    Ok(())
}

/// Adds these, and that of the container where more than one lists the object.
fn put_arrows_of(
    out: &mut Vec<u8>,
    state: &PlainState,
    place: &Place,
    object: &Object,
) -> Result<(), NoMemory>
    ensures { OnOk result (out.new.items ≡ out.old.items ++ arrows_of (state_of state.now) place.now object.now) }
{
    put_own_arrows(out, state, place, object)?;
    if is_shared(state, place) {
        put_list_arrow(out, place)?;
    }
    Ok(())
}

/// Adds the arrows of what is at a place.
fn put_arrows_at(out: &mut Vec<u8>, state: &PlainState, place: &Place) -> Result<(), NoMemory>
    ensures { OnOk result (out.new.items ≡ out.old.items ++ arrows_at (state_of state.now) place.now) }
{
    match state.object(place.id) {
        None => Ok(()),
        Some(object) => put_arrows_of(out, state, place, object),
    }
}

/// Adds the arrows of so many levels of the graph from a place on.
fn put_all_arrows(
    out: &mut Vec<u8>,
    state: &PlainState,
    levels: u32,
    place: &Place,
) -> Result<(), NoMemory>
    requires { place.now.depth + levels < 2 ^ 62 }
    ensures { OnOk result (out.new.items
        ≡ out.old.items ++ arrows_from (state_of state.now) levels place.now) }
{
    if levels == 0 {
        return Ok(());
    }
    put_arrows_at(out, state, place)?;
    for id in state.list(place.id) {
        put_all_arrows(out, state, levels - 1, &place.below(*id))?;
    }
    Ok(())
}

/// The graph of a state.
fn dot_of(state: &PlainState, look: &Look<'_>) -> Result<Vec<u8>, NoMemory>
    ensures { IfOk result (λ text. text.items
        ≡ dot_text look.now.names.now (state_of state.now) look.now.reached.now) }
{
    let mut meter = Meter::new(state.alloc())?;
    let mut text = Vec::new(state.alloc());
    let levels = state.quota(ObjectId::root());
    text.extend_from_slice(b"digraph dump {\nnode [shape=box];\n")?;
    put_dot(&mut text, state, look, levels, &Place::root(), &mut meter)?;
    put_all_arrows(&mut text, state, levels, &Place::root())?;
    text.extend_from_slice(b"}\n")?;
    Ok(text)
}

/// A dump, and which of its objects are red.
#[derive(Drop)]
pub struct RedDump {
    /// The dump.
    pub dump: Dump,
    /// What the flows that are asked for reach.
    pub reached: Vec<ObjectId>,
}

/// Which objects of the dump that was read of a text are red: what flows from an object outside a category reach, where they are
/// asked for. The errors come in this order: an audit does not find the dump clean; or there is no memory.
pub fn red_in(
    alloc: Global,
    text: &[u8],
    dump: Dump,
    flow: Option<(ObjectId, Category)>,
) -> Result<RedDump, DotFault>
    requires { IsDump text.now dump }
    ensures dump { IfOk result (λ found. found.dump ≡ dump) }
    ensures red { IfOk result (λ found. IsRed flow text.now found.reached.items) }
    ensures fault { IfErr result (IsNoDot flow text.now) }
{
    let Some(asked) = flow else {
        let reached = Vec::new(alloc);
        return Ok(RedDump { dump, reached });
    };
    let audited = audit_dump(alloc, text, dump)?;
    let reached = match trace(alloc, &audited, asked.0, asked.1) {
        Ok(ids) => ids,
        Err(DumpFault::NotClean) => return Err(DotFault::NotClean),
        Err(DumpFault::NoMemory) => return Err(DotFault::Unshown(ShowFault::Memory)),
    };
    let Audited {
        bytes: _,
        dump,
        false_line: _,
    } = audited;
    Ok(RedDump { dump, reached })
}

/// The objects that a dump leads to as a graph, with the names that are known. Where flows are asked for, of an object outside a
/// category, each object that they reach is red. The errors come in this order: the text is no dump, its checkpoint can't be
/// restored, an audit does not find it clean; or there is no memory.
pub fn dot(
    alloc: Global,
    text: &[u8],
    flow: Option<(ObjectId, Category)>,
    names: &[Named],
) -> Result<Vec<u8>, DotFault>
    ensures { IsDot names.now flow text.now result }
{
    let dump = match dump_in(alloc, text) {
        Ok(dump) => dump,
        Err(fault) => return Err(DotFault::Unshown(fault)),
    };
    let Some(state) = state_in(alloc, &dump, None)? else {
        return Err(DotFault::Unshown(ShowFault::IllFormed));
    };
    let red = red_in(alloc, text, dump, flow)?;
    let look = Look {
        names,
        reached: red.reached.as_slice(),
    };
    Ok(dot_of(&state, &look)?)
}

//! What a step looks at and would modify, as told by the state before it.
ghost use Rattle.std.specs.Prelude.{◌≡◌, ◌/◌};
ghost use Rattle.flow_rules.specs.Touched.{owns, sees, changes, reads, on_the_way, covering};
ghost use Rattle.flows.specs.Carriers.{is_owner_in};
ghost use Rattle.flows.specs.Looks.{asks_owner, is_refusal, unless};
ghost use Rattle.kernel_rules.specs.Translate.{covers, names_none};
ghost use Rattle.plain_state.specs.StateOf.{state_of};

use base::{Category, Kind, Meter, ObjectId};
use kernel_rules::{Call, Entry, Ids, Mapping, Query, Reply, covers};
use plain_state::PlainState;

/// Whether an object owns a category.
pub fn owns(state: &PlainState, category: Category, id: ObjectId, meter: &mut Meter) -> bool
    ensures { result ≡ owns (state_of state.now) category.0 id }
{
    match state.label(id) {
        None => false,
        Some(label) => label.level(category, meter).rank() == 0,
    }
}

/// Whether it is a thread that owns the category.
pub fn is_owner(state: &PlainState, category: Category, thread: ObjectId, meter: &mut Meter) -> bool
    ensures { result ≡ is_owner_in (state_of state.now) category.0 thread }
{
    state.is_kind(Kind::Thread, thread) && owns(state, category, thread, meter)
}

// The first of these slots that covers a page.
fn covering(slots: &[Option<Mapping>], page: u64) -> Option<Mapping>
    ensures { result ≡ covering page slots.now }
{
    for slot in slots {
        if covers(slot, page) {
            return *slot;
        }
    }
    None
}

// The ids of the two entries on the way to an address.
fn on_the_way(state: &PlainState, thread: ObjectId, address: u64) -> Ids
    ensures { result ≡ on_the_way (state_of state.now) thread address }
{
    match state.space(thread) {
        None => Ids::from_slice(&[]),
        Some(space) => match covering(state.slots(space.object), address / 256) {
            None => Ids::from_slice(&[space.container, space.object]),
            Some(mapping) => Ids::from_slice(&[
                space.container,
                space.object,
                mapping.entry.container,
                mapping.entry.object,
            ]),
        },
    }
}

fn both(entry: &Entry) -> Ids
    ensures { result ≡ Rattle.flow_rules.specs.Touched.both_of entry.now }
{
    Ids::from_slice(&[entry.container, entry.object])
}

/// What an accepted call observes.
pub fn sees(state: &PlainState, thread: ObjectId, call: &Call) -> Ids
    ensures { result ≡ sees (state_of state.now) thread call.now }
{
    match call {
        Call::CatCreate | Call::SelfSetLabel { .. } | Call::SelfSetClearance { .. } => {
            Ids::from_slice(&[])
        }
        Call::SelfSetAs { space } => {
            if space.names_none() {
                Ids::from_slice(&[])
            } else {
                Ids::from_slice(&[space.container])
            }
        }
        Call::ContainerCreate(made) => Ids::from_slice(&[made.container]),
        Call::SegmentCreate(made) => Ids::from_slice(&[made.container]),
        Call::SegmentCopy(made) => {
            Ids::from_slice(&[made.source.container, made.source.object, made.container])
        }
        Call::AsCreate(made) => Ids::from_slice(&[made.container]),
        Call::ThreadCreate(made) => Ids::from_slice(&[made.container]),
        Call::GateCreate(made) => {
            if made.space.names_none() {
                Ids::from_slice(&[made.container])
            } else {
                Ids::from_slice(&[made.container, made.space.container])
            }
        }
        Call::Link { target, entry } => Ids::from_slice(&[*target, entry.container]),
        Call::Unref { entry } => Ids::from_slice(&[entry.container]),
        Call::QuotaMove { entry, change } => {
            if *change < 0 {
                both(entry)
            } else {
                Ids::from_slice(&[entry.container])
            }
        }
        Call::SetFixed { entry } => both(entry),
        Call::SetImmutable { entry } => both(entry),
        Call::MetaSet { entry, .. } => both(entry),
        Call::SegmentResize { entry, .. } => both(entry),
        Call::SegmentWrite { entry, .. } => both(entry),
        Call::AsMap { space, mapping, .. } => {
            Ids::from_slice(&[space.container, space.object, mapping.entry.container])
        }
        Call::AsUnmap { space, .. } => both(space),
        Call::Store { address, .. } => on_the_way(state, thread, *address),
        Call::GateEnter { gate, .. } => both(gate),
        Call::DevSend { entry, .. } => both(entry),
        Call::DevRecv { entry } => both(entry),
    }
}

/// What an accepted call modifies.
pub fn changes(state: &PlainState, thread: ObjectId, call: &Call, meter: &mut Meter) -> Ids
    ensures { result ≡ changes (state_of state.now) thread call.now }
{
    match call {
        Call::CatCreate
        | Call::SelfSetLabel { .. }
        | Call::SelfSetClearance { .. }
        | Call::SelfSetAs { .. }
        | Call::GateEnter { .. } => Ids::from_slice(&[]),
        Call::ContainerCreate(made) => Ids::from_slice(&[made.container, state.next_id()]),
        Call::SegmentCreate(made) => Ids::from_slice(&[made.container, state.next_id()]),
        Call::SegmentCopy(made) => Ids::from_slice(&[made.container, state.next_id()]),
        Call::AsCreate(made) => Ids::from_slice(&[made.container, state.next_id()]),
        Call::ThreadCreate(made) => Ids::from_slice(&[made.container, state.next_id()]),
        Call::GateCreate(made) => Ids::from_slice(&[made.container, state.next_id()]),
        Call::Link { target, .. } => Ids::from_slice(&[*target]),
        Call::Unref { entry } => Ids::from_slice(&[entry.container]),
        Call::QuotaMove { entry, .. } => both(entry),
        Call::SetFixed { entry } => Ids::from_slice(&[entry.object]),
        Call::SetImmutable { entry } => Ids::from_slice(&[entry.object]),
        Call::MetaSet { entry, .. } => Ids::from_slice(&[entry.object]),
        Call::SegmentResize { entry, .. } => Ids::from_slice(&[entry.object]),
        Call::SegmentWrite { entry, .. } => Ids::from_slice(&[entry.object]),
        Call::AsMap { space, .. } => Ids::from_slice(&[space.object]),
        Call::AsUnmap { space, .. } => Ids::from_slice(&[space.object]),
        Call::Store { address, .. } => match state.place(thread, *address, meter) {
            None => Ids::from_slice(&[]),
            Some(place) => Ids::from_slice(&[place.segment]),
        },
        Call::DevSend { entry, .. } => Ids::from_slice(&[entry.object]),
        Call::DevRecv { entry } => Ids::from_slice(&[entry.object]),
    }
}

/// What an accepted query observes.
pub fn reads(state: &PlainState, thread: ObjectId, query: &Query) -> Ids
    ensures { result ≡ reads (state_of state.now) thread query.now }
{
    match query {
        Query::SelfGet => Ids::from_slice(&[]),
        Query::ObjLabel { entry } => {
            if state.is_kind(Kind::Thread, entry.object) {
                both(entry)
            } else {
                Ids::from_slice(&[entry.container])
            }
        }
        Query::ObjQuota { entry } => both(entry),
        Query::ContainerList { container, .. } => Ids::from_slice(&[*container]),
        Query::ContainerParent { container } => Ids::from_slice(&[*container]),
        Query::SegmentLen { entry } => both(entry),
        Query::SegmentRead { entry, .. } => both(entry),
        Query::MetaGet { entry } => both(entry),
        Query::AsGet { space, .. } => both(space),
        Query::Load { address, .. } => on_the_way(state, thread, *address),
    }
}

/// Whether a call would enter a gate that owns the category.
pub fn asks_owner(state: &PlainState, category: Category, call: &Call, meter: &mut Meter) -> bool
    ensures { result ≡ asks_owner (state_of state.now) category.0 call.now }
{
    match call {
        Call::GateEnter { gate, .. } => owns(state, category, gate.object, meter),
        _ => false,
    }
}

/// Whether a reply is a refusal.
pub fn is_refusal(reply: &Reply) -> bool
    ensures { result ≡ is_refusal reply.now }
{
    matches!(reply, Reply::Refused(_))
}

/// These ids, and none of a refusal.
pub fn unless(refused: bool, ids: Ids) -> Ids
    ensures { result ≡ unless refused ids }
{
    if refused { Ids::from_slice(&[]) } else { ids }
}

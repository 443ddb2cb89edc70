//! The parts by which a condition is decided.
#![tactic(auto)]

ghost use Rattle.std.specs.Prelude.{◌≡◌, ◌≤◌, ◌++◌, ◌∷◌, [], length, IfOk, OnOk};
ghost use Rattle.label_lattice.specs.LabelRules.{stored};
ghost use Rattle.label_lattice.specs.Raw.{is_bad};
ghost use Rattle.kernel_rules.specs.Conditions.{allows, avoids_kind_of, gate_bearer, names_root, own_bearer};
ghost use Rattle.kernel_rules.specs.Conditions.{asked_of_gate, own_clearance, own_label};
ghost use Rattle.kernel_rules.specs.State.{label_at, clearance_at};
ghost use Rattle.plain_state.specs.StateOf.{state_of};
ghost use Rattle.explained.specs.Ruled.{condition_of, right_of};
ghost use Rattle.explained.specs.Told.{access_parts, apart_parts, asked, between_parts, gate_parts, given, given_clearance, label_parts};
ghost use Rattle.explained.specs.Told.{of, own, side, top};
ghost use Rattle.explained.specs.Told.{mapping_parts, parts_of, room_parts, shape_parts, sum_part};
ghost use Rattle.explained.specs.declared.parts.Comparison.TheVariants as compared;
ghost use Rattle.explained.specs.declared.parts.Part.TheVariants as part;

use crate::conditions::{Condition, Right};
use crate::facts::Fact;
use crate::parts::{Comparison, Part, Parts, Role, Side};
use base::{Category, Kind, Level, Meter, NoMemory, ObjectId};
use kernel_rules::{Entry, Mapping, Place, pages_down, pages_up};
use label_lattice::label_rules::{Asked, Bearer, stored_of, with_category};
use label_lattice::{Label, RawLabel};
use plain_state::{PlainState, kind_of};
use std::alloc::Global;

/// One part.
fn one(alloc: Global, only: Part) -> Result<Parts, NoMemory>
    ensures { IfOk result (λ parts. parts ≡ only ∷ []) }
{
    Parts::of(alloc, &[only])
}

/// A fact.
fn fact(alloc: Global, fact: Fact, is: bool) -> Result<Parts, NoMemory>
    ensures { IfOk result (λ parts. parts ≡ part.Fact fact is ∷ []) }
{
    one(alloc, Part::Fact(fact, is))
}

/// A comparison.
fn compared(alloc: Global, labels: Comparison) -> Result<Parts, NoMemory>
    ensures { IfOk result (λ parts. parts ≡ part.Compared labels ∷ []) }
{
    one(alloc, Part::Compared(labels))
}

/// A label, and whose it is.
fn side(role: Role, label: Option<Label>) -> Side
    ensures { result ≡ side role label }
{
    Side { role, label }
}

/// The label of the calling thread.
fn own(state: &PlainState, thread: ObjectId) -> Side
    ensures { result ≡ own (state_of state.now) thread }
{
    side(Role::Own, label_of(state, thread))
}

/// Its clearance.
fn top(state: &PlainState, thread: ObjectId) -> Side
    ensures { result ≡ top (state_of state.now) thread }
{
    side(Role::OwnClearance, clearance_of(state, thread))
}

/// The label of an object.
fn of(state: &PlainState, thread: ObjectId, id: ObjectId) -> Side
    ensures { result ≡ of (state_of state.now) thread id }
{
    let _thread = thread;
    side(Role::Object(id), label_of(state, id))
}

/// A label that the call gives.
fn given(raw: &RawLabel, meter: &mut Meter) -> Side
    ensures { result ≡ given raw.now }
{
    side(Role::Given, stored_of(raw, meter))
}

/// A clearance that it gives.
fn given_clearance(raw: &RawLabel, meter: &mut Meter) -> Side
    ensures { result ≡ given_clearance raw.now }
{
    side(Role::GivenClearance, stored_of(raw, meter))
}

/// The label of an object, where it is recorded.
fn label_of(state: &PlainState, id: ObjectId) -> Option<Label>
    ensures { result ≡ label_at (state_of state.now) id }
{
    state.label(id).copied()
}

/// The clearance of a thread.
fn clearance_of(state: &PlainState, thread: ObjectId) -> Option<Label>
    ensures { result ≡ clearance_at (state_of state.now) thread }
{
    state.clearance(thread).copied()
}

/// Whether an entry is that of the root in itself.
fn names_root(entry: &Entry) -> bool
    ensures { result ≡ names_root entry.now }
{
    entry.container.number() == 1 && entry.object.number() == 1
}

/// A live container, which the thread observes.
fn access_parts(state: &PlainState, thread: ObjectId, container: ObjectId) -> [Part; 2]
    ensures { result ≡ access_parts (state_of state.now) thread container }
{
    let live = state.is_live_kind(Kind::Container, container);
    let labels = Comparison::Visible(of(state, thread, container), own(state, thread));
    [Part::Fact(Fact::NoContainer, !live), Part::Compared(labels)]
}

/// Whether a label can't be stored.
fn is_bad(raw: &RawLabel, meter: &mut Meter) -> bool
    ensures { result ≡ is_bad raw.now }
{
    stored_of(raw, meter).is_none()
}

/// A label can be stored, and its categories were made.
fn label_parts(state: &PlainState, thread: ObjectId, raw: &RawLabel, meter: &mut Meter) -> [Part; 2]
    ensures { result ≡ label_parts (state_of state.now) thread raw.now }
{
    let _thread = thread;
    let made = raw.all_made(state.next_category());
    [
        Part::Fact(Fact::Unstorable, is_bad(raw, meter)),
        Part::Fact(Fact::NotMade, !made),
    ]
}

/// A label is at least one and at most another.
fn between_parts(low: &Side, label: &Side, high: &Side) -> [Part; 2]
    ensures { result ≡ between_parts low.now label.now high.now }
{
    [
        Part::Compared(Comparison::Below(*low, *label)),
        Part::Compared(Comparison::Below(*label, *high)),
    ]
}

/// Whether a container avoids an object's kind. It does where the object is not recorded.
fn avoids_kind_of(state: &PlainState, thread: ObjectId, container: ObjectId, id: ObjectId) -> bool
    ensures { result ≡ avoids_kind_of (state_of state.now) thread container id }
{
    let _thread = thread;
    match state.object(id) {
        Some(object) => state.avoids(kind_of(object), container),
        None => true,
    }
}

/// What a container or an object would use with so many pages more.
fn sum_part(state: &PlainState, thread: ObjectId, id: ObjectId, pages: u32) -> Part
    ensures { result ≡ sum_part (state_of state.now) thread id pages }
{
    let _thread = thread;
    Part::Sum(id, state.used(id), pages, state.quota(id))
}

/// One part more, where it is asked.
fn ask(parts: &mut Parts, test: bool, part: Part) -> Result<(), NoMemory>
    ensures { OnOk result (parts.new ≡ parts.old ++ asked test (part ∷ [])) }
{
    if test {
        parts.push(part)?;
    }
    Ok(())
}

/// A change of an object's quota has room: upwards in its container, downwards in itself.
fn room_parts(
    state: &PlainState,
    thread: ObjectId,
    entry: &Entry,
    change: i32,
) -> Result<Parts, NoMemory>
    ensures { IfOk result (λ parts. parts
        ≡ room_parts (state_of state.now) thread entry.now change) }
{
    let (up, down) = (pages_up(change), pages_down(change));
    let mut parts = Parts::new(state.alloc());
    ask(
        &mut parts,
        0 < up,
        sum_part(state, thread, entry.container, up),
    )?;
    ask(
        &mut parts,
        0 < down,
        sum_part(state, thread, entry.object, down),
    )?;
    Ok(parts)
}

/// The thread's label with the next category as its own, where it has room for it.
fn own_label(state: &PlainState, thread: ObjectId, meter: &mut Meter) -> Option<Label>
    ensures { result ≡ own_label (state_of state.now) thread }
{
    let category = Category(state.next_category());
    match state.label(thread) {
        None => None,
        Some(label) => with_category(label, category, Level::Star, meter),
    }
}

/// Its clearance with the next category at 3, where it has room for it.
fn own_clearance(state: &PlainState, thread: ObjectId, meter: &mut Meter) -> Option<Label>
    ensures { result ≡ own_clearance (state_of state.now) thread }
{
    let category = Category(state.next_category());
    match state.clearance(thread) {
        None => None,
        Some(clearance) => with_category(clearance, category, Level::L3, meter),
    }
}

/// From `at` on, `count` is 1 to 64 bytes of one page.
fn shape_parts(at: u64, count: u32) -> [Part; 3]
    ensures { result ≡ shape_parts at count }
{
    let count = u64::from(count);
    [
        Part::AtLeast(count, 1),
        Part::AtMost(count, 64),
        Part::AtMost(at % 256 + count, 256),
    ]
}

/// The bounds of a mapping.
fn mapping_parts(slot: u32, mapping: &Mapping) -> [Part; 5]
    ensures { result ≡ mapping_parts slot mapping.now }
{
    let (page, first) = (u64::from(mapping.page), u64::from(mapping.first));
    let count = u64::from(mapping.count);
    let none = !(mapping.rights.read || mapping.rights.write);
    [
        Part::AtMost(u64::from(slot), 15),
        Part::AtLeast(count, 1),
        Part::AtMost(page + count, 65536),
        Part::AtMost(first + count, 16),
        Part::Fact(Fact::NoRights, none),
    ]
}

/// A slot is empty, and a mapping meets no page of what the slots map.
fn overlap_parts(
    alloc: Global,
    slot: u32,
    filled: Option<Mapping>,
    mapping: &Mapping,
    slots: &[Option<Mapping>],
) -> Result<Parts, NoMemory>
    requires { length slots.now ≤ 16 }
    ensures { IfOk result (λ parts. parts
        ≡ part.Empty slot filled ∷ apart_parts 0 mapping.now slots.now) }
{
    let mut parts = Parts::new(alloc);
    parts.push(Part::Empty(slot, filled))?;
    for (i, other) in slots.iter().enumerate() {
        parts.push(Part::Apart(i as u32, *mapping, *other))?;
    }
    Ok(parts)
}

/// Whether a place is there, and its mapping gives a right.
fn allows(right: Right, place: &Option<Place>) -> bool
    ensures { result ≡ allows (right_of right) place.now }
{
    match (right, place) {
        (_, None) => false,
        (Right::Read, Some(place)) => place.rights.read,
        (Right::Write, Some(place)) => place.rights.write,
    }
}

/// A thread's label and clearance.
fn own_bearer(state: &PlainState, thread: ObjectId) -> Bearer
    ensures { result ≡ own_bearer (state_of state.now) thread }
{
    Bearer {
        label: label_of(state, thread),
        clearance: clearance_of(state, thread),
    }
}

/// A thread may have a clearance.
fn clearable_parts(own: &Side, top: &Side, clearance: &Side) -> [Part; 2]
    ensures { result ≡ part.Compared (compared.Below own.now clearance.now)
        ∷ part.Compared (compared.BelowJoinUp clearance.now top.now own.now) ∷ [] }
{
    [
        Part::Compared(Comparison::Below(*own, *clearance)),
        Part::Compared(Comparison::BelowJoinUp(*clearance, *top, *own)),
    ]
}

/// A gate's label and clearance.
fn gate_bearer(state: &PlainState, gate: ObjectId) -> Bearer
    ensures { result ≡ gate_bearer (state_of state.now) gate }
{
    Bearer {
        label: label_of(state, gate),
        clearance: state.gate(gate).map(|gate| gate.clearance),
    }
}

/// What a thread asks of a gate, as it is stored.
fn asked_of_gate(
    label: &RawLabel,
    clearance: &RawLabel,
    verify: &RawLabel,
    meter: &mut Meter,
) -> Asked
    ensures { result ≡ asked_of_gate label.now clearance.now verify.now }
{
    Asked {
        label: stored_of(label, meter),
        clearance: stored_of(clearance, meter),
        verify: stored_of(verify, meter),
    }
}

/// The five gate rules.
fn gate_parts(id: ObjectId, thread: &Bearer, gate: &Bearer, asked: &Asked) -> [Part; 5]
    ensures { result ≡ gate_parts id thread.now gate.now asked.now }
{
    let (own, most) = (
        &side(Role::Own, thread.label),
        &side(Role::Gate(id), gate.clearance),
    );
    let (label, clearance) = (
        &side(Role::Given, asked.label),
        &side(Role::GivenClearance, asked.clearance),
    );
    let top = side(Role::OwnClearance, thread.clearance);
    [
        Part::Compared(Comparison::Below(*own, *most)),
        Part::Compared(Comparison::Below(*own, side(Role::Verified, asked.verify))),
        Part::Compared(Comparison::AboveFloor(*own, side(Role::Object(id), gate.label), *label)),
        Part::Compared(Comparison::Below(*label, *clearance)),
        Part::Compared(Comparison::BelowJoin(*clearance, top, *most)),
    ]
}

/// The parts by which a condition is decided. The error is want of memory.
pub(crate) fn parts_of(
    state: &PlainState,
    thread: ObjectId,
    condition: &Condition,
    meter: &mut Meter,
) -> Result<Parts, NoMemory>
    ensures { IfOk result (λ parts. parts ≡ parts_of (state_of state.now) thread (condition_of condition.now)) }
{
    let alloc = state.alloc();
    match condition {
        Condition::Halted => fact(
            alloc,
            Fact::NoThread,
            !state.is_live_kind(Kind::Thread, thread),
        ),
        Condition::NotAccessible(container) => Parts::of(
            alloc,
            &access_parts(state, thread, *container),
        ),
        Condition::NotHeld(entry) => fact(alloc, Fact::NoEntry, !state.holds(entry)),
        Condition::NotListed(entry) => {
            fact(
                alloc,
                Fact::NotListed,
                !state.is_listed(entry.container, entry.object),
            )
        }
        Condition::NotLinked(entry) => {
            let listed = state.is_listed(entry.container, entry.object);
            fact(alloc, Fact::NotListed, !names_root(entry) && !listed)
        }
        Condition::Listed(container, id) => fact(
            alloc,
            Fact::Listed,
            state.is_listed(*container, *id),
        ),
        Condition::Root(entry) => fact(alloc, Fact::IsRoot, names_root(entry)),
        Condition::NotOfKind(kind, id) => fact(
            alloc,
            Fact::NotOfKind(*kind),
            !state.is_kind(*kind, *id),
        ),
        Condition::OfKind(kind, id) => fact(alloc, Fact::OfKind(*kind), state.is_kind(*kind, *id)),
        Condition::NotObserved(id) => {
            compared(
                alloc,
                Comparison::Visible(of(state, thread, *id), own(state, thread)),
            )
        }
        Condition::NotFlowing(id) => {
            compared(
                alloc,
                Comparison::Below(own(state, thread), of(state, thread, *id)),
            )
        }
        Condition::NotShown(id) => {
            if !state.is_kind(Kind::Thread, *id) {
                return Ok(Parts::new(alloc));
            }
            compared(
                alloc,
                Comparison::Shown(of(state, thread, *id), own(state, thread)),
            )
        }
        Condition::BadLabel(raw) => Parts::of(alloc, &label_parts(state, thread, raw, meter)),
        Condition::BadOrStarred(raw) => {
            let mut parts = Parts::of(alloc, &label_parts(state, thread, raw, meter))?;
            parts.push(Part::Fact(Fact::HasStar, raw.has_star()))?;
            Ok(parts)
        }
        Condition::BelowThread(raw) => {
            compared(
                alloc,
                Comparison::Below(own(state, thread), given(raw, meter)),
            )
        }
        Condition::OutOfRange(raw) => {
            let (low, high) = (own(state, thread), top(state, thread));
            Parts::of(alloc, &between_parts(&low, &given(raw, meter), &high))
        }
        Condition::OutOfClearance(raw, above) => {
            let (low, high) = (given(raw, meter), top(state, thread));
            Parts::of(
                alloc,
                &between_parts(&low, &given_clearance(above, meter), &high),
            )
        }
        Condition::NotClearable(raw) => {
            let (low, high) = (own(state, thread), top(state, thread));
            Parts::of(
                alloc,
                &clearable_parts(&low, &high, &given_clearance(raw, meter)),
            )
        }
        Condition::AboveClearance(id) => {
            compared(
                alloc,
                Comparison::Below(of(state, thread, *id), top(state, thread)),
            )
        }
        Condition::Avoided(kind, container) => fact(
            alloc,
            Fact::Avoided,
            state.avoids(*kind, *container),
        ),
        Condition::KindAvoided(container, id) => {
            fact(
                alloc,
                Fact::Avoided,
                avoids_kind_of(state, thread, *container, *id),
            )
        }
        Condition::Above(number, most) => one(alloc, Part::AtMost(*number, *most)),
        Condition::Zero(number) => one(alloc, Part::AtLeast(*number, 1)),
        Condition::Overfull(container, pages) => one(
            alloc,
            sum_part(state, thread, *container, *pages),
        ),
        Condition::WithoutRoom(entry, change) => room_parts(state, thread, entry, *change),
        Condition::Immutable(id) => fact(alloc, Fact::Immutable, state.is_immutable(*id)),
        Condition::Fixed(id) => fact(alloc, Fact::Fixed, state.is_fixed(*id)),
        Condition::NotFixed(id) => fact(alloc, Fact::NotFixed, !state.is_fixed(*id)),
        Condition::IdsSpent => fact(alloc, Fact::IdsSpent, 1 << 61 <= state.next_id().number()),
        Condition::CategoriesSpent => {
            fact(
                alloc,
                Fact::CategoriesSpent,
                1 << 61 <= state.next_category(),
            )
        }
        Condition::LabelFull => {
            let label = Part::Fact(Fact::LabelFull, own_label(state, thread, meter).is_none());
            let clearance = own_clearance(state, thread, meter).is_none();
            Parts::of(alloc, &[label, Part::Fact(Fact::ClearanceFull, clearance)])
        }
        Condition::NotShaped(at, count) => Parts::of(alloc, &shape_parts(*at, *count)),
        Condition::NotMapping(slot, mapping) => Parts::of(alloc, &mapping_parts(*slot, mapping)),
        Condition::Overlapping(id, slot, mapping) => {
            let filled = state.slot(*id, *slot as usize);
            overlap_parts(alloc, *slot, filled, mapping, state.slots(*id))
        }
        Condition::SlotEmpty(id, slot) => {
            fact(
                alloc,
                Fact::SlotEmpty,
                state.slot(*id, *slot as usize).is_none(),
            )
        }
        Condition::NotMapped(address) => {
            fact(
                alloc,
                Fact::Unmapped,
                state.place(thread, *address, meter).is_none(),
            )
        }
        Condition::NotAllowed(address, right) => {
            let place = state.place(thread, *address, meter);
            fact(alloc, Fact::RightsLacking, !allows(*right, &place))
        }
        Condition::NotAdmitted(gate, label, clearance, verify) => {
            let asked = asked_of_gate(label, clearance, verify, meter);
            let (own, bearer) = (own_bearer(state, thread), gate_bearer(state, *gate));
            Parts::of(alloc, &gate_parts(*gate, &own, &bearer, &asked))
        }
        Condition::QueueFull(id) => fact(alloc, Fact::QueueFull, 4 <= state.packets(*id).len()),
        Condition::QueueEmpty(id) => fact(alloc, Fact::QueueEmpty, state.packets(*id).len() == 0),
    }
}

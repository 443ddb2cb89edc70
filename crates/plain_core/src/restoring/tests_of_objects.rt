//! Tests of one object of a checkpoint.
ghost use Rattle.std.specs.Prelude.{◌≡◌};
ghost use Rattle.std.specs.List.{list_all};
ghost use Rattle.checkpoints.specs.Restorable.{is_within, is_in_bounds, is_starless};
ghost use Rattle.checkpoints.specs.Restorable.{is_whole_entry, may_hold, avoid_of, lie_apart};
ghost use Rattle.checkpoints.specs.Restorable.{maps_rightly};
ghost use Rattle.kernel_rules.specs.State.{slots_of};

use base::{Meter, TypeSet};
use kernel_rules::{Body, Entry, Mapping, Object};
use memory_calls::meets_any;

/// Whether each kind of the first set is in the second.
pub fn is_within(a: TypeSet, b: TypeSet) -> bool
    ensures { result ≡ is_within a b }
{
    (!a.container || b.container)
        && (!a.segment || b.segment)
        && (!a.address_space || b.address_space)
        && (!a.thread || b.thread)
        && (!a.gate || b.gate)
        && (!a.device || b.device)
}

/// Whether a slot's mapping, if it has one, is of 1 to 16 pages of a segment, which end at virtual
/// page 65,536 at most, and gives some right.
pub fn is_in_bounds(slot: Option<Mapping>) -> bool
    ensures { result ≡ is_in_bounds slot }
{
    match slot {
        None => true,
        Some(mapping) => {
            1 <= mapping.count
                && mapping.page as u64 + mapping.count as u64 <= 65_536
                && mapping.first as u64 + mapping.count as u64 <= 16
                && (mapping.rights.read || mapping.rights.write)
        }
    }
}

/// Whether an entry is (0, 0), or has no 0.
pub fn is_whole_entry(entry: Entry) -> bool
    ensures { result ≡ is_whole_entry entry }
{
    let container = entry.container.number();
    let object = entry.object.number();
    (container == 0 && object == 0) || (0 < container && 0 < object)
}

/// Whether an object has no star where only threads and gates may have one.
pub fn is_starless(object: &Object, meter: &mut Meter) -> bool
    ensures { result ≡ is_starless object.now }
{
    match &object.body {
        Body::Thread(_) => true,
        Body::Gate(_) => true,
        Body::Container(_, _) => !object.label.has_star(meter),
        Body::Segment(_) => !object.label.has_star(meter),
        Body::AddressSpace(_) => !object.label.has_star(meter),
        Body::Device(_) => !object.label.has_star(meter),
    }
}

/// Whether a container that avoids these kinds may list an object: it is of another kind, and a
/// container avoids these kinds too.
pub fn may_hold(avoid: TypeSet, object: &Object) -> bool
    ensures { result ≡ may_hold avoid object.now }
{
    match &object.body {
        Body::Container(own, _) => !avoid.container && is_within(avoid, *own),
        Body::Segment(_) => !avoid.segment,
        Body::AddressSpace(_) => !avoid.address_space,
        Body::Thread(_) => !avoid.thread,
        Body::Gate(_) => !avoid.gate,
        Body::Device(_) => !avoid.device,
    }
}

/// Whether no two of the mappings meet.
fn lie_apart(slots: &[Option<Mapping>]) -> bool
    ensures { result ≡ lie_apart slots.now }
{
    match slots.split_first() {
        None => true,
        Some((None, rest)) => lie_apart(rest),
        Some((Some(mapping), rest)) => { !meets_any(mapping, rest) && lie_apart(rest) }
    }
}

fn all_in_bounds(slots: &[Option<Mapping>]) -> bool
    ensures { result ≡ list_all is_in_bounds slots.now }
{
    slots.iter().all(|slot| is_in_bounds(*slot))
}

/// Whether the mappings of an object are such as calls make: each is in its bounds, and no two of
/// them meet.
pub fn maps_rightly(object: &Object) -> bool
    ensures { result ≡ maps_rightly object.now }
{
    match &object.body {
        Body::AddressSpace(slots) => all_in_bounds(&slots.slots) && lie_apart(&slots.slots),
        _ => true,
    }
}

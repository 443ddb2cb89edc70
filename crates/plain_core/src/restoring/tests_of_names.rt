//! Tests of what the objects of a checkpoint list and name.
ghost use Rattle.std.specs.Prelude.{◌≡◌, true, is_some, ◌&&◌};
ghost use Rattle.std.specs.List.{list_all};
ghost use Rattle.base.specs.declared.kinds.Kind.TheVariants as kinds;
ghost use Rattle.checkpoints.specs.Restorable.{each, is_entry_given, mapped, spaces_in};
ghost use Rattle.checkpoints.specs.Restorable.{names_given, names_kind, names_kinds};
ghost use Rattle.kernel_rules.specs.State.{object_at, slots_of, is_kind};
ghost use Rattle.plain_state.specs.Recorded.{records_state};

use base::{Kind, ObjectId};
use kernel_rules::{Body, Entry, Mapping, Object};
use plain_state::Records;

fn is_recorded(records: &Records, id: ObjectId) -> bool
    ensures { result ≡ is_some (object_at (records_state records.now) id) }
{
    match records.objects.get(&id) {
        None => false,
        Some(_) => true,
    }
}

/// Whether each id of a list is recorded.
pub fn are_recorded(records: &Records, ids: &[ObjectId]) -> bool
    ensures { result ≡ list_all (λ i. is_some (object_at (records_state records.now) i)) ids.now }
{
    ids.iter().all(|id| is_recorded(records, *id))
}

/// Whether the ids of an entry are below a number.
fn is_entry_given(next_id: u64, entry: Entry) -> bool
    ensures { result ≡ is_entry_given next_id entry }
{
    entry.container.number() < next_id && entry.object.number() < next_id
}

fn are_mapped_given(next_id: u64, slots: &[Option<Mapping>]) -> bool
    ensures { result ≡ list_all (is_entry_given next_id) (mapped slots.now) }
{
    match slots {
        [] => true,
        [None, rest @ ..] => are_mapped_given(next_id, rest),
        [Some(mapping), rest @ ..] => {
            is_entry_given(next_id, mapping.entry) && are_mapped_given(next_id, rest)
        }
    }
}

/// Whether the ids that an object's entries name are below a number.
fn names_given(next_id: u64, object: &Object) -> bool
    ensures { result ≡ names_given next_id object.now }
{
    match &object.body {
        Body::AddressSpace(slots) => are_mapped_given(next_id, &slots.slots),
        Body::Thread(thread) => is_entry_given(next_id, thread.space),
        Body::Gate(gate) => is_entry_given(next_id, gate.space),
        _ => true,
    }
}

/// Whether each id that an entry names was given.
pub fn name_given(records: &Records) -> bool
    ensures { result ≡ each (names_given records.now.next_id) (records_state records.now) }
{
    let next_id = records.next_id;
    records
        .objects
        .iter()
        .all(|(_, object)| names_given(next_id, object))
}

fn is_segment(object: &Object) -> bool
    ensures { result ≡ is_kind kinds.Segment object.now }
{
    match &object.body {
        Body::Segment(_) => true,
        _ => false,
    }
}

/// Whether an entry names a segment, if what it names is recorded.
fn names_segment(records: &Records, entry: Entry) -> bool
    ensures { result ≡ names_kind (records_state records.now) kinds.Segment entry }
{
    match records.objects.get(&entry.object) {
        None => true,
        Some(object) => is_segment(object),
    }
}

fn name_segments(records: &Records, slots: &[Option<Mapping>]) -> bool
    ensures { result ≡ list_all (names_kind (records_state records.now) kinds.Segment) (mapped slots.now) }
{
    match slots {
        [] => true,
        [None, rest @ ..] => name_segments(records, rest),
        [Some(mapping), rest @ ..] => {
            names_segment(records, mapping.entry) && name_segments(records, rest)
        }
    }
}

fn is_space(object: &Object) -> bool
    ensures { result ≡ is_kind kinds.AddressSpace object.now }
{
    match &object.body {
        Body::AddressSpace(_) => true,
        _ => false,
    }
}

/// Whether an entry names an address space, if what it names is recorded.
fn names_space(records: &Records, entry: Entry) -> bool
    ensures { result ≡ names_kind (records_state records.now) kinds.AddressSpace entry }
{
    match records.objects.get(&entry.object) {
        None => true,
        Some(object) => is_space(object),
    }
}

fn names_kinds(records: &Records, object: &Object) -> bool
    ensures { result ≡ names_kinds (records_state records.now) object.now }
{
    match &object.body {
        Body::AddressSpace(slots) => name_segments(records, &slots.slots),
        Body::Thread(thread) => names_space(records, thread.space),
        Body::Gate(gate) => names_space(records, gate.space),
        _ => true,
    }
}

/// Whether mappings name segments, and threads and gates address spaces.
pub fn name_kinds(records: &Records) -> bool
    ensures { result ≡ each (names_kinds (records_state records.now)) (records_state records.now) }
{
    records
        .objects
        .iter()
        .all(|(_, object)| names_kinds(records, object))
}

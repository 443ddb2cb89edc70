//! Tests of the records of a checkpoint.
ghost use Rattle.std.specs.Prelude.{◌≡◌};
ghost use Rattle.std.specs.List.{list_all};
ghost use Rattle.checkpoints.specs.Restorable.{each, is_starless, has_counters, has_root};
ghost use Rattle.checkpoints.specs.Restorable.{is_whole_entry, spaces_in, may_hold};
ghost use Rattle.checkpoints.specs.Restorable.{lists_rightly, maps_rightly};
ghost use Rattle.kernel_rules.specs.State.{object_at, of_object};
ghost use Rattle.std.specs.Prelude.{true};
ghost use Rattle.plain_state.specs.Recorded.{records_state};

use crate::restoring::tests_of_objects::{is_starless, is_whole_entry, maps_rightly, may_hold};
use base::{Meter, ObjectId, TypeSet};
use kernel_rules::{Body, Object};
use plain_state::Records;

/// Whether both counters are at most 2^61, and at least what the limits give.
pub fn counters_within(records: &Records) -> bool
    ensures { result ≡ has_counters records.now.limits (records_state records.now) }
{
    let spent = 1u64 << 61;
    records.limits.next_id <= records.next_id
        && records.next_id <= spent
        && records.limits.next_category <= records.next_category
        && records.next_category <= spent
}

/// Whether the root is a container whose quota is that of the limits.
pub fn has_root(records: &Records) -> bool
    ensures { result ≡ has_root records.now.limits (records_state records.now) }
{
    match records.objects.get(&ObjectId::root()) {
        None => false,
        Some(root) => match &root.body {
            Body::Container(_, _) => root.quota == records.limits.pages,
            _ => false,
        },
    }
}

/// Whether each object has no star where only threads and gates may have one.
pub fn are_starless(records: &Records, meter: &mut Meter) -> bool
    ensures { result ≡ each is_starless (records_state records.now) }
{
    for (_, object) in records.objects.iter() {
        if !is_starless(object, meter) {
            return false;
        }
    }
    true
}

fn has_whole_entry(object: &Object) -> bool
    ensures { result ≡ list_all is_whole_entry (spaces_in object.now.body) }
{
    match &object.body {
        Body::Thread(thread) => is_whole_entry(thread.space),
        Body::Gate(gate) => is_whole_entry(gate.space),
        _ => true,
    }
}

/// Whether the entry of each thread's and gate's address space is (0, 0), or has no 0.
pub fn are_entries_whole(records: &Records) -> bool
    ensures { result ≡ each (λ x. list_all is_whole_entry (spaces_in x.body)) (records_state records.now) }
{
    records
        .objects
        .iter()
        .all(|(_, object)| has_whole_entry(object))
}

/// Whether a container that avoids these kinds may list an id, which it may where nothing is
/// recorded.
fn may_list(records: &Records, avoid: TypeSet, id: ObjectId) -> bool
    ensures { result ≡ of_object true (may_hold avoid) (object_at (records_state records.now) id) }
{
    match records.objects.get(&id) {
        None => true,
        Some(object) => may_hold(avoid, object),
    }
}

fn lists_rightly(records: &Records, object: &Object) -> bool
    ensures { result ≡ lists_rightly (records_state records.now) object.now }
{
    match &object.body {
        Body::Container(avoid, list) => list
            .as_slice()
            .iter()
            .all(|listed| may_list(records, *avoid, *listed)),
        _ => true,
    }
}

/// Whether each container lists only what it may list.
pub fn list_rightly(records: &Records) -> bool
    ensures { result ≡ each (lists_rightly (records_state records.now)) (records_state records.now) }
{
    records
        .objects
        .iter()
        .all(|(_, object)| lists_rightly(records, object))
}

/// Whether the mappings of each object are such as calls make.
pub fn map_rightly(records: &Records) -> bool
    ensures { result ≡ each maps_rightly (records_state records.now) }
{
    records
        .objects
        .iter()
        .all(|(_, object)| maps_rightly(object))
}

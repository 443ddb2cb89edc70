//! Whether the state of a checkpoint's records is well formed.
ghost use Rattle.std.specs.Prelude.{◌≡◌, true, ◌&&◌, nat_le, nat_lt, is_some, IfOk};
ghost use Rattle.std.specs.List.{list_all};
ghost use Rattle.kernel_rules.specs.State.{object_at, listed, use_of};
ghost use Rattle.kernel_rules.specs.WellFormed.{ids_rise, is_well_formed, is_whole, are_given};
ghost use Rattle.kernel_rules.specs.WellFormed.{is_listed_rightly};
ghost use Rattle.plain_state.specs.Recorded.{records_state};
ghost use Rattle.plain_core.specs.Counted.{CountsListers, count_in};
ghost use Rattle.plain_core.specs.Keeping.{is_held};

use crate::restoring::counts::{count_listers, counted, is_listed_rightly};
use crate::restoring::tests_of_names::are_recorded;
use crate::restoring::tests_of_sizes::is_whole;
use base::{Meter, NoMemory, ObjectId};
use kernel_rules::{Body, Object};
use plain_state::{Records, used};
use std::alloc::Global;
use std::collections::BTreeMap;

fn lists_recorded(records: &Records, object: &Object) -> bool
    ensures { result ≡ list_all (λ i. is_some (object_at (records_state records.now) i)) (listed object.now.body) }
{
    match &object.body {
        Body::Container(_, list) => are_recorded(records, list.as_slice()),
        _ => true,
    }
}

/// Whether an object lists only recorded ids, uses at most its quota, stands in as many lists as it
/// has to, and is whole.
fn is_held(
    records: &Records,
    counts: &BTreeMap<ObjectId, u64>,
    id: ObjectId,
    object: &Object,
    meter: &mut Meter,
) -> bool
    ensures { result ≡ is_held (records_state records.now) (count_in counts.now id) id object.now }
{
    lists_recorded(records, object)
        && used(records, id) <= u128::from(object.quota)
        && is_listed_rightly(counted(counts, id), id, object)
        && is_whole(object, meter)
}

fn are_held(records: &Records, counts: &BTreeMap<ObjectId, u64>, meter: &mut Meter) -> bool
    ensures { result ≡ list_all (λ e. is_held (records_state records.now) (count_in counts.now e.0) e.0 e.1)
        (records_state records.now).objects }
{
    for (id, object) in records.objects.iter() {
        if !is_held(records, counts, *id, object, meter) {
            return false;
        }
    }
    true
}

fn are_given(records: &Records) -> bool
    ensures { result ≡ are_given (records_state records.now) }
{
    let next_id = records.next_id;
    for (id, _) in records.objects.iter() {
        if next_id <= id.number() {
            return false;
        }
    }
    true
}

fn is_formed(records: &Records, counts: &BTreeMap<ObjectId, u64>, meter: &mut Meter) -> bool
    ensures { result ≡ (nat_lt 3 records.now.next_id && are_given (records_state records.now)
        && list_all (λ e. is_held (records_state records.now) (count_in counts.now e.0) e.0 e.1)
        (records_state records.now).objects) }
{
    3 < records.next_id && are_given(records) && are_held(records, counts, meter)
}

/// Whether the state is well formed, of which ids rise. That each object is live needs no walk: what
/// a container lists has a smaller quota than the container, so lists can't lead round in a circle.
/// The error is want of memory.
pub fn is_well_formed(alloc: Global, records: &Records, meter: &mut Meter) -> Result<bool, NoMemory>
    requires { ids_rise (records_state records.now).objects ≡ true }
    ensures { IfOk result (λ formed. formed ≡ is_well_formed (records_state records.now)) }
{
    match count_listers(alloc, records)? {
        None => Ok(false),
        Some(counts) => Ok(is_formed(records, &counts, meter)),
    }
}

//! What objects use, added up from their records.
ghost use Rattle.std.specs.Prelude.{◌≡◌, ◌≤◌, ◌<◌, ◌+◌, ◌*◌, ◌^◌, length, sum_by, take};
ghost use Rattle.kernel_rules.specs.State.{quota_at, own_cost, use_of};
ghost use Rattle.plain_state.specs.Recorded.{records_state};

use crate::records::Records;
use base::ObjectId;
use kernel_rules::{Body, Object};

/// What an object may use, in pages of 256 bytes: 0 where it is not recorded.
pub fn quota(records: &Records, id: ObjectId) -> u32
    ensures { result ≡ quota_at (records_state records.now) id }
{
    match records.objects.get(&id) {
        None => 0,
        Some(object) => object.quota,
    }
}

/// How many of the first ids a walk over the records meets in this order, and their declared quotas together. A walk is
/// shorter than looking up most ids one by one.
fn walked(records: &Records, ids: &[ObjectId]) -> (usize, u128)
    ensures within { result.0 ≤ length ids.now }
    ensures sum { result.1 ≡ sum_by (quota_at (records_state records.now)) (take result.0 ids.now) }
    ensures small { result.1 ≤ 2 ^ 32 * result.0 }
{
    let mut met = 0;
    let mut total = 0u128;
    for (id, object) in records.objects.iter() {
        if met < ids.len() && ids[met] == *id {
            total += u128::from(object.quota);
            met += 1;
        }
    }
    (met, total)
}

/// The declared quotas of these together, and of what was added up before.
fn looked_up(records: &Records, before: u128, ids: &[ObjectId]) -> u128
    requires { before + 2 ^ 32 * length ids.now < 2 ^ 100 }
    ensures sum { result ≡ before + sum_by (quota_at (records_state records.now)) ids.now }
    ensures small { result ≤ before + 2 ^ 32 * length ids.now }
{
    let mut total = before;
    for id in ids {
        total += u128::from(quota(records, *id));
    }
    total
}

/// The declared quotas of these together.
fn quotas(records: &Records, ids: &[ObjectId]) -> u128
    ensures sum { result ≡ sum_by (quota_at (records_state records.now)) ids.now }
    ensures small { result ≤ 2 ^ 32 * length ids.now }
{
    if ids.len() < records.objects.len() / 8 {
        return looked_up(records, 0, ids);
    }
    let (met, total) = walked(records, ids);
    looked_up(records, total, &ids[met..])
}

/// What an object costs for itself, in pages of 256 bytes.
fn own_cost(object: &Object) -> u64
    ensures value { result ≡ own_cost object.now.body }
    ensures small { result < 2 ^ 63 }
{
    match &object.body {
        Body::Device(_) => 2,
        Body::Segment(bytes) => 1 + (bytes.as_slice().len() / 256) as u64,
        _ => 1,
    }
}

/// What an object uses, in pages of 256 bytes: its own cost and the quotas of what it lists. No record has to be well
/// formed.
pub fn used(records: &Records, id: ObjectId) -> u128
    ensures value { result ≡ use_of (records_state records.now) id }
    ensures small { result < 2 ^ 100 }
{
    match records.objects.get(&id) {
        None => 0,
        Some(object) => match &object.body {
            Body::Container(_, list) => 1 + quotas(records, list.as_slice()),
            _ => u128::from(own_cost(object)),
        },
    }
}

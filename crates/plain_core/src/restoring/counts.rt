//! How often ids stand in lists, in time near linear in the lists.
ghost use Rattle.std.specs.Prelude.{◌≡◌, ◌==◌, ℕ, true, false, IfOk, OnOk, IfSome, is_some, if◌then◌else◌};
ghost use Rattle.std.specs.List.{list_all};
ghost use Rattle.base.specs.Live.{has};
ghost use Rattle.kernel_rules.specs.State.{listed};
ghost use Rattle.kernel_rules.specs.WellFormed.{is_distinct, is_listed_rightly};
ghost use Rattle.plain_state.specs.Recorded.{records_state};
ghost use Rattle.plain_core.specs.Counted.{count_in, one_more, capped, CountsListers};
ghost use Rattle.checkpoints.specs.Restorable.{each};

use base::{NoMemory, ObjectId};
use kernel_rules::{Body, Object};
use plain_state::Records;
use std::alloc::Global;
use std::collections::{BTreeMap, BTreeSet};

/// Whether no id stands twice. The error is want of memory.
pub fn is_distinct(alloc: Global, ids: &[ObjectId]) -> Result<bool, NoMemory>
    ensures { IfOk result (λ distinct. distinct ≡ is_distinct ids.now) }
{
    let mut seen = BTreeSet::new(alloc);
    for id in ids {
        if !seen.insert(*id)? {
            return Ok(false);
        }
    }
    Ok(true)
}

/// What is counted at an id.
pub fn counted(counts: &BTreeMap<ObjectId, u64>, id: ObjectId) -> u64
    ensures { result ≡ count_in counts.now id }
{
    match counts.get(&id) {
        None => 0,
        Some(counted) => *counted,
    }
}

/// Counts one more of an id, up to two.
fn count(counts: &mut BTreeMap<ObjectId, u64>, id: ObjectId) -> Result<(), NoMemory>
    ensures { OnOk result ((q : ℕ) → count_in counts.new q
        ≡ (if q == id then one_more (count_in counts.old q) else count_in counts.old q)) }
{
    let before = counted(counts, id);
    if before < 2 {
        counts.insert(id, before + 1)?;
    }
    Ok(())
}

/// Counts one more of each id of a list in which none stands twice.
fn count_list(counts: &mut BTreeMap<ObjectId, u64>, ids: &[ObjectId]) -> Result<(), NoMemory>
    requires { is_distinct ids.now ≡ true }
    ensures { OnOk result ((q : ℕ) → count_in counts.new q
        ≡ (if has ids.now q then one_more (count_in counts.old q) else count_in counts.old q)) }
{
    for id in ids {
        count(counts, *id)?;
    }
    Ok(())
}

/// Counts one more of each id that an object lists, and tells whether none stands in its list twice.
fn count_listed(
    alloc: Global,
    counts: &mut BTreeMap<ObjectId, u64>,
    object: &Object,
) -> Result<bool, NoMemory>
    ensures distinct { IfOk result (λ distinct. distinct ≡ is_distinct (listed object.now.body)) }
    ensures counted { IfOk result (λ distinct. distinct ≡ true → (q : ℕ) → count_in counts.new q
        ≡ (if has (listed object.now.body) q then one_more (count_in counts.old q)
        else count_in counts.old q)) }
{
    if let Body::Container(_, list) = &object.body {
        let distinct = is_distinct(alloc, list.as_slice())?;
        if distinct {
            count_list(counts, list.as_slice())?;
        }
        Ok(distinct)
    } else {
        Ok(true)
    }
}

/// How many lists have each id, counted up to two; and nothing where an id stands in some list twice.
pub fn count_listers(
    alloc: Global,
    records: &Records,
) -> Result<Option<BTreeMap<ObjectId, u64>>, NoMemory>
    ensures counted { IfOk result (λ counts.
        IfSome counts (CountsListers (records_state records.now))) }
    ensures distinct { IfOk result (λ counts.
        is_some counts ≡ each (λ x. is_distinct (listed x.body)) (records_state records.now)) }
{
    let mut counts = BTreeMap::new(alloc);
    for (_, object) in records.objects.iter() {
        if !count_listed(alloc, &mut counts, object)? {
            return Ok(None);
        }
    }
    Ok(Some(counts))
}

/// Whether an object stands in as many lists as it has to, of which so many have it, counted up to
/// two: the root in none, any other container in one, any other object in one, or in more where its
/// quota is fixed.
pub fn is_listed_rightly(counted: u64, id: ObjectId, object: &Object) -> bool
    ensures { result ≡ is_listed_rightly counted id object.now }
{
    if id == ObjectId::root() {
        return counted == 0;
    }
    match &object.body {
        Body::Container(_, _) => counted == 1,
        _ => 1 <= counted && (counted <= 1 || object.fixed),
    }
}

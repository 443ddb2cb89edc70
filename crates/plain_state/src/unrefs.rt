//! An id that is taken out of a list, and the objects that are gone with it.
ghost use Rattle.std.specs.Prelude.{◌≡◌, ℕ, true, IfOk, OnOk, OnErr};
ghost use Rattle.std.specs.Ordering.{nat_cmp};
ghost use Rattle.std.specs.Map.{remove_entry};
ghost use Rattle.std.specs.BTreeMap.{is_at};
ghost use Rattle.kernel_rules.specs.Changes.{changed, delisting, without};
ghost use Rattle.kernel_rules.specs.State.{object_at};
ghost use Rattle.kernel_rules.specs.Step.{restricted};
ghost use Rattle.kernel_rules.specs.WellFormed.{ids_rise, is_well_formed};
ghost use Rattle.plain_state.specs.Settled.{is_listed, is_settled, Pruned};
ghost use Rattle.plain_state.specs.Recorded.{records_state};

use crate::link_reads::{has_listed, list_of};
use crate::records::Records;
use base::{NoMemory, ObjectId};
use kernel_rules::{Body, IdList, Object};
use std::alloc::Global;

/// Whether some object's list has an id.
fn is_listed(records: &Records, id: ObjectId) -> bool
    ensures { result ≡ is_listed (records_state records.now).objects id }
{
    for (_, object) in records.objects.iter() {
        if has_listed(object, id) {
            return true;
        }
    }
    false
}

fn remove(records: &mut Records, id: ObjectId) -> Option<Object>
    ensures state { records_state records.new ≡ record (records_state records.old) {
      objects = remove_entry (is_at (nat_cmp id)) (records_state records.old).objects;
    } }
    ensures object { result ≡ object_at (records_state records.old) id }
{
    records.objects.remove(&id)
}

/// Drops the record of an id that no list has, and then each one that its list alone had. Nothing is changed where the id
/// is the root's, or is in a list.
fn drop_unlisted(records: &mut Records, id: ObjectId)
    requires { ids_rise (records_state records.old).objects ≡ true }
    ensures pruned { Pruned (records_state records.old) (records_state records.new) }
    ensures settled { is_settled (records_state records.new).objects id ≡ true }
    ensures stay { (q : ℕ) → is_settled (records_state records.old).objects q ≡ true
        → is_settled (records_state records.new).objects q ≡ true }
{
    if id == ObjectId::root() || is_listed(records, id) {
        return;
    }
    if let Some(object) = remove(records, id) {
        for listed in list_of(&object) {
            drop_unlisted(records, *listed);
        }
    }
}

fn shortened(alloc: Global, ids: &[ObjectId], id: ObjectId) -> Result<IdList, NoMemory>
    ensures { IfOk result (λ list. list ≡ without id ids.now) }
{
    let mut list = IdList::new(alloc);
    for listed in ids {
        if id != *listed {
            list.push(*listed)?;
        }
    }
    Ok(list)
}

fn delist(object: &mut Object, alloc: Global, id: ObjectId) -> Result<(), NoMemory>
    ensures ok { OnOk result (object.new ≡ delisting id object.old) }
    ensures err { OnErr result (object.new ≡ object.old) }
{
    if let Body::Container(_, list) = &mut object.body {
        *list = shortened(alloc, list.as_slice(), id)?;
    }
    Ok(())
}

#[tactic(auto, using(std::proofs::lemmas::Map::Steps::set_value_same))]
fn delist_in(
    records: &mut Records,
    alloc: Global,
    container: ObjectId,
    id: ObjectId,
) -> Result<(), NoMemory>
    ensures ok { OnOk result
        (records_state records.new ≡ changed (records_state records.old) container (delisting id)) }
    ensures err { OnErr result (records_state records.new ≡ records_state records.old) }
{
    match records.objects.get_mut(&container) {
        None => Ok(()),
        Some(object) => delist(object, alloc, id),
    }
}

/// An id is taken out of a container's list, and what is not live then is gone: what no list has, since lists of records
/// that are well formed lead round in no circle. Without memory nothing is changed.
pub fn unref(
    records: &mut Records,
    alloc: Global,
    container: ObjectId,
    id: ObjectId,
) -> Result<(), NoMemory>
    requires { is_well_formed (records_state records.old) ≡ true }
    ensures ok { OnOk result (records_state records.new
        ≡ restricted (changed (records_state records.old) container (delisting id))) }
    ensures err { OnErr result (records_state records.new ≡ records_state records.old) }
{
    delist_in(records, alloc, container, id)?;
    drop_unlisted(records, id);
    Ok(())
}

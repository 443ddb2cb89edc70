//! Lists of ids without an id twice, and rising ones.
ghost use Rattle.std.specs.Prelude.{◌≡◌, ◌≤◌, ◌&&◌, ◌==◌, nat_lt, length, slice_index, OnOk};
ghost use Rattle.base.specs.Live.{has};
ghost use Rattle.flows.specs.Carriers.{added, all_added, placed, all_placed};
ghost use Rattle.flows.specs.Places.{place_in};
ghost use Rattle.kernel_rules.specs.Changes.{without};

use base::{NoMemory, ObjectId};

/// Whether an id stands in the list.
pub fn has(ids: &[ObjectId], id: ObjectId) -> bool
    ensures { result ≡ has ids.now id }
{
    for each in ids {
        if id == *each {
            return true;
        }
    }
    false
}

/// Adds an id at the end, unless it is there.
pub fn add(ids: &mut Vec<ObjectId>, id: ObjectId) -> Result<(), NoMemory>
    ensures { OnOk result (ids.new.items ≡ added ids.old.items id) }
{
    if !has(ids, id) {
        ids.push(id)?;
    }
    Ok(())
}

/// Adds ids at the end that are not there.
pub fn add_all(ids: &mut Vec<ObjectId>, more: &[ObjectId]) -> Result<(), NoMemory>
    ensures { OnOk result (ids.new.items ≡ all_added ids.old.items more.now) }
{
    for id in more {
        add(ids, *id)?;
    }
    Ok(())
}

/// Takes an id out.
pub fn drop_id(ids: &mut Vec<ObjectId>, id: ObjectId)
    ensures { ids.new.items ≡ without id ids.old.items }
{
    ids.retain(|each| id != *each);
}

// How many ids of a rising list come before an id.
fn place_of(ids: &[ObjectId], id: ObjectId) -> usize
    ensures place { result ≡ place_in id ids.now }
    ensures within { result ≤ length ids.now }
{
    for i in 0..ids.len() {
        if id <= ids[i] {
            return i;
        }
    }
    ids.len()
}

// Whether an id stands at a place.
fn is_at(ids: &[ObjectId], place: usize, id: ObjectId) -> bool
    ensures { result ≡ (nat_lt place (length ids.now) && slice_index ids.now place == id) }
{
    place < ids.len() && ids[place] == id
}

/// Puts an id in its place in a rising list, unless it is there.
pub fn put(ids: &mut Vec<ObjectId>, id: ObjectId) -> Result<(), NoMemory>
    ensures { OnOk result (ids.new.items ≡ placed id ids.old.items) }
{
    let place = place_of(ids, id);
    if is_at(ids, place, id) {
        return Ok(());
    }
    ids.insert(place, id)?;
    Ok(())
}

/// Puts ids in their places in a rising list.
pub fn put_all(ids: &mut Vec<ObjectId>, more: &[ObjectId]) -> Result<(), NoMemory>
    ensures { OnOk result (ids.new.items ≡ all_placed ids.old.items more.now) }
{
    for id in more {
        put(ids, *id)?;
    }
    Ok(())
}

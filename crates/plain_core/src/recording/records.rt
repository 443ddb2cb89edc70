//! All objects, and the records with them.
ghost use Rattle.std.specs.Prelude.{◌≡◌, IfOk, OnOk};
ghost use Rattle.std.specs.BTreeMap.{insert_entry};
ghost use Rattle.std.specs.Ordering.{nat_cmp};
ghost use Rattle.kernel_rules.specs.State.{object_at, of_object};
ghost use Rattle.plain_state.specs.Recorded.{records_state};

use crate::recording::objects::object;
use base::{Limits, Meter, NoMemory, ObjectId};
use kernel_rules::Object;
use kernel_store::Store;
use plain_state::Records;
use std::alloc::Global;
use std::collections::BTreeMap;

// Adds the object of an id, where there is one.
fn add_object<S: Store>(
    objects: &mut BTreeMap<ObjectId, Object>,
    alloc: Global,
    store: &S,
    id: ObjectId,
    meter: &mut Meter,
) -> Result<(), NoMemory>
    ensures { OnOk result (objects.new.entries
        ≡ of_object objects.old.entries (insert_entry nat_cmp objects.old.entries id) (object_at (S.state store.now) id)) }
{
    if let Some(object) = object(alloc, store, id, meter)? {
        objects.insert(id, object)?;
    }
    Ok(())
}

fn objects<S: Store>(
    alloc: Global,
    store: &S,
    meter: &mut Meter,
) -> Result<BTreeMap<ObjectId, Object>, NoMemory>
    ensures { IfOk result (λ objects. objects.entries ≡ (S.state store.now).objects) }
{
    let mut objects = BTreeMap::new(alloc);
    while let Some(id) = store.id_at(objects.len(), meter) {
        add_object(&mut objects, alloc, store, id, meter)?;
    }
    Ok(objects)
}

/// The records that a store's state is, which has these limits. The error is want of memory.
pub fn records_of<S: Store>(
    alloc: Global,
    limits: &Limits,
    store: &S,
    meter: &mut Meter,
) -> Result<Records, NoMemory>
    requires { (S.state store.now).limits ≡ limits.now }
    ensures { IfOk result (λ records. records_state records ≡ S.state store.now) }
{
    let objects = objects(alloc, store, meter)?;
    Ok(Records {
        limits: *limits,
        objects,
        next_id: store.next_id().number(),
        next_category: store.next_category(),
    })
}

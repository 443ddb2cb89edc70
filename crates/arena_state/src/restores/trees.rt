//! The tree of entries of a state, laid down anew.
ghost use Rattle.std.specs.Prelude.{◌≡◌, ℕ, ◌+◌, ◌≤◌, ◌*◌, ◌<◌, ◌^◌, ◌⊎◌, [], ◌∷◌, true, false, length, IfOk};
ghost use Rattle.std.specs.List.{list_all};
ghost use Rattle.base.specs.Live.{has, links};
ghost use Rattle.containers.specs.Objects.{Rises};
ghost use Rattle.containers.specs.Tree.{ids_in, link_count, list_of};
ghost use Rattle.kernel_rules.specs.State.{lists_of};
ghost use Rattle.kernel_rules.specs.WellFormed.{ids_rise, is_distinct};
ghost use Rattle.plain_state.specs.Recorded.{records_state};
ghost use Rattle.arena_state.specs.Restored.{bare, given, IsHoldable};

use base::{Meter, NoMemory, ObjectId};
use containers::{Containers, Draft};
use kernel_rules::{Body, Object};
use plain_state::Records;
use std::alloc::Global;
use std::collections::BTreeMap;

// The objects of a state, the root first, which list nothing yet.
fn lay_objects(
    alloc: Global,
    objects: &BTreeMap<ObjectId, Object>,
    pool: usize,
) -> Result<Draft<()>, NoMemory>
    requires some { 0 < pool }
    requires fits { 2 * pool + 2 < 2 ^ 64 }
    requires rise { ids_rise objects.now.entries ≡ true }
    requires root { (x : _) × (rest : _) × (objects.now.entries ≡ (1, x) ∷ rest) }
    requires few { length objects.now.entries ≤ pool }
    ensures lists { IfOk result (λ draft. draft.lists ≡ bare objects.now.entries) }
    ensures cells { IfOk result (λ draft. length draft.cells ≡ pool) }
{
    let mut draft = Draft::begin(alloc, pool, ())?;
    for (id, _object) in objects.iter() {
        if *id != ObjectId::root() {
            draft.add(*id, ());
        }
    }
    Ok(draft)
}

// What a container lists, which lists nothing yet.
fn link_all(draft: &mut Draft<()>, container: ObjectId, ids: &[ObjectId], meter: &mut Meter)
    requires rises { Rises (ids_in draft.old.lists) }
    requires container { has (ids_in draft.old.lists) container ≡ true }
    requires empty { list_of draft.old.lists container ≡ [] }
    requires reached { (container ≡ 1) ⊎ ((a : ℕ) × (links draft.old.lists a container ≡ true)) }
    requires there { list_all (has (ids_in draft.old.lists)) ids.now ≡ true }
    requires distinct { is_distinct ids.now ≡ true }
    requires no_root { has ids.now 1 ≡ false }
    requires room { link_count draft.old.lists + length ids.now ≤ length draft.old.cells }
    ensures lists { draft.new.lists ≡ given draft.old.lists container ids.now }
    ensures cells { length draft.new.cells ≡ length draft.old.cells }
{
    for id in ids {
        draft.link(container, *id, meter);
    }
}

// What each container lists, of objects that are laid down.
fn link_objects(draft: &mut Draft<()>, records: &Records, meter: &mut Meter)
    requires holdable { IsHoldable (records_state records.now) }
    requires laid { draft.old.lists ≡ bare records.now.objects.entries }
    requires cells { length draft.old.cells ≡ records.now.limits.pages }
    ensures lists { draft.new.lists ≡ lists_of records.now.objects.entries }
    ensures cells { length draft.new.cells ≡ length draft.old.cells }
{
    for (id, object) in records.objects.iter() {
        if let Body::Container(_, list) = &object.body {
            link_all(draft, *id, list.as_slice(), meter);
        }
    }
}

/// The tree of entries of a state, with as many cells as its limits have pages. The error is want of memory.
pub fn tree_of(
    alloc: Global,
    records: &Records,
    meter: &mut Meter,
) -> Result<Containers<()>, NoMemory>
    requires { IsHoldable (records_state records.now) }
    ensures lists { IfOk result (λ tree. tree.lists ≡ lists_of records.now.objects.entries) }
    ensures cells { IfOk result (λ tree. length tree.cells ≡ records.now.limits.pages) }
{
    let pool = records.limits.pages as usize;
    let mut draft = lay_objects(alloc, &records.objects, pool)?;
    link_objects(&mut draft, records, meter);
    Ok(draft.finish())
}

//! Containers, each call of which tests what it needs.
ghost use Rattle.std.specs.Prelude.{◌≡◌, ◌<◌, ◌+◌, ◌*◌, ◌%◌, ◌^◌, length, All, IsTrue};
ghost use Rattle.std.specs.Prelude.{true};
ghost use Rattle.base.specs.Live.{has};
ghost use Rattle.containers.specs.Tree.{ids_in, link_count};
ghost use Rattle.containers_twin.specs.Layers.{IsLayered};

use crate::hierarchy::{Hierarchy, is_container};
use base::{Meter, NoMemory, ObjectId, Slot};
use containers::{Containers, Visitor};
use std::alloc::Global;

/// Containers with a meter of their own. Who lists something has an odd id, and a container is listed by older ones
/// alone. The record of an object is the number of its id.
#[derive(Drop)]
pub struct Guarded {
    tree: Containers<u64>,
    meter: Meter,
    pool: usize,
    ghost pool_is: { length tree.cells ≡ pool },
    ghost layered: { IsLayered tree.lists },
}

// Whether a container may list an object: only what has an odd id lists something, and then only younger ones of these.
fn may_list(container: ObjectId, object: ObjectId) -> bool
    ensures { IsTrue result → (container % 2 ≡ 1) × (object % 2 ≡ 1 → container < object) }
{
    is_container(container) && (!is_container(object) || container.number() < object.number())
}

// Whether an id is that of an object that is there.
fn is_there(tree: &Containers<u64>, id: ObjectId, meter: &mut Meter) -> bool
    ensures { result ≡ has (ids_in tree.now.lists) id }
{
    match tree.find(id, meter) {
        Some(_) => true,
        None => false,
    }
}

// Whether an id is above all that are there.
fn is_above(tree: &Containers<u64>, id: ObjectId, meter: &mut Meter) -> bool
    ensures { IsTrue result → All (λ i. i < id) (ids_in tree.now.lists) }
{
    let len = tree.len();
    if len == 0 {
        return true;
    }
    tree.live(len - 1, meter).number() < id.number()
}

// Whether fewer links are there than the pool has.
fn has_room(tree: &Containers<u64>, pool: usize, meter: &mut Meter) -> bool
    ensures { IsTrue result → link_count tree.now.lists < pool }
{
    let mut left = pool;
    let len = tree.len();
    for place in 0..len {
        let id = tree.live(place, meter);
        let count = tree.entry_count(id, meter);
        if left <= count {
            return false;
        }
        left -= count;
    }
    0 < left
}

impl Guarded {
    /// The root alone, in a pool of so many objects and as many links. Only this takes memory.
    pub fn boot(alloc: Global, pool: usize) -> Result<Guarded, NoMemory>
        requires some { 0 < pool }
        requires fits { 2 * pool + 2 < 2 ^ 64 }
    {
        let meter = Meter::new(alloc)?;
        let tree = Containers::boot(alloc, pool, 1)?;
        Ok(Guarded { tree, meter, pool })
    }

    /// The slot of an id.
    pub fn slot(&mut self, id: ObjectId) -> Option<Slot> {
        self.tree.find(id, &mut self.meter)
    }

    /// The record of an id.
    pub fn record(&mut self, id: ObjectId) -> Option<u64> {
        match self.tree.find(id, &mut self.meter) {
            Some(slot) => Some(*self.tree.get(slot)),
            None => None,
        }
    }

    /// How many probes and scans were counted.
    pub fn meter(&self) -> &Meter {
        &self.meter
    }
}

impl Hierarchy for Guarded {
    fn create(&mut self, container: ObjectId, id: ObjectId) -> Result<bool, NoMemory> {
        if !is_container(container) || !is_there(&self.tree, container, &mut self.meter) {
            return Ok(false);
        }
        if !is_above(&self.tree, id, &mut self.meter) || self.tree.len() >= self.pool {
            return Ok(false);
        }
        if !has_room(&self.tree, self.pool, &mut self.meter) {
            return Ok(false);
        }
        let _slot = self
            .tree
            .create(container, id, id.number(), &mut self.meter);
        Ok(true)
    }

    fn link(&mut self, container: ObjectId, object: ObjectId) -> Result<bool, NoMemory> {
        if !may_list(container, object) || object == ObjectId::root() {
            return Ok(false);
        }
        if !is_there(&self.tree, container, &mut self.meter) {
            return Ok(false);
        }
        if !is_there(&self.tree, object, &mut self.meter) {
            return Ok(false);
        }
        if self.tree.is_listed(container, object, &mut self.meter) {
            return Ok(false);
        }
        if !has_room(&self.tree, self.pool, &mut self.meter) {
            return Ok(false);
        }
        self.tree.link(container, object, &mut self.meter);
        Ok(true)
    }

    fn unref<V: Visitor>(
        &mut self,
        container: ObjectId,
        object: ObjectId,
        visitor: &mut V,
    ) -> Result<bool, NoMemory> {
        if !self.tree.is_listed(container, object, &mut self.meter) {
            return Ok(false);
        }
        self.tree.unref(container, object, visitor, &mut self.meter);
        Ok(true)
    }

    fn parent(&mut self, object: ObjectId) -> Option<ObjectId> {
        if !is_there(&self.tree, object, &mut self.meter) {
            return None;
        }
        self.tree.parent(object, &mut self.meter)
    }

    fn entries(&mut self, id: ObjectId, from: usize, window: &mut [ObjectId]) -> Option<usize> {
        if !is_there(&self.tree, id, &mut self.meter) {
            return None;
        }
        Some(self.tree.entries(id, from, window, &mut self.meter))
    }

    fn count(&self) -> usize {
        self.tree.len()
    }

    fn live(&mut self, place: usize) -> Option<ObjectId> {
        if self.tree.len() <= place {
            return None;
        }
        Some(self.tree.live(place, &mut self.meter))
    }
}

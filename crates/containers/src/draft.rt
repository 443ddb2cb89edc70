//! Containers that are laid down: objects by rising ids, and links in any order in which a container is listed before it lists.
ghost use Rattle.std.specs.Prelude.{◌≡◌, ◌≢◌, ℕ, ◌+◌, ◌*◌, ◌^◌, ◌<◌, ◌++◌, ◌∷◌, [], ◌⊎◌};
ghost use Rattle.std.specs.Prelude.{length, true, false, Some, None, slice_set, All, IfOk};
ghost use Rattle.base.specs.Live.{has, links};

use crate::cells::{add_link, spare_rings};
use crate::entry_lists::Rings;
use crate::object_arena::Arena;
use crate::tree::Containers;
use base::{Meter, NoMemory, ObjectId, Slot};
use std::alloc::Global;
use std::marker::Model;

/// Containers before all links are there: an object may be listed by none. A contract sees what it sees of containers.
#[derive(Drop)]
pub struct Draft<T> {
    size: usize,
    root: usize,
    names: Vec<u64>,
    rings: Rings<2>,
    arena: Arena<T>,
    dead: Vec<ObjectId>,
}

impl<T> Model for Draft<T> {
    ghost use Rattle.containers.specs.Tree.{Tree, tree_code};

    ghost Value = { Tree T };

    ghost coded = { tree_code T.code };

    ghost use Rattle.std.specs.Prelude.{◌≡◌, ◌≤◌, [], length, vec_capacity};
    ghost use Rattle.containers.specs.View.{lists_of, IsDrafted};

    ghost view = { λ a. record {
      lists = lists_of a.rings a.names.items a.arena.ids a.arena.slots;
      slots = a.arena.slots;
      cells = a.arena.cells;
    } };

    ghost invariant = { λ a. IsDrafted a.size a.root a.rings a.names.items a.arena.ids a.arena.slots
        × (length a.arena.cells ≡ a.size)
        × (a.dead.items ≡ [])
        × (a.size ≤ vec_capacity a.dead) };
}

impl<T: Drop> Draft<T> {
    ghost use Rattle.containers.specs.Tree.{Tree, add_lists, ids_in, link_count};
    ghost use Rattle.containers.specs.Tree.{record_at, HasSlot, IsRoot};

    /// The root alone, as `Containers::boot` says. Only this takes memory; the error is want of it.
    pub fn begin(alloc: Global, pool: usize, root: T) -> Result<Self, NoMemory>
        requires some { 0 < pool }
        requires fits { 2 * pool + 2 < 2 ^ 64 }
        ensures { IfOk result (IsRoot pool root) }
    {
        let rings = spare_rings(alloc, pool)?;
        let names = vec![in alloc; 1; pool]?;
        let dead = Vec::with_capacity(alloc, pool)?;
        let mut arena = Arena::boot(alloc, pool)?;
        let slot = arena.insert(ObjectId::root(), root);
        Ok(Draft {
            size: pool,
            root: slot.0,
            names,
            rings,
            arena,
            dead,
        })
    }

    /// Adds an object under an id above all others, and tells its slot. It lists nothing, and nothing lists it. All else stays.
    pub fn add(&mut self, id: ObjectId, value: T) -> Slot
        requires rises { All (λ i. i < id) (ids_in self.old.lists) }
        requires slots { length (ids_in self.old.lists) < length self.old.cells }
        ensures lists { self.new.lists ≡ self.old.lists ++ (id, []) ∷ [] }
        ensures slots { self.new.slots ≡ self.old.slots ++ result.0 ∷ [] }
        ensures within { result.0 < length self.old.cells }
        ensures cells { self.new.cells ≡ slice_set self.old.cells result.0 (Some value) }
    {
        let slot = self.arena.insert(id, value);
        self.names[slot.0] = id.number();
        slot
    }

    /// Adds a link at the end of a container's list, which is the root's or is listed. All else stays.
    pub fn link(&mut self, container: ObjectId, object: ObjectId, meter: &mut Meter)
        requires container { has (ids_in self.old.lists) container ≡ true }
        requires object { has (ids_in self.old.lists) object ≡ true }
        requires reached { (container ≡ 1) ⊎ ((a : ℕ) × (links self.old.lists a container ≡ true)) }
        requires not_root { object ≢ 1 }
        requires fresh { links self.old.lists container object ≡ false }
        requires room { link_count self.old.lists < length self.old.cells }
        ensures linked { self.new
            ≡ record self.old { lists = add_lists self.old.lists container object } }
    {
        match self.arena.find(container, meter) {
            Some(d) => match self.arena.find(object, meter) {
                Some(o) => add_link(&mut self.rings, self.size, d.0, o.0, meter),
                None => unreachable!(),
            },
            None => unreachable!(),
        }
    }

    /// The containers that were laid down, in which each object but the root is listed.
    pub fn finish(self) -> Containers<T>
        requires { (i : ℕ) → has (ids_in self.lists) i ≡ true → i ≢ 1
            → (a : ℕ) × (links self.lists a i ≡ true) }
        ensures { result ≡ self }
    {
        let Draft {
            size,
            root,
            names,
            rings,
            arena,
            dead,
        } = self;
        Containers {
            size,
            root,
            names,
            rings,
            arena,
            dead,
        }
    }
}

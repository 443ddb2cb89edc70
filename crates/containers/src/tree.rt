//! Containers and what they list, by ids.
ghost use Rattle.std.specs.Prelude.{◌≡◌, ◌≢◌, ℕ, ◌+◌, ◌-◌, ◌*◌, ◌^◌, ◌<◌, ◌≤◌, ◌++◌, ◌∷◌, []};
ghost use Rattle.std.specs.Prelude.{length, min};
ghost use Rattle.std.specs.Prelude.{true, false, Some, None, slice_index, slice_set, All};
ghost use Rattle.std.specs.Prelude.{IfOk, IfSome, IfNone, IsSome};
ghost use Rattle.std.specs.Borrow.{sem};
ghost use Rattle.base.specs.Counts.{probed, ProbesAtMost};
ghost use Rattle.containers.specs.Objects.{binary_digits};
ghost use Rattle.base.specs.Live.{has, links};

use crate::cells::{Link, Pool, add_link, cut_link, find_link};
use crate::draft::Draft;
use crate::entry_lists::Rings;
use crate::object_arena::Arena;
use crate::visitor::{Located, Visitor};
use crate::windows::fill_window;
use base::{Meter, NoMemory, ObjectId, Slot};
use std::alloc::Global;
use std::marker::Model;

/// Objects under rising ids, each with a slot, a record, and the list of what it links. A contract sees the lists by
/// id, the slot of each id, and for each slot its record.
#[derive(Drop)]
pub struct Containers<T> {
    pub(crate) size: usize,
    pub(crate) root: usize,
    // Of each slot that has an object, the object's id.
    pub(crate) names: Vec<u64>,
    pub(crate) rings: Rings<2>,
    pub(crate) arena: Arena<T>,
    // The ids of what goes in one call, none between calls.
    pub(crate) dead: Vec<ObjectId>,
}

impl<T> Model for Containers<T> {
    ghost use Rattle.containers.specs.Tree.{Tree, tree_code};

    ghost Value = { Tree T };

    ghost coded = { tree_code T.code };

    ghost use Rattle.std.specs.Prelude.{◌≡◌, ◌≤◌, [], length, vec_capacity};
    ghost use Rattle.containers.specs.View.{lists_of, IsKept};

    ghost view = { λ a. record {
      lists = lists_of a.rings a.names.items a.arena.ids a.arena.slots;
      slots = a.arena.slots;
      cells = a.arena.cells;
    } };

    ghost invariant = { λ a. IsKept a.size a.root a.rings a.names.items a.arena.ids a.arena.slots
        × (length a.arena.cells ≡ a.size)
        × (a.dead.items ≡ [])
        × (a.size ≤ vec_capacity a.dead) };
}

impl<T: Drop> Containers<T> {
    ghost use Rattle.containers.specs.Tree.{Tree, add_lists, cut_lists, live_part, link_count};
    ghost use Rattle.containers.specs.Tree.{ids_in, list_of};
    ghost use Rattle.containers.specs.Tree.{record_at, HasSlot, IsRoot};
    ghost use Rattle.containers.specs.Lends.{lends_record};
    ghost use Rattle.containers.specs.WellFormed.{IsWellFormed};
    ghost use Rattle.containers.specs.Visits.{IsHanded, IsTold, IsLost};

    /// The root alone, under the id 1 and with this record, in a pool of so many slots and as many links. Only this takes
    /// memory; the error is want of it.
    pub fn boot(alloc: Global, pool: usize, root: T) -> Result<Self, NoMemory>
        requires some { 0 < pool }
        requires fits { 2 * pool + 2 < 2 ^ 64 }
        ensures { IfOk result (IsRoot pool root) }
    {
        Ok(Draft::begin(alloc, pool, root)?.finish())
    }

    /// How many objects there are.
    pub fn len(&self) -> usize
        ensures count { result ≡ length (ids_in self.now.lists) }
        ensures well_formed { IsWellFormed self.now }
    {
        self.arena.len()
    }

    /// Ids rise, each has a slot of its own with a record, each that is listed is there, none lists the root, and none
    /// lists an id twice. Nothing is done: a caller's proof has this from a call.
    pub fn well_formed(&self)
        ensures { IsWellFormed self.now }
    {
        // For the proof alone: what the type says of the value is known once it is read.
        let _count = self.len();
    }

    /// The id at a place among the live ids, from 0 to `len` - 1, in which ids rise. One probe.
    pub fn live(&self, place: usize, meter: &mut Meter) -> ObjectId
        requires { place < length (ids_in self.now.lists) }
        ensures value { result ≡ slice_index (ids_in self.now.lists) place }
        ensures counted { meter.new ≡ probed 1 meter.old }
    {
        self.arena.id_at(place, meter)
    }

    /// The slot of an id, none where no object has it. Adds at most as many probes as the pool has binary digits, plus one.
    pub fn find(&self, id: ObjectId, meter: &mut Meter) -> Option<Slot>
        ensures found { IfSome result (λ slot. HasSlot self.now id slot.0) }
        ensures there { IfSome result (λ slot. IsSome (record_at self.now slot.0)) }
        ensures absent { IfNone result (has (ids_in self.now.lists) id ≡ false) }
        ensures cost { ProbesAtMost (binary_digits
            (length self.now.cells) + 1) meter.old meter.new }
    {
        self.arena.find(id, meter)
    }

    /// The slot of an id by its hint; none where no hint is of it, though an object may have it. One probe.
    #[inline(always)]
    pub fn peek(&self, id: ObjectId, meter: &mut Meter) -> Option<Slot>
        ensures found { IfSome result (λ slot. HasSlot self.now id slot.0) }
        ensures there { IfSome result (λ slot. IsSome (record_at self.now slot.0)) }
        ensures counted { meter.new ≡ probed 1 meter.old }
    {
        self.arena.peek(id, meter)
    }

    /// The slots of three ids by their hints; none where no hint is of one of them. Three probes.
    #[inline(always)]
    pub fn peek_three(
        &self,
        one: ObjectId,
        two: ObjectId,
        three: ObjectId,
        meter: &mut Meter,
    ) -> Option<(Slot, Slot, Slot)>
        ensures one { IfSome result (λ slots. HasSlot self.now one slots.0.0) }
        ensures two { IfSome result (λ slots. HasSlot self.now two slots.1.0) }
        ensures three { IfSome result (λ slots. HasSlot self.now three slots.2.0) }
        ensures counted { meter.new ≡ probed 3 meter.old }
    {
        self.arena.peek_three(one, two, three, meter)
    }

    /// The record in a slot that has one.
    pub fn get(&self, slot: Slot) -> &T
        requires { IsSome (record_at self.now slot.0) }
        ensures { record_at self.now slot.0 ≡ Some result.now }
    {
        self.arena.get(slot)
    }

    /// The record in a slot that has one, for writing. All else stays.
    pub fn get_mut(&mut self, slot: Slot) -> &mut T
        requires { IsSome (record_at self.old slot.0) }
        ensures* writes_back { sem 𝓛 (lends_record T.row self.entry slot.0 result) }
        ensures value { record_at self.old slot.0 ≡ Some result.now }
    {
        self.arena.get_mut(slot)
    }

    /// The container that lists an object first of all that list it, none for the root, which none lists.
    pub fn parent(&self, object: ObjectId, meter: &mut Meter) -> Option<ObjectId>
        requires { has (ids_in self.now.lists) object ≡ true }
        ensures listed { IfSome result (λ container. links self.now.lists container object ≡ true) }
        ensures none { IfNone result ((a : ℕ) → links self.now.lists a object ≡ false) }
        ensures scans { meter.new.scans ≡ meter.old.scans }
    {
        match self.arena.find(object, meter) {
            Some(o) => match self.rings.first(1, o.0, meter) {
                Some(cell) => {
                    let container = self.rings.head_of(0, cell, meter);
                    Some(ObjectId::new(self.names[container]))
                }
                None => None,
            },
            None => unreachable!(),
        }
    }

    /// How many entries a container has.
    pub fn entry_count(&self, container: ObjectId, meter: &mut Meter) -> usize
        requires { has (ids_in self.now.lists) container ≡ true }
        ensures count { result ≡ length (list_of self.now.lists container) }
        ensures scans { meter.new.scans ≡ meter.old.scans }
    {
        match self.arena.find(container, meter) {
            Some(d) => self.rings.len(0, d.0, meter),
            None => unreachable!(),
        }
    }

    /// Writes the entries of a container from a place on, where 0 is the first, into a window, as far as both go, and tells
    /// how many that are. The rest of the window stays.
    pub fn entries(
        &self,
        container: ObjectId,
        from: usize,
        window: &mut [ObjectId],
        meter: &mut Meter,
    ) -> usize
        requires { has (ids_in self.now.lists) container ≡ true }
        ensures count { result ≡ min (length window.old)
            (length (list_of self.now.lists container) - from) }
        ensures listed { (k : ℕ) → k < result
            → slice_index window.new k ≡ slice_index (list_of self.now.lists container) (from + k) }
        ensures rest { (k : ℕ) → result ≤ k → slice_index window.new k ≡ slice_index window.old k }
        ensures scans { meter.new.scans ≡ meter.old.scans }
    {
        match self.arena.find(container, meter) {
            Some(d) => {
                let pool = Pool {
                    size: self.size,
                    root: self.root,
                    names: &self.names,
                };
                fill_window(&self.rings, pool, d.0, from, window, meter)
            }
            None => unreachable!(),
        }
    }

    /// Whether a container lists an object.
    pub fn is_listed(&self, container: ObjectId, object: ObjectId, meter: &mut Meter) -> bool
        ensures value { result ≡ links self.now.lists container object }
        ensures scans { meter.new.scans ≡ meter.old.scans }
    {
        match self.arena.find(container, meter) {
            Some(d) => match self.arena.find(object, meter) {
                Some(o) => find_link(&self.rings, self.size, d.0, o.0, meter).is_some(),
                None => false,
            },
            None => false,
        }
    }

    /// Whether a container lists an object, where both were found: no id is looked up.
    #[inline(always)]
    pub fn is_linked(&self, container: Located, object: Located, meter: &mut Meter) -> bool
        requires container { HasSlot self.now container.id container.slot.0 }
        requires object { HasSlot self.now object.id object.slot.0 }
        ensures value { result ≡ links self.now.lists container.id object.id }
        ensures scans { meter.new.scans ≡ meter.old.scans }
    {
        let (d, o) = (container.slot.0, object.slot.0);
        find_link(&self.rings, self.size, d, o, meter).is_some()
    }

    /// Adds an object with its first link, which stands at the end of a container's list, under an id above all others,
    /// and tells its slot. It lists nothing. All else stays.
    pub fn create(&mut self, container: ObjectId, id: ObjectId, value: T, meter: &mut Meter) -> Slot
        requires container { has (ids_in self.old.lists) container ≡ true }
        requires rises { All (λ i. i < id) (ids_in self.old.lists) }
        requires slots { length (ids_in self.old.lists) < length self.old.cells }
        requires room { link_count self.old.lists < length self.old.cells }
        ensures lists { self.new.lists ≡ add_lists self.old.lists container id ++ (id, []) ∷ [] }
        ensures slots { self.new.slots ≡ self.old.slots ++ result.0 ∷ [] }
        ensures within { result.0 < length self.old.cells }
        ensures vacant { record_at self.old result.0 ≡ None }
        ensures cells { self.new.cells ≡ slice_set self.old.cells result.0 (Some value) }
        ensures scans { meter.new.scans ≡ meter.old.scans }
    {
        match self.find(container, meter) {
            Some(slot) => {
                let found = Located {
                    id: container,
                    slot,
                };
                self.create_in(found, id, value, meter)
            }
            None => unreachable!(),
        }
    }

    /// Adds an object as `create` does, in a container that was found: no id is looked up. All else stays.
    pub fn create_in(
        &mut self,
        container: Located,
        id: ObjectId,
        value: T,
        meter: &mut Meter,
    ) -> Slot
        requires container { HasSlot self.old container.id container.slot.0 }
        requires rises { All (λ i. i < id) (ids_in self.old.lists) }
        requires slots { length (ids_in self.old.lists) < length self.old.cells }
        requires room { link_count self.old.lists < length self.old.cells }
        ensures lists { self.new.lists
            ≡ add_lists self.old.lists container.id id ++ (id, []) ∷ [] }
        ensures slots { self.new.slots ≡ self.old.slots ++ result.0 ∷ [] }
        ensures within { result.0 < length self.old.cells }
        ensures vacant { record_at self.old result.0 ≡ None }
        ensures cells { self.new.cells ≡ slice_set self.old.cells result.0 (Some value) }
        ensures scans { meter.new.scans ≡ meter.old.scans }
    {
        let slot = self.arena.insert(id, value);
        self.names[slot.0] = id.number();
        add_link(&mut self.rings, self.size, container.slot.0, slot.0, meter);
        slot
    }

    /// Adds a link at the end of a container's list. That it is a container, and an older one where the object is a
    /// container too, is the caller's to know. All else stays.
    pub fn link(&mut self, container: ObjectId, object: ObjectId, meter: &mut Meter)
        requires container { has (ids_in self.old.lists) container ≡ true }
        requires object { has (ids_in self.old.lists) object ≡ true }
        requires not_root { object ≢ 1 }
        requires fresh { links self.old.lists container object ≡ false }
        requires room { link_count self.old.lists < length self.old.cells }
        ensures linked { self.new
            ≡ record self.old { lists = add_lists self.old.lists container object } }
        ensures scans { meter.new.scans ≡ meter.old.scans }
    {
        match self.find(container, meter) {
            Some(d) => match self.find(object, meter) {
                Some(o) => {
                    let container = Located {
                        id: container,
                        slot: d,
                    };
                    let object = Located {
                        id: object,
                        slot: o,
                    };
                    self.link_found(container, object, meter)
                }
                None => unreachable!(),
            },
            None => unreachable!(),
        }
    }

    /// Adds a link as `link` does, where both were found: no id is looked up. All else stays.
    #[inline(always)]
    pub fn link_found(&mut self, container: Located, object: Located, meter: &mut Meter)
        requires container { HasSlot self.old container.id container.slot.0 }
        requires object { HasSlot self.old object.id object.slot.0 }
        requires not_root { object.id ≢ 1 }
        requires fresh { links self.old.lists container.id object.id ≡ false }
        requires room { link_count self.old.lists < length self.old.cells }
        ensures linked { self.new
            ≡ record self.old { lists = add_lists self.old.lists container.id object.id } }
        ensures scans { meter.new.scans ≡ meter.old.scans }
    {
        let (d, o) = (container.slot.0, object.slot.0);
        add_link(&mut self.rings, self.size, d, o, meter);
    }

    /// Takes a link out of a container's list, and then all objects to which no path of entries leads any more from the
    /// root, with their lists. The visitor is handed each link and each object that went, once. What is left keeps its
    /// slot, its record and the order of its entries.
    pub fn unref<V: Visitor>(
        &mut self,
        container: ObjectId,
        object: ObjectId,
        visitor: &mut V,
        meter: &mut Meter,
    )
        requires listed { links self.old.lists container object ≡ true }
        requires tree { (a b c : ℕ) → links self.old.lists a b ≡ true
            → links self.old.lists b c ≡ true
            → a < b }
        ensures lists { self.new.lists ≡ live_part (cut_lists self.old.lists container object) }
        ensures kept { (id slot : ℕ) → HasSlot self.new id slot
            → HasSlot self.old id slot × (record_at self.new slot ≡ record_at self.old slot) }
        ensures pool { length self.new.cells ≡ length self.old.cells }
        ensures handed { (went : _) × (dead : _) × IsHanded self.old self.new went dead
            × IsTold V.link_gives V.object_gives visitor.old visitor.new went dead
            × IsLost self.old self.new dead }
        ensures scans { meter.new.scans ≡ meter.old.scans }
    {
        // For the proof alone: what is listed is there.
        self.well_formed();
        match self.find(container, meter) {
            Some(d) => match self.find(object, meter) {
                Some(o) => {
                    let container = Located {
                        id: container,
                        slot: d,
                    };
                    let object = Located {
                        id: object,
                        slot: o,
                    };
                    let _was_listed = self.unref_found(container, object, visitor, meter);
                }
                None => unreachable!(),
            },
            None => unreachable!(),
        }
    }

    /// Takes a link out as `unref` does, where both were found and the container may list the object or not, and tells
    /// whether it did: where it did not, all stays and the visitor is handed nothing. No id is looked up, and the link is
    /// looked for once.
    pub fn unref_found<V: Visitor>(
        &mut self,
        container: Located,
        object: Located,
        visitor: &mut V,
        meter: &mut Meter,
    ) -> bool
        requires container { HasSlot self.old container.id container.slot.0 }
        requires object { HasSlot self.old object.id object.slot.0 }
        requires tree { (a b c : ℕ) → links self.old.lists a b ≡ true
            → links self.old.lists b c ≡ true
            → a < b }
        ensures told { result ≡ links self.old.lists container.id object.id }
        ensures none { result ≡ false → self.new ≡ self.old }
        ensures unseen { result ≡ false → visitor.new ≡ visitor.old }
        ensures lists { result ≡ true
            → self.new.lists ≡ live_part (cut_lists self.old.lists container.id object.id) }
        ensures kept { result ≡ true → (id slot : ℕ) → HasSlot self.new id slot
            → HasSlot self.old id slot × (record_at self.new slot ≡ record_at self.old slot) }
        ensures pool { length self.new.cells ≡ length self.old.cells }
        ensures handed { result ≡ true
            → (went : _) × (dead : _) × IsHanded self.old self.new went dead
            × IsTold V.link_gives V.object_gives visitor.old visitor.new went dead
            × IsLost self.old self.new dead }
        ensures scans { meter.new.scans ≡ meter.old.scans }
    {
        let (d, o) = (container.slot.0, object.slot.0);
        match find_link(&self.rings, self.size, d, o, meter) {
            Some(cell) => {
                let pool = Pool {
                    size: self.size,
                    root: self.root,
                    names: &self.names,
                };
                let link = Link {
                    container: d,
                    object: o,
                    cell,
                };
                cut_link(&mut self.rings, pool, link, &mut self.dead, visitor, meter);
                self.arena.remove_all(&self.dead, meter);
                self.dead.clear();
                true
            }
            None => false,
        }
    }
}

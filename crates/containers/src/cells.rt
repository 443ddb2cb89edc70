//! The cells of links, by slots.
ghost use Rattle.std.specs.Prelude.{◌≡◌, ◌≢◌, ℕ, ◌+◌, ◌*◌, ◌<◌, ◌^◌, [], ◌∷◌, length, IfOk};
ghost use Rattle.std.specs.Prelude.{◌≤◌, IfSome, IfNone, Some, sum_by, slice_get, vec_capacity};
ghost use Rattle.containers.specs.Lists.{family_at, cells_at};
ghost use Rattle.containers.specs.Cells.{Stands, IsShifted, IsFreed, IsDropped, IsPaired};
ghost use Rattle.containers.specs.Cells.{IsLink, Lists', IsSound, IsDying, IsAdded};
ghost use Rattle.containers.specs.Sweep.{IsSweeping, IsSwept, IsTree, IsSimple, IsCut};
ghost use Rattle.containers.specs.View.{spare_below};
ghost use Rattle.containers.specs.Visits.{IsTold, place_of, named, named_one, object_ids};

use crate::entry_lists::Rings;
use crate::visitor::{Located, Visitor};
use base::{Meter, NoMemory, ObjectId, Slot};
use std::alloc::Global;

/// The slots that links are between: how many there are, the root's, and of each the id of its object.
#[derive(Clone, Copy)]
pub struct Pool<'a> {
    pub size: usize,
    pub root: usize,
    pub names: &'a [u64],
}

/// A link, by the slots of its container and of its object, and by its cell.
#[derive(Clone, Copy)]
pub struct Link {
    pub container: usize,
    pub object: usize,
    pub cell: usize,
}

/// Rings in which each cell is spare.
pub fn spare_rings(alloc: Global, size: usize) -> Result<Rings<2>, NoMemory>
    requires { 2 * size + 2 < 2 ^ 64 }
    ensures { IfOk result (λ rings. rings ≡ spare_below size size) }
{
    let mut meter = Meter::new(alloc)?;
    let mut rings = Rings::new(alloc, &[size + 2, size + 2], size)?;
    for cell in 0..size {
        rings.push_back(0, size, cell, &mut meter);
        rings.push_back(1, size, cell, &mut meter);
    }
    Ok(rings)
}

// Takes a cell from its list of a family to the end of another.
#[inline(always)]
fn shift(rings: &mut Rings<2>, family: usize, to: usize, cell: usize, meter: &mut Meter)
    requires family { family < 2 }
    requires to { to < length (family_at rings.old family).lists }
    requires from { (head : ℕ) × (head ≢ to) × Stands rings.old family head cell }
    ensures shifted { IsShifted rings.old rings.new family to cell }
    ensures scans { meter.new.scans ≡ meter.old.scans }
{
    rings.shift(family, to, cell, meter);
}

// Makes a cell spare.
#[inline(always)]
fn free(rings: &mut Rings<2>, size: usize, cell: usize, meter: &mut Meter)
    requires paired { IsPaired size rings.old }
    requires holder { (head : ℕ) × (head ≢ size) × Stands rings.old 0 head cell }
    ensures freed { IsFreed size rings.old rings.new cell }
    ensures scans { meter.new.scans ≡ meter.old.scans }
{
    shift(rings, 0, size, cell, meter);
    shift(rings, 1, size, cell, meter);
}

// Takes a link out of its container. The last link to a slot is kept among the dying.
#[inline(always)]
fn drop_link(rings: &mut Rings<2>, size: usize, object: usize, cell: usize, meter: &mut Meter)
    requires fits { size + 2 < 2 ^ 64 }
    requires paired { IsPaired size rings.old }
    requires object { object < size }
    requires holder { (head : ℕ) × (head < size) × Stands rings.old 0 head cell }
    requires names { Stands rings.old 1 object cell }
    ensures dropped { IsDropped size rings.old rings.new object cell }
    ensures scans { meter.new.scans ≡ meter.old.scans }
{
    if rings.len(1, object, meter) == 1 {
        shift(rings, 0, size + 1, cell, meter);
    } else {
        free(rings, size, cell, meter);
    }
}

// The place of a slot under its name.
fn place(names: &[u64], slot: usize) -> Located
    requires { slot < length names.now }
    ensures { result ≡ place_of names.now slot }
{
    Located {
        id: ObjectId::new(names[slot]),
        slot: Slot(slot),
    }
}

// Hands a link over, by the names of its slots.
fn hand_link<V: Visitor>(visitor: &mut V, names: &[u64], container: usize, object: usize)
    requires container { container < length names.now }
    requires object { object < length names.now }
    ensures { V.link_gives visitor.old
        (place_of names.now container) (place_of names.now object) visitor.new }
{
    visitor.link(place(names, container), place(names, object));
}

// Takes out what the dying slots list, and then these slots, until none is dying. Lists the ids of these.
fn sweep<V: Visitor>(
    rings: &mut Rings<2>,
    pool: Pool,
    dead: &mut Vec<ObjectId>,
    visitor: &mut V,
    meter: &mut Meter,
)
    ghost rank: { ℕ → ℕ }
    requires fits { pool.size + 2 < 2 ^ 64 }
    requires names { length pool.names.now ≡ pool.size }
    requires sweeping { IsSweeping pool.size pool.root rings.old rings.old [] [] }
    requires tree { IsTree pool.size rings.old rank }
    requires simple { IsSimple pool.size rings.old }
    requires full { sum_by length (family_at rings.old 0).lists ≡ pool.size }
    requires none { dead.old.items ≡ [] }
    requires room { pool.size ≤ vec_capacity dead.old }
    ensures swept { (links : _) × (objects : _)
        × IsSwept pool.entry.size pool.entry.root rings.old rings.new links objects
        × IsTold V.link_gives V.object_gives visitor.old visitor.new
        (named pool.entry.names.now links) (named_one pool.entry.names.now objects)
        × (dead.new.items ≡ object_ids (named_one pool.entry.names.now objects)) }
    ensures room { vec_capacity dead.new ≡ vec_capacity dead.old }
    ensures scans { meter.new.scans ≡ meter.old.scans }
{
    // The root is for the proof alone: the loop's invariant names it.
    let Pool {
        size,
        root: _root,
        names,
    } = pool;
    while let Some(last) = rings.first(0, size + 1, meter) {
        let object = rings.head_of(1, last, meter);
        match rings.first(0, object, meter) {
            Some(cell) => {
                let entry = rings.head_of(1, cell, meter);
                drop_link(rings, size, entry, cell, meter);
                hand_link(visitor, names, object, entry);
            }
            None => {
                free(rings, size, last, meter);
                let gone = place(names, object);
                dead.push_reserved(gone.id);
                visitor.object(gone, meter);
            }
        }
    }
}

// This cell of a link to an object, where the link is this container's.
#[inline(always)]
fn if_held(
    rings: &Rings<2>,
    size: usize,
    container: usize,
    object: usize,
    cell: Option<usize>,
    meter: &mut Meter,
) -> Option<usize>
    requires paired { IsPaired size rings.now }
    requires container { container < size }
    requires object { object < size }
    requires names { IfSome cell (Stands rings.now 1 object) }
    ensures found { IfSome result (λ c. IsLink size rings.now container object c) }
    ensures another { IfNone result ((c : ℕ) → IsLink size rings.now container object c
        → cell ≢ Some c) }
    ensures scans { meter.new.scans ≡ meter.old.scans }
{
    match cell {
        Some(cell) => {
            let holder = rings.head_of(0, cell, meter);
            if holder == container {
                Some(cell)
            } else {
                None
            }
        }
        None => None,
    }
}

// The cell by which a container lists an object, if it does, by a walk over the links to the object, which are few where
// the container's entries may be many.
#[inline(never)]
fn walked_link(
    rings: &Rings<2>,
    size: usize,
    container: usize,
    object: usize,
    meter: &mut Meter,
) -> Option<usize>
    requires paired { IsPaired size rings.now }
    requires container { container < size }
    requires object { object < size }
    ensures found { IfSome result (λ c. IsLink size rings.now container object c) }
    ensures absent { IfNone result (Lists' size rings.now container object → ⊥) }
    ensures scans { meter.new.scans ≡ meter.old.scans }
{
    let len = rings.len(1, object, meter);
    let mut next = rings.first(1, object, meter);
    for _ in 0..len {
        match next {
            Some(cell) => {
                if rings.head_of(0, cell, meter) == container {
                    return Some(cell);
                }
                next = rings.next(1, cell, meter);
            }
            None => unreachable!(),
        }
    }
    None
}

// The cell by which a container lists an object, if it does, where the first link to the object is not the container's.
fn later_link(
    rings: &Rings<2>,
    size: usize,
    container: usize,
    object: usize,
    meter: &mut Meter,
) -> Option<usize>
    requires paired { IsPaired size rings.now }
    requires container { container < size }
    requires object { object < size }
    requires later { (c : ℕ) → IsLink size rings.now container object c
        → slice_get (cells_at rings.now 1 object) 0 ≢ Some c }
    ensures found { IfSome result (λ c. IsLink size rings.now container object c) }
    ensures absent { IfNone result (Lists' size rings.now container object → ⊥) }
    ensures scans { meter.new.scans ≡ meter.old.scans }
{
    if rings.len(1, object, meter) < 2 {
        return None;
    }
    let last = rings.last(1, object, meter);
    let held = if_held(rings, size, container, object, last, meter);
    if let Some(cell) = held {
        return Some(cell);
    }
    walked_link(rings, size, container, object, meter)
}

/// The cell by which a container lists an object, if it does. Most objects have one link, and most links that go are an
/// object's first or its last, so these are looked at before the walk over all.
#[inline(always)]
pub fn find_link(
    rings: &Rings<2>,
    size: usize,
    container: usize,
    object: usize,
    meter: &mut Meter,
) -> Option<usize>
    requires paired { IsPaired size rings.now }
    requires container { container < size }
    requires object { object < size }
    ensures found { IfSome result (λ c. IsLink size rings.now container object c) }
    ensures absent { IfNone result (Lists' size rings.now container object → ⊥) }
    ensures scans { meter.new.scans ≡ meter.old.scans }
{
    let first = rings.first(1, object, meter);
    match if_held(rings, size, container, object, first, meter) {
        Some(cell) => Some(cell),
        None => later_link(rings, size, container, object, meter),
    }
}

/// Makes a spare cell a link, the last of the container's entries.
#[inline(always)]
pub fn add_link(
    rings: &mut Rings<2>,
    size: usize,
    container: usize,
    object: usize,
    meter: &mut Meter,
)
    requires paired { IsPaired size rings.old }
    requires container { container < size }
    requires object { object < size }
    requires spare { (cell : ℕ) × Stands rings.old 0 size cell }
    ensures added { IsAdded size rings.old rings.new container object }
    ensures scans { meter.new.scans ≡ meter.old.scans }
{
    match rings.first(0, size, meter) {
        Some(cell) => {
            shift(rings, 0, container, cell, meter);
            shift(rings, 1, object, cell, meter);
        }
        None => unreachable!(),
    }
}

/// Takes a link out of its container, by its cell, and then all that no path leads to any more, whose ids it lists.
pub fn cut_link<V: Visitor>(
    rings: &mut Rings<2>,
    pool: Pool,
    link: Link,
    dead: &mut Vec<ObjectId>,
    visitor: &mut V,
    meter: &mut Meter,
)
    ghost rank: { ℕ → ℕ }
    requires fits { pool.size + 2 < 2 ^ 64 }
    requires names { length pool.names.now ≡ pool.size }
    requires sound { IsSound pool.size pool.root rings.old }
    requires calm { (o : ℕ) → IsDying pool.size rings.old o → ⊥ }
    requires tree { IsTree pool.size rings.old rank }
    requires simple { IsSimple pool.size rings.old }
    requires full { sum_by length (family_at rings.old 0).lists ≡ pool.size }
    requires link { IsLink pool.size rings.old link.container link.object link.cell }
    requires none { dead.old.items ≡ [] }
    requires room { pool.size ≤ vec_capacity dead.old }
    ensures cut { (links : _) × (objects : _)
        × IsCut pool.entry.size pool.entry.root rings.old rings.new link.container link.object links objects
        × IsTold V.link_gives V.object_gives visitor.old visitor.new
        (named pool.entry.names.now ((link.container, link.object) ∷ links))
        (named_one pool.entry.names.now objects)
        × (dead.new.items ≡ object_ids (named_one pool.entry.names.now objects)) }
    ensures room { vec_capacity dead.new ≡ vec_capacity dead.old }
    ensures scans { meter.new.scans ≡ meter.old.scans }
{
    drop_link(rings, pool.size, link.object, link.cell, meter);
    hand_link(visitor, pool.names, link.container, link.object);
    sweep(rings, pool, dead, visitor, meter);
}

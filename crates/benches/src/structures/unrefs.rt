//! Taking out a subtree.

use super::sizes::{MOST, print_beside_map};
use crate::timing::nanos_since;
use anyhow::Result;
use base::{Meter, ObjectId};
use containers::{Located, Visitor};
use containers_twin::{Guarded, Hierarchy};
use std::alloc::Global;
use std::collections::BTreeMap;
use std::rt::Clock;
use std::time::Instant;

/// Counts what it is handed.
#[derive(Drop)]
pub struct Count {
    pub links: u64,
    pub objects: u64,
}

impl Visitor for Count {
    ghost link_gives = { λ _ _ _ _. Unit {0} };

    ghost object_gives = { λ _ _ _. Unit {0} };

    fn link(&mut self, _container: Located, _object: Located) {
        self.links = self.links.wrapping_add(1);
    }

    fn object(&mut self, _object: Located, _meter: &mut Meter) {
        self.objects = self.objects.wrapping_add(1);
    }
}

// Of each id what it lists, and how many list it.
#[derive(Drop)]
struct Maps {
    lists: BTreeMap<u64, Vec<u64>>,
    listed: BTreeMap<u64, u32>,
}

impl Maps {
    // The root, which lists nothing.
    fn new(alloc: Global) -> Result<Maps> {
        let mut lists = BTreeMap::new(alloc);
        lists.insert(1, Vec::new(alloc))?;
        Ok(Maps {
            lists,
            listed: BTreeMap::new(alloc),
        })
    }

    fn create(&mut self, alloc: Global, container: u64, id: u64) -> Result<()> {
        self.lists.insert(id, Vec::new(alloc))?;
        self.listed.insert(id, 1)?;
        if let Some(list) = self.lists.get_mut(&container) {
            list.push(id)?;
        }
        Ok(())
    }

    // One link less to an id, which waits to go where none is left.
    fn drop_link(&mut self, id: u64, waiting: &mut Vec<u64>) -> Result<()> {
        if let Some(count) = self.listed.get_mut(&id) {
            *count = count.saturating_sub(1);
            if *count == 0 {
                waiting.push(id)?;
            }
        }
        Ok(())
    }

    fn unref(&mut self, alloc: Global, container: u64, id: u64, seen: &mut Count) -> Result<()> {
        if let Some(list) = self.lists.get_mut(&container) {
            if let Some(place) = list.iter().position(|other| *other == id) {
                let _id = list.remove(place);
                seen.links = seen.links.wrapping_add(1);
            }
        }
        let mut waiting = Vec::new(alloc);
        self.drop_link(id, &mut waiting)?;
        for _ in 0..u64::MAX {
            let Some(dead) = waiting.pop() else {
                break;
            };
            let _count = self.listed.remove(&dead);
            if let Some(list) = self.lists.remove(&dead) {
                for child in &list {
                    seen.links = seen.links.wrapping_add(1);
                    self.drop_link(*child, &mut waiting)?;
                }
            }
            seen.objects = seen.objects.wrapping_add(1);
        }
        Ok(())
    }
}

// The id of the one at a place of a subtree, whose ids follow on a number; the root where there is none.
fn id_at(base: u64, place: usize) -> u64 {
    base.saturating_add((place as u64).saturating_mul(2))
}

// What the rounds so far took, in nanoseconds, what the containers read, and what went from both.
#[derive(Drop)]
struct Spent {
    ours: u64,
    theirs: u64,
    probes: u64,
    seen: Count,
    seen_there: Count,
}

/// Nothing was handed yet.
pub fn no_count() -> Count {
    Count {
        links: 0,
        objects: 0,
    }
}

fn nothing_spent() -> Spent {
    Spent {
        ours: 0,
        theirs: 0,
        probes: 0,
        seen: no_count(),
        seen_there: no_count(),
    }
}

// The container of the one at a place: each lists up to eight.
fn container_at(base: u64, place: usize) -> u64 {
    if place == 0 {
        1
    } else {
        id_at(base, (place - 1) / 8)
    }
}

// Makes a subtree of so many containers, from an id on, in both.
fn grow(alloc: Global, tree: &mut Guarded, maps: &mut Maps, base: u64, size: usize) -> Result<()> {
    for place in 0..size {
        let (container, id) = (container_at(base, place), id_at(base, place));
        tree.create(ObjectId::new(container), ObjectId::new(id))?;
        maps.create(alloc, container, id)?;
    }
    Ok(())
}

// Takes a subtree out of both.
fn cut(
    rt: &impl Clock,
    alloc: Global,
    tree: &mut Guarded,
    maps: &mut Maps,
    base: u64,
    spent: &mut Spent,
) -> Result<()> {
    let before = tree.meter().probes();
    let start = Instant::now(rt)?;
    tree.unref(ObjectId::root(), ObjectId::new(base), &mut spent.seen)?;
    spent.ours = spent.ours.saturating_add(nanos_since(rt, start)?);
    let probes = tree.meter().probes().saturating_sub(before);
    spent.probes = spent.probes.saturating_add(probes);
    let start = Instant::now(rt)?;
    maps.unref(alloc, 1, base, &mut spent.seen_there)?;
    spent.theirs = spent.theirs.saturating_add(nanos_since(rt, start)?);
    Ok(())
}

// Makes a subtree of so many containers and takes it out again, round after round.
fn grow_and_cut(
    rt: &impl Clock,
    alloc: Global,
    tree: &mut Guarded,
    maps: &mut Maps,
    (size, rounds): (usize, usize),
) -> Result<Spent> {
    let mut spent = nothing_spent();
    let mut base = 3u64;
    for _ in 0..rounds {
        grow(alloc, tree, maps, base, size)?;
        cut(rt, alloc, tree, maps, base, &mut spent)?;
        base = id_at(base, size);
    }
    Ok(spent)
}

fn print_spent(rt: &impl Print, alloc: Global, size: usize, spent: &Spent) -> Result<()> {
    let (links, objects) = (spent.seen.links, spent.seen.objects);
    let (links_there, objects_there) = (spent.seen_there.links, spent.seen_there.objects);
    let each = spent.probes / objects.max(1);
    println!(rt; "went {objects} of {links} and {objects_there} of {links_there}, probes {each}")?;
    let (ours, theirs) = (spent.ours, spent.theirs);
    print_beside_map(
        rt,
        alloc,
        "unref, an object of",
        size,
        objects,
        ours,
        theirs,
    )
}

// Grows and cuts, and prints what both took.
fn time_unrefs(
    rt: &(impl Clock + Print),
    alloc: Global,
    tree: &mut Guarded,
    maps: &mut Maps,
    (size, rounds): (usize, usize),
) -> Result<()> {
    let spent = grow_and_cut(rt, alloc, tree, maps, (size, rounds))?;
    print_spent(rt, alloc, size, &spent)
}

/// Makes a subtree of so many containers, each with up to eight entries, and takes it out again, round after round, in
/// containers and in maps that keep a list and a count for each id. Only the taking out is timed.
pub fn unref(
    rt: &(impl Clock + Print),
    alloc: Global,
    objects: usize,
    rounds: usize,
) -> Result<()> {
    let size = objects.clamp(1, MOST);
    let mut maps = Maps::new(alloc)?;
    let mut tree = Guarded::boot(alloc, size.saturating_add(1))?;
    time_unrefs(rt, alloc, &mut tree, &mut maps, (size, rounds))
}

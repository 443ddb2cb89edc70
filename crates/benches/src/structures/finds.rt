//! Finding an id.

use super::sizes::{MOST, print_beside_map};
use crate::timing::nanos_since;
use anyhow::Result;
use base::ObjectId;
use containers_twin::{Guarded, Hierarchy};
use std::alloc::Global;
use std::collections::BTreeMap;
use std::rt::Clock;
use std::time::Instant;

// The number at a place: that of the root, and even ones.
fn number_at(place: usize) -> u64 {
    if place == 0 {
        1
    } else {
        (place as u64).saturating_mul(2)
    }
}

// The place that comes next to be asked for: an order with no pattern that a cache could follow.
fn mixed(place: usize, size: usize) -> usize {
    place.wrapping_mul(769) % size.max(1)
}

// Puts so many ids into containers and a map.
fn fill(tree: &mut Guarded, map: &mut BTreeMap<u64, usize>, size: usize) -> Result<()> {
    map.insert(1, 0usize)?;
    for place in 1..size {
        let number = number_at(place);
        tree.create(ObjectId::root(), ObjectId::new(number))?;
        map.insert(number, place)?;
    }
    Ok(())
}

// How many of these ids containers find.
fn find_all(tree: &mut Guarded, size: usize) -> u64 {
    let mut found = 0u64;
    for place in 0..size {
        let id = ObjectId::new(number_at(mixed(place, size)));
        if tree.slot(id).is_some() {
            found = found.wrapping_add(1);
        }
    }
    found
}

// How many of these ids a map finds.
fn find_all_there(map: &BTreeMap<u64, usize>, size: usize) -> u64 {
    let mut found = 0u64;
    for place in 0..size {
        if map.get(&number_at(mixed(place, size))).is_some() {
            found = found.wrapping_add(1);
        }
    }
    found
}

// Finds them all, round after round, and prints what both took.
fn time_finds(
    rt: &(impl Clock + Print),
    alloc: Global,
    tree: &mut Guarded,
    map: &mut BTreeMap<u64, usize>,
    (size, rounds): (usize, usize),
) -> Result<()> {
    fill(tree, map, size)?;
    let (mut found, mut found_there) = (0u64, 0u64);
    let start = Instant::now(rt)?;
    for _ in 0..rounds {
        found = found.wrapping_add(find_all(tree, size));
    }
    let ours = nanos_since(rt, start)?;
    let start = Instant::now(rt)?;
    for _ in 0..rounds {
        found_there = found_there.wrapping_add(find_all_there(map, size));
    }
    let theirs = nanos_since(rt, start)?;
    println!(rt; "found {found} and {found_there}")?;
    print_beside_map(rt, alloc, "find", size, found, ours, theirs)
}

/// Finds each of so many ids, round after round, in containers and in a `BTreeMap`.
pub fn find(rt: &(impl Clock + Print), alloc: Global, objects: usize, rounds: usize) -> Result<()> {
    let size = objects.clamp(1, MOST);
    let mut map = BTreeMap::new(alloc);
    let mut tree = Guarded::boot(alloc, size)?;
    time_finds(rt, alloc, &mut tree, &mut map, (size, rounds))
}

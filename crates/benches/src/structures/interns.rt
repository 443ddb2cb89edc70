//! Storing a label.

use super::pool::{Pool, label_of};
use super::sizes::{MOST, print_beside_map};
use crate::timing::nanos_since;
use anyhow::Result;
use base::{Meter, NoMemory};
use label_lattice::Label;
use std::alloc::Global;
use std::collections::BTreeMap;
use std::rt::Clock;
use std::time::Instant;

// The words of a label, as a map's key has them: the default, and of each pair the category and the level.
type Key = [u64; 33];

fn key_of(category: usize) -> Key {
    let mut key = [0; 33];
    key[0] = 1;
    key[1] = (category as u64).saturating_add(1);
    key[2] = 3;
    key
}

// Of each stored label its index and its owners, and of each two indexes how their labels compare.
#[derive(Drop)]
struct Stored {
    map: BTreeMap<Key, Held>,
    order: BTreeMap<(u16, u16), u8>,
}

#[derive(Clone, Copy)]
struct Held {
    index: u16,
    owners: u32,
    label: Label,
}

// The three bits of one label against another, by the same three tests as those of the pool.
fn bits(a: &Label, b: &Label, meter: &mut Meter) -> u8 {
    let one = u8::from(a.leq(b, meter));
    let two = u8::from(a.leq_up(b, meter));
    let four = u8::from(a.leq_up_up(b, meter));
    one.wrapping_add(two.wrapping_mul(2))
        .wrapping_add(four.wrapping_mul(4))
}

impl Stored {
    fn intern(&mut self, key: &Key, label: &Label, free: u16, meter: &mut Meter) -> Result<u16> {
        if let Some(held) = self.map.get_mut(key) {
            held.owners = held.owners.saturating_add(1);
            return Ok(held.index);
        }
        self.order.insert((free, free), bits(label, label, meter))?;
        for held in self.map.values() {
            let other = &held.label;
            self.order
                .insert((free, held.index), bits(label, other, meter))?;
            self.order
                .insert((held.index, free), bits(other, label, meter))?;
        }
        let held = Held {
            index: free,
            owners: 1,
            label: *label,
        };
        self.map.insert(*key, held)?;
        Ok(free)
    }

    fn release(&mut self, key: &Key) {
        let mut is_last = false;
        if let Some(held) = self.map.get_mut(key) {
            held.owners = held.owners.saturating_sub(1);
            is_last = held.owners == 0;
        }
        if is_last {
            let _held = self.map.remove(key);
        }
    }
}

// A label that is there or not, stored and released so many times.
fn intern_one(
    rt: &(impl Clock + Print),
    alloc: Global,
    what: &str,
    stored: usize,
    rounds: usize,
    one: (&mut Pool, &mut Stored, &mut Meter),
    other: (&Label, &Key),
) -> Result<()> {
    let (pool, map, meter) = one;
    let (label, key) = other;
    let start = Instant::now(rt)?;
    for _ in 0..rounds {
        if let Some(at) = pool.intern(label, meter) {
            pool.release(at);
        }
    }
    let ours = nanos_since(rt, start)?;
    let start = Instant::now(rt)?;
    let mut sum = 0u64;
    for _ in 0..rounds {
        sum = sum.wrapping_add(u64::from(map.intern(key, label, MOST as u16, meter)?));
        map.release(key);
    }
    let theirs = nanos_since(rt, start)?;
    println!(rt; "sum of indexes {sum}")?;
    print_beside_map(rt, alloc, what, stored, rounds as u64, ours, theirs)
}

// Stores so many labels in both.
fn fill(pool: &mut Pool, map: &mut Stored, meter: &mut Meter, stored: usize) -> Result<()> {
    for category in 0..stored {
        if let Some(label) = label_of(category, meter) {
            let _at = pool.intern(&label, meter);
            let number = u16::try_from(category).unwrap_or(u16::MAX);
            map.intern(&key_of(category), &label, number, meter)?;
        }
    }
    Ok(())
}

// Stores a label that is stored, the middle one, and a new one, round after round.
fn time_interns(
    rt: &(impl Clock + Print),
    alloc: Global,
    (stored, rounds): (usize, usize),
    (pool, map, meter): (&mut Pool, &mut Stored, &mut Meter),
) -> Result<()> {
    fill(pool, map, meter, stored)?;
    for (what, category) in [
        ("intern, stored, at", stored / 2),
        ("intern, new, at", stored),
    ] {
        let label = label_of(category, meter).ok_or(NoMemory)?;
        let key = key_of(category);
        let both = (&mut *pool, &mut *map, &mut *meter);
        intern_one(rt, alloc, what, stored, rounds, both, (&label, &key))?;
    }
    Ok(())
}

/// Stores a label that is stored, the middle one, and a new one, each released again, beside so many stored labels, in a
/// pool and in `BTreeMap`s. Both keep how a new label compares with each stored one.
pub fn intern(
    rt: &(impl Clock + Print),
    alloc: Global,
    labels: usize,
    rounds: usize,
) -> Result<()> {
    let stored = labels.clamp(1, MOST);
    let mut meter = Meter::new(alloc)?;
    let mut map = Stored {
        map: BTreeMap::new(alloc),
        order: BTreeMap::new(alloc),
    };
    let mut pool = Pool::boot(alloc, stored.saturating_add(1))?;
    let all = (&mut pool, &mut map, &mut meter);
    time_interns(rt, alloc, (stored, rounds), all)
}

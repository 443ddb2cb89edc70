//! Calls in rounds, for a count of what they allocate.

use super::pool::{Pool, label_of};
use super::unrefs::{Count, no_count};
use anyhow::Result;
use base::{Meter, ObjectId};
use containers_twin::{Guarded, Hierarchy};
use std::alloc::Global;

const SIZE: usize = 64;

// One round: a subtree is made, read, linked and taken out.
fn play_tree(tree: &mut Guarded, base: u64, seen: &mut Count) -> Result<()> {
    let root = ObjectId::root();
    let top = ObjectId::new(base);
    let mut window = [root; 8];
    tree.create(root, top)?;
    for k in 1..20u64 {
        let id = ObjectId::new(base.saturating_add(k));
        let parent = tree.parent(id).unwrap_or(top);
        tree.create(parent, id)?;
        tree.link(root, id)?;
        let _record = tree.record(id);
    }
    let _count = tree.entries(top, 1, &mut window);
    let _last = tree.live(tree.count().saturating_sub(1));
    for k in 0..20u64 {
        tree.unref(root, ObjectId::new(base.saturating_add(k)), seen)?;
    }
    Ok(())
}

// One round: labels are stored, compared and released.
fn play_labels(pool: &mut Pool, category: usize, meter: &mut Meter) -> u64 {
    let mut sum = 0u64;
    if let Some(label) = label_of(category, meter) {
        if let Some(at) = pool.intern(&label, meter) {
            if let Some(bits) = pool.order(at, at) {
                sum = u64::from(bits.0);
            }
            pool.release(at);
        }
    }
    sum
}

// Plays so many rounds on both, and says so before and after.
fn play_booted(
    rt: &impl Print,
    tree: &mut Guarded,
    pool: &mut Pool,
    meter: &mut Meter,
    rounds: usize,
) -> Result<()> {
    let mut seen = no_count();
    rt.println("booted")?;
    let mut sum = 0u64;
    let mut base = 3u64;
    for round in 0..rounds {
        play_tree(tree, base, &mut seen)?;
        sum = sum.wrapping_add(play_labels(pool, round, meter));
        base = base.saturating_add(20);
    }
    let (links, objects) = (seen.links, seen.objects);
    println!(rt; "played: {objects} objects and {links} links went, bits {sum}")?;
    Ok(())
}

/// Boots containers and labels, says so, plays so many rounds on both, and says so.
pub fn play(rt: &impl Print, alloc: Global, rounds: usize) -> Result<()> {
    let mut meter = Meter::new(alloc)?;
    let mut pool = Pool::boot(alloc, SIZE)?;
    let mut tree = Guarded::boot(alloc, SIZE)?;
    play_booted(rt, &mut tree, &mut pool, &mut meter, rounds)
}

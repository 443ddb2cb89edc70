//! How many objects or labels are timed.
use crate::timing::print_ratio;
use anyhow::Result;
use std::alloc::Global;

/// The most objects or labels that are timed.
pub const MOST: usize = 4000;

/// A line with the times of so many steps on both, of a structure of this size and of a map.
pub fn print_beside_map(
    rt: &impl Print,
    alloc: Global,
    what: &str,
    size: usize,
    steps: u64,
    ours: u64,
    map: u64,
) -> Result<()> {
    let what = format!(in alloc; "{what} {size}")?;
    print_ratio(rt, what.as_str(), "map", steps, ours, map)
}

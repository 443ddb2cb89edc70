//! Times the structures under the arena kernel beside std's maps. Each ratio is of one run, so it says the same on a slow
//! machine and on a fast one.
mod calls;
mod finds;
mod interns;
mod pool;
mod sizes;
mod unrefs;

use crate::words::size_at;
use anyhow::Result;
use std::alloc::Global;
use std::rt::Clock;

/// How it is asked for.
pub const USAGE: &str = "benches find OBJECTS ROUNDS
benches unref OBJECTS ROUNDS
benches intern STORED ROUNDS
benches count ROUNDS
OBJECTS and STORED are 1 to 4000.";

/// Runs what the words after the program's name ask for. False where they ask for nothing.
pub fn run(rt: &(impl Clock + Print), alloc: Global, words: &[String]) -> Result<bool> {
    let Some(name) = words.get(1) else {
        return Ok(false);
    };
    match (name.as_str(), size_at(words, 2), size_at(words, 3)) {
        ("find", Some(objects), Some(rounds)) => finds::find(rt, alloc, objects, rounds)?,
        ("unref", Some(objects), Some(rounds)) => unrefs::unref(rt, alloc, objects, rounds)?,
        ("intern", Some(stored), Some(rounds)) => interns::intern(rt, alloc, stored, rounds)?,
        ("count", Some(rounds), None) => calls::play(rt, alloc, rounds)?,
        _ => return Ok(false),
    }
    Ok(true)
}

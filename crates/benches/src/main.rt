//! The benches: structures beside std's maps, calls of a kernel by one thread beside a file's, calls through seats by
//! several threads, and flows. Benches prove nothing: what they print is for who measures.
#![tactic(auto)]

mod asked;
mod files;
mod hand_overs;
mod kernel;
mod seats;
mod structures;
mod timing;
mod words;
mod work;

use anyhow::Result;
use std::alloc::Global;
use std::env;
use std::fs::File;
use std::rt::{Clock, Files};
use std::sync::Wait;
use std::thread::Threads;

/// Runs what the words ask for. False where they ask for nothing.
fn run<R: Threads + Wait + Clock + Print + Sync + Files<File = File>>(
    rt: &R,
    alloc: Global,
    words: &[String],
) -> Result<bool> {
    match words.get(1) {
        Some(word) if word.as_str() == "calls" => kernel::run(rt, alloc, words),
        Some(word) if word.as_str() == "seats" => seats::run(rt, alloc, words),
        Some(word) if word.as_str() == "flows" => hand_overs::run(rt, alloc, words),
        _ => structures::run(rt, alloc, words),
    }
}

fn main(rt: HostRuntime) -> Result<()> {
    let words: Vec<String> = env::args(&rt)?.collect(rt.alloc())?;
    if !run(&rt, rt.alloc(), words.as_slice())? {
        rt.println(structures::USAGE)?;
        rt.println(kernel::USAGE)?;
        rt.println(seats::USAGE)?;
        rt.println(hand_overs::USAGE)?;
    }
    Ok(())
}

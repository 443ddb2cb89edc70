//! Writes and reads of 64 bytes of a file by their place, and a file that is made and goes.
use crate::timing::nanos_since;
use crate::work::Work;
use anyhow::Result;
use std::fs::File;
use std::os::unix::fs::FileExt;
use std::rt::{Clock, Files};
use std::sync::Wait;
use std::thread::Threads;
use std::time::Instant;
use std::{fs, thread};

const BYTES: [u8; 64] = [7; 64];

/// Opens a file to be written over and read.
pub fn open(rt: &impl Files<File = File>, path: &str) -> Result<File> {
    let file = File::options()
        .read(true)
        .write(true)
        .create(true)
        .open(rt, path)?;
    Ok(file)
}

fn write_all(file: &File, place: u64, rounds: u64) {
    for _ in 0..rounds {
        let _ = file.write_all_at(&BYTES, place.wrapping_mul(64));
    }
}

fn read_all(file: &File, place: u64, rounds: u64) {
    let mut buffer = [0u8; 64];
    for _ in 0..rounds {
        let _ = file.read_exact_at(&mut buffer, place.wrapping_mul(64));
    }
}

/// Writes or reads so often at a place of the file, which is counted from 0 in steps of 64 bytes. What fails is passed over.
fn work_all(file: &File, work: Work, place: u64, rounds: u64) {
    match work {
        Work::Write => write_all(file, place, rounds),
        Work::Read => read_all(file, place, rounds),
    }
}

/// The nanoseconds in which one thread writes or reads so often at the file's start.
pub fn time_alone(rt: &impl Clock, file: &File, work: Work, rounds: u64) -> Result<u64> {
    let start = Instant::now(rt)?;
    work_all(file, work, 0, rounds);
    nanos_since(rt, start)
}

/// The nanoseconds in which so many threads at once write or read so often each, each at its own place.
pub fn time_at_once<R: Threads + Wait + Clock + Sync>(
    rt: &R,
    file: &File,
    work: Work,
    threads: u64,
    rounds: u64,
) -> Result<u64> {
    let start = Instant::now(rt)?;
    thread::scope(thread::scope_env(), rt, |scope| {
        for place in 0..threads {
            let _ = scope.spawn(move || work_all(file, work, place, rounds));
        }
    });
    nanos_since(rt, start)
}

/// The nanoseconds in which a file is made and goes so often.
pub fn time_made<R: Files + Clock>(rt: &R, path: &str, rounds: u64) -> Result<u64> {
    let start = Instant::now(rt)?;
    for _ in 0..rounds {
        let _ = File::create(rt, path);
        let _ = fs::remove_file(rt, path);
    }
    nanos_since(rt, start)
}

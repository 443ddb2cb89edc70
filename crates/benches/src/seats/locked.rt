//! The same writes and reads of a kernel of its own, under a lock that readers share.
use super::pauses::{ON_AND_ON, SELDOM, has_stopped};
use super::rooms::Roomy;
use super::samples::{Both, LIMITS, new_page};
use crate::asked::{asker, shows_bytes};
use crate::timing::nanos_since;
use anyhow::Result;
use base::Meter;
use kernel_rules::Reply;
use std::alloc::Global;
use std::rt::Clock;
use std::sync::atomic::{AtomicBool, AtomicU64, Ordering};
use std::sync::{Mutex, RwLock, Wait};
use std::thread;
use std::thread::Threads;
use std::time::Instant;
use syscall_core::Kernel;

/// A kernel under a lock that readers share, with a meter for each of them, and one for who writes.
#[derive(Drop)]
pub struct Locked {
    kernel: RwLock<Kernel>,
    writer: Mutex<Meter>,
    meters: Vec<Roomy<Mutex<Meter>>>,
}

fn read_all<R: Wait>(
    rt: &R,
    kernel: &RwLock<Kernel>,
    meter: &Roomy<Mutex<Meter>>,
    rounds: u64,
    done: &AtomicU64,
) {
    let query = Both::new().query;
    let mut meter = meter.value.lock(rt);
    let mut found = 0u64;
    let mut reply = Reply::Done;
    for _ in 0..rounds {
        kernel
            .read(rt)
            .ask_into(asker(), &query, &mut reply, &mut meter);
        if shows_bytes(&reply) {
            found = found.wrapping_add(1);
        }
    }
    done.fetch_add(found, Ordering::SeqCst);
}

fn read_seldom_until<R: Wait>(
    rt: &R,
    kernel: &RwLock<Kernel>,
    meter: &Roomy<Mutex<Meter>>,
    stop: &AtomicBool,
) {
    let query = Both::new().query;
    let mut meter = meter.value.lock(rt);
    let mut reply = Reply::Done;
    for _ in rt.forever() {
        if has_stopped(stop, SELDOM) {
            return;
        }
        kernel
            .read(rt)
            .ask_into(asker(), &query, &mut reply, &mut meter);
    }
}

fn write_all<R: Wait>(rt: &R, locked: &Locked, rounds: u64) {
    let call = Both::new().call;
    let mut meter = locked.writer.lock(rt);
    for _ in 0..rounds {
        locked
            .kernel
            .write(rt)
            .step_surely(asker(), &call, &mut meter);
    }
}

fn write_until<R: Wait>(rt: &R, locked: &Locked, stop: &AtomicBool) {
    let call = Both::new().call;
    let mut meter = locked.writer.lock(rt);
    for _ in rt.forever() {
        if has_stopped(stop, ON_AND_ON) {
            return;
        }
        locked
            .kernel
            .write(rt)
            .step_surely(asker(), &call, &mut meter);
    }
}

// A meter for each of so many readers.
fn meters(alloc: Global, readers: u64) -> Result<Vec<Roomy<Mutex<Meter>>>> {
    let mut meters = Vec::new(alloc);
    for _ in 0..readers {
        meters.push(Roomy::new(Mutex::new(Meter::new(alloc)?)))?;
    }
    Ok(meters)
}

impl Locked {
    /// A kernel with a segment that has the bytes, for so many readers.
    pub fn new(alloc: Global, readers: u64) -> Result<Locked> {
        let meters = meters(alloc, readers)?;
        let mut meter = Meter::new(alloc)?;
        let mut kernel = Kernel::boot(alloc, &LIMITS)?;
        kernel.step_surely(asker(), &new_page(), &mut meter);
        kernel.step_surely(asker(), &Both::new().call, &mut meter);
        Ok(Locked {
            kernel: RwLock::new(kernel),
            writer: Mutex::new(meter),
            meters,
        })
    }

    /// The nanoseconds in which so many readers at once read so often each, while it is counted
    /// what was done.
    pub fn time_reads<R: Threads + Wait + Clock + Sync>(
        &self,
        rt: &R,
        readers: usize,
        rounds: u64,
        done: &AtomicU64,
    ) -> Result<u64> {
        let start = Instant::now(rt)?;
        thread::scope(thread::scope_env(), rt, |scope| {
            for meter in self.meters.iter().take(readers) {
                let _ = scope.spawn(move || read_all(rt, &self.kernel, meter, rounds, done));
            }
        });
        nanos_since(rt, start)
    }

    /// The same while another thread writes on and on.
    pub fn time_reads_beside<R: Threads + Wait + Clock + Sync>(
        &self,
        rt: &R,
        readers: usize,
        rounds: u64,
        done: &AtomicU64,
    ) -> Result<u64> {
        let stop = AtomicBool::new(false);
        let stop = &stop;
        thread::scope(thread::scope_env(), rt, |scope| {
            let _ = scope.spawn(move || write_until(rt, self, stop));
            let taken = self.time_reads(rt, readers, rounds, done);
            stop.store(true, Ordering::SeqCst);
            taken
        })
    }

    /// The nanoseconds in which one thread writes so often, while so many readers read a twentieth of their time.
    pub fn time_writes_beside<R: Threads + Wait + Clock + Sync>(
        &self,
        rt: &R,
        readers: usize,
        rounds: u64,
    ) -> Result<u64> {
        let stop = AtomicBool::new(false);
        let stop = &stop;
        thread::scope(thread::scope_env(), rt, |scope| {
            for meter in self.meters.iter().take(readers) {
                let _ = scope.spawn(move || read_seldom_until(rt, &self.kernel, meter, stop));
            }
            let start = Instant::now(rt)?;
            write_all(rt, self, rounds);
            let taken = nanos_since(rt, start);
            stop.store(true, Ordering::SeqCst);
            taken
        })
    }
}

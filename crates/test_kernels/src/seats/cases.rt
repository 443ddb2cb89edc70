//! Cases, each played on a kernel of its own, which is booted, opened and closed here alone: what owns a kernel is long to
//! prove.

use super::samples::event_count;
use super::{batches, few_seats, memory, notes, readers, seats, threads, told};
use anyhow::Result;
use happy_calls::look::Look;
use happy_calls::samples::MOST_PAGES;
use published_copy::{Boot, BootRefusal, Naming, Shared};
use std::alloc::Global;
use std::marker::Brand;
use std::sync::Wait;
use std::thread::Threads;

/// What is played on a kernel that threads share.
#[derive(Clone, Copy)]
pub enum Case {
    Batches,
    WatchedBatches,
    Calls,
    DroppedSeats,
    FewSeats,
    LentBook,
    Lists,
    Notes,
    NotesHandedOn,
    OneHistory,
    Readers,
    RefusedSeats,
    Threads,
    WantedBatches,
    WantedMemory,
    WantedReaders,
}

fn boot_once(alloc: Global, case: Case) -> Result<Boot, BootRefusal> {
    match case {
        Case::FewSeats => Boot::with_seats(alloc, &MOST_PAGES, 2),
        Case::Threads => Boot::new(alloc, &threads::LIMITS),
        _ => Boot::new(alloc, &MOST_PAGES),
    }
}

/// A boot, made once more where there was no memory for it.
fn boot_again(alloc: Global, case: Case) -> Result<Boot, BootRefusal> {
    match boot_once(alloc, case) {
        Err(BootRefusal::Unavailable) => boot_once(alloc, case),
        booted => booted,
    }
}

fn play_at<B: Naming + Send + Sync, R: Threads + Wait + Sync>(
    rt: &R,
    look: &mut Look,
    alloc: Global,
    shared: &Shared<B>,
    case: Case,
) -> Result<()> {
    match case {
        Case::Batches => batches::batch_at(rt, look, alloc, shared),
        Case::WatchedBatches => batches::watch_at(rt, look, alloc, shared),
        Case::Calls => seats::use_at(rt, look, alloc, shared),
        Case::DroppedSeats => readers::drop_at(rt, look, alloc, shared),
        Case::FewSeats => few_seats::fill_two_at(rt, look, shared),
        Case::LentBook => readers::read_while_lent_at(rt, look, shared),
        Case::Lists => told::compare_at(rt, look, shared),
        Case::Notes => notes::tell_at(rt, look, shared),
        Case::NotesHandedOn => notes::hand_on_at(rt, look, shared),
        Case::OneHistory => told::tell_at(rt, look, alloc, shared),
        Case::Readers => readers::read_up_at(rt, look, alloc, shared),
        Case::RefusedSeats => seats::refuse_seats_at(rt, look, shared),
        Case::Threads => threads::work_at(rt, look, alloc, shared),
        Case::WantedBatches => memory::want_batches_at(rt, look, shared),
        Case::WantedMemory => memory::want_memory_at(rt, look, shared),
        Case::WantedReaders => memory::open_after_at(rt, look, shared),
    }
}

/// Plays a case, and closes the kernel, which then has as many events as before.
fn play_on<B: Naming + Send + Sync, R: Threads + Wait + Sync>(
    rt: &R,
    look: &mut Look,
    alloc: Global,
    boot: Boot,
    case: Case,
) -> Result<()> {
    let shared = boot.open::<B>();
    let outcome = play_at(rt, look, alloc, &shared, case);
    let count = event_count(rt, &shared);
    look.sees(shared.close().into_events(rt).len() == count);
    outcome
}

/// Plays a case on a newly booted kernel.
pub fn play_case<R: Threads + Wait + Sync>(
    rt: &R,
    look: &mut Look,
    alloc: Global,
    case: Case,
) -> Result<()> {
    let boot = boot_again(alloc, case)?;
    play_on::<Brand, R>(rt, look, alloc, boot, case)
}

//! A list of calls that is run on the arena kernel.
use super::cases::{Case, play_case};
use anyhow::Result;
use base::{Category, NoMemory};
use happy_calls::look::Look;
use happy_calls::metered::Metered;
use happy_calls::samples::boot_thread;
use std::alloc::Global;
use syscall_core::{Call, Reply};

/// Two categories are made.
pub fn run_two(look: &mut Look, alloc: Global, kernel: &mut Metered) -> Result<(), NoMemory> {
    let calls = [
        (boot_thread(), Call::CatCreate),
        (boot_thread(), Call::CatCreate),
    ];
    let replies = kernel.run(alloc, &calls)?;
    look.sees(matches!(
        replies.as_slice(),
        [Reply::Category(Category(1)), Reply::Category(Category(2))]
    ));
    Ok(())
}

fn calls_are_run(alloc: Global, look: &mut Look) -> Result<()> {
    look.part("calls_are_run");
    play_case(look, alloc, Case::Run)
}

/// Plays what there is memory for.
pub fn play(alloc: Global, look: &mut Look) -> Result<()> {
    calls_are_run(alloc, look)
}

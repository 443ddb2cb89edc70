//! Cases, each played on a kernel of its own, which is booted and dropped here alone: what owns a kernel is long to prove.
use super::{kept, run, scans};
use anyhow::Result;
use base::Limits;
use happy_calls::look::Look;
use happy_calls::metered::Metered;
use happy_calls::samples::LIMITS;
use std::alloc::Global;

/// What is played on a booted kernel.
#[derive(Clone, Copy)]
pub enum Case {
    Booted,
    Labels,
    Tables,
    Run,
    Calls,
    Device,
    NewLabel,
    NewThread,
    RefusedRead,
    Create,
    Write,
    WriteWithoutHint,
    Link,
    Read,
    Unreference,
}

fn limits_of(case: Case) -> Limits {
    match case {
        // An arena of 64 slots has 512 places for hints, so the root has that of object 513.
        Case::WriteWithoutHint => Limits {
            next_id: 513,
            ..LIMITS
        },
        _ => LIMITS,
    }
}

fn play_on(look: &mut Look, alloc: Global, metered: &mut Metered, case: Case) -> Result<()> {
    match case {
        Case::Booted => kept::booted(look, metered),
        Case::Labels => kept::labels(look, metered),
        Case::Tables => kept::tables(look, metered)?,
        Case::Run => run::run_two(look, alloc, metered)?,
        Case::Calls => scans::calls(look, metered)?,
        Case::Device => scans::device(look, metered),
        Case::NewLabel => scans::new_label(look, metered),
        Case::NewThread => scans::thread(look, metered),
        Case::RefusedRead => scans::refused_read(look, metered),
        Case::Create => scans::create(look, metered),
        Case::Write => scans::write(look, metered, 4, 6),
        Case::WriteWithoutHint => scans::write(look, metered, 513, 12),
        Case::Link => scans::link(look, metered),
        Case::Read => scans::read(look, metered),
        Case::Unreference => scans::unreference(look, metered),
    }
    Ok(())
}

/// Plays a case on a newly booted kernel.
pub fn play_case(look: &mut Look, alloc: Global, case: Case) -> Result<()> {
    let mut metered = Metered::boot(alloc, &limits_of(case))?;
    play_on(look, alloc, &mut metered, case)
}

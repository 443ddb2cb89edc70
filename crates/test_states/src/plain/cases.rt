//! Cases, each played on a kernel of its own, which is booted and dropped here alone: what owns a kernel is long to prove.
use super::samples::booted_again;
use super::{calls, memory};
use anyhow::Result;
use base::Meter;
use happy_calls::look::Look;
use happy_calls::samples::meter_again;
use plain_core::PlainKernel;
use std::alloc::Global;

/// What is played on a booted kernel.
#[derive(Clone, Copy)]
pub enum Case {
    Write,
    Run,
    WantedMemory,
    WantedCalls,
}

fn play_on(
    look: &mut Look,
    alloc: Global,
    kernel: &mut PlainKernel,
    meter: &mut Meter,
    case: Case,
) -> Result<()> {
    match case {
        Case::Write => calls::write(look, kernel, meter),
        Case::Run => calls::run_three(look, alloc, kernel, meter),
        Case::WantedMemory => memory::want(look, alloc, kernel, meter),
        Case::WantedCalls => memory::want_calls(look, kernel, meter),
    }
}

/// Plays a case on a newly booted kernel.
pub fn play_case(look: &mut Look, alloc: Global, case: Case) -> Result<()> {
    let mut meter = meter_again(alloc)?;
    let mut kernel = booted_again(alloc)?;
    play_on(look, alloc, &mut kernel, &mut meter, case)
}

//! A plain kernel, and calls on it.
use anyhow::Result;
use base::{Level, Meter, NoMemory, ObjectId};
use happy_calls::look::Look;
use happy_calls::samples::{LIMITS, boot_thread, label_with, plain};
use label_lattice::RawLabel;
use plain_core::{BootRefusal, Call, Machine, NewAddressSpace, PlainKernel, Query, Reply};
use std::alloc::Global;

/// A kernel, booted once more where the first boot had no memory.
pub fn booted_again(alloc: Global) -> Result<PlainKernel, BootRefusal> {
    match PlainKernel::boot(alloc, &LIMITS) {
        Ok(kernel) => Ok(kernel),
        Err(_) => PlainKernel::boot(alloc, &LIMITS),
    }
}

/// The label that only owners of category 1 and those who are cleared for it observe.
pub fn secret() -> RawLabel {
    label_with(Level::L3, Level::L1)
}

/// A call that makes an address space in the root.
pub fn new_space() -> Call {
    Call::AsCreate(NewAddressSpace {
        container: ObjectId::root(),
        label: plain(),
        quota: 1,
    })
}

/// What the boot thread makes by a call.
pub fn make(
    kernel: &mut PlainKernel,
    call: &Call,
    meter: &mut Meter,
) -> Result<Option<ObjectId>, NoMemory> {
    happy_calls::samples::made(kernel.step(boot_thread(), call, meter))
}

/// What the boot thread's call answers, made once more where there was no memory for it.
pub fn step_again(
    kernel: &mut PlainKernel,
    call: &Call,
    meter: &mut Meter,
) -> Result<Reply, NoMemory> {
    let boot = boot_thread();
    match kernel.step(boot, call, meter) {
        Ok(reply) => Ok(reply),
        Err(_) => kernel.step(boot, call, meter),
    }
}

/// What the boot thread is told, asked once more where there was no memory for it.
pub fn ask_again(
    kernel: &PlainKernel,
    query: &Query,
    meter: &mut Meter,
) -> Result<Reply, NoMemory> {
    let boot = boot_thread();
    match kernel.ask(boot, query, meter) {
        Ok(reply) => Ok(reply),
        Err(_) => kernel.ask(boot, query, meter),
    }
}

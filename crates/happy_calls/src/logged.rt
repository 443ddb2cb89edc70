//! Calls that are kept.
use crate::look::{Look, agree};
use crate::samples::{EIGHT_PAGES, boot_thread, in_root, meter_again, new_thread};
use anyhow::Result;
use auditor::{Verdict, audit};
use base::Meter;
use kernel_rules::{Call, Query, Reply};
use logged_kernel::{LoggedKernel, NotKept};
use std::alloc::Global;
use syscall_core::BootRefusal;

/// A kernel, booted again where there was no memory.
fn boot_again(alloc: Global) -> Result<LoggedKernel, BootRefusal> {
    match LoggedKernel::boot(alloc, &EIGHT_PAGES) {
        Ok(kernel) => Ok(kernel),
        Err(_) => LoggedKernel::boot(alloc, &EIGHT_PAGES),
    }
}

/// The number of what refused a call, made again where there was no memory; 0 for nothing.
fn refusal_of(kernel: &mut LoggedKernel, call: &Call, meter: &mut Meter) -> u8 {
    let mut reply = Reply::Done;
    let made = kernel
        .step_into(boot_thread(), call, &mut reply, meter)
        .is_ok()
        || kernel
            .step_into(boot_thread(), call, &mut reply, meter)
            .is_ok();
    match (made, reply) {
        (false, _) => 40,
        (true, Reply::Refused(refusal)) => refusal.number(),
        (true, _) => 0,
    }
}

/// Whether a query is answered, asked again where there was no memory.
fn is_asked(kernel: &mut LoggedKernel, meter: &mut Meter) -> bool {
    let mut reply = Reply::Done;
    let asks = Query::SelfGet;
    kernel
        .ask_into(boot_thread(), &asks, &mut reply, meter)
        .is_ok()
        || kernel
            .ask_into(boot_thread(), &asks, &mut reply, meter)
            .is_ok()
}

/// A piece of the dump of the log, made again where there was no memory.
fn piece_of(kernel: &LoggedKernel, number: u64, meter: &mut Meter) -> Option<Vec<u8>> {
    match kernel.dump_piece(number, meter) {
        Ok(text) => text,
        Err(_) => match kernel.dump_piece(number, meter) {
            Ok(text) => text,
            Err(_) => None,
        },
    }
}

/// Adds bytes, again where there was no memory, and tells whether they were added.
fn adds(text: &mut Vec<u8>, bytes: &[u8]) -> bool {
    text.extend_from_slice(bytes).is_ok() || text.extend_from_slice(bytes).is_ok()
}

/// The dump of the log, piece by piece.
fn text_of(alloc: Global, kernel: &LoggedKernel, meter: &mut Meter) -> Option<Vec<u8>> {
    let mut text = Vec::new(alloc);
    for number in 0..u64::MAX {
        let Some(piece) = piece_of(kernel, number, meter) else {
            return None;
        };
        if piece.is_empty() {
            return Some(text);
        }
        if !adds(&mut text, piece.as_slice()) {
            return None;
        }
    }
    None
}

/// Whether a dump is clean, asked again where there was no memory.
fn is_clean(alloc: Global, text: &[u8]) -> bool {
    match audit(alloc, text) {
        Ok(verdict) => agree(verdict, Verdict::Clean),
        Err(_) => matches!(audit(alloc, text), Ok(Verdict::Clean)),
    }
}

/// Whether the log begins.
fn begins(kernel: &mut LoggedKernel) -> bool {
    kernel.begin_log(9, true)
}

/// Whether the boot thread is there.
fn has_boot_thread(kernel: &LoggedKernel, meter: &mut Meter) -> bool {
    kernel.kernel().is_thread(boot_thread(), meter)
}

/// Whether there is a dump, and it is clean.
fn is_dump(alloc: Global, text: &Option<Vec<u8>>) -> bool {
    match text {
        Some(text) => is_clean(alloc, text.as_slice()),
        None => false,
    }
}

/// Whether the kernel's dump is clean.
fn is_dumped(alloc: Global, kernel: &LoggedKernel, meter: &mut Meter) -> bool {
    let text = text_of(alloc, kernel, meter);
    is_dump(alloc, &text)
}

/// Whether no log is kept.
fn has_no_log(kernel: &LoggedKernel, meter: &mut Meter) -> bool {
    piece_of(kernel, 0, meter).is_none()
}

// A call that is done, one that is refused and a read are kept, once each.
fn keep_calls(look: &mut Look, alloc: Global, kernel: &mut LoggedKernel, meter: &mut Meter) {
    look.sees(has_no_log(kernel, meter));
    look.sees(begins(kernel));
    look.sees(refusal_of(kernel, &new_thread(), meter) == 0);
    let root = Call::Unref { entry: in_root(1) };
    look.sees(refusal_of(kernel, &root, meter) == 16);
    look.sees(is_asked(kernel, meter));
    look.sees(!begins(kernel));
    look.sees(has_boot_thread(kernel, meter));
    look.sees(is_dumped(alloc, kernel, meter));
}

/// Whether the log begins anew, of so many calls at most, again where there was no memory.
fn cuts(kernel: &mut LoggedKernel, most: u64) -> bool {
    kernel.cut_log(most, true).is_ok() || kernel.cut_log(most, true).is_ok()
}

/// Whether a call is refused since the log has as many as it may have.
fn is_full(kernel: &mut LoggedKernel, call: &Call, meter: &mut Meter) -> bool {
    let mut reply = Reply::Done;
    let made = kernel.step_into(boot_thread(), call, &mut reply, meter);
    matches!(made, Err(NotKept::LogFull))
}

// A log of one call at most refuses a second one, also one that the rules refuse, until it is cut.
fn fill(look: &mut Look, alloc: Global, kernel: &mut LoggedKernel, meter: &mut Meter) {
    let root = Call::Unref { entry: in_root(1) };
    look.sees(cuts(kernel, 1));
    look.sees(refusal_of(kernel, &root, meter) == 16);
    look.sees(is_full(kernel, &root, meter));
    look.sees(is_full(kernel, &new_thread(), meter));
    look.sees(is_dumped(alloc, kernel, meter));
    look.sees(cuts(kernel, 9));
    look.sees(refusal_of(kernel, &root, meter) == 16);
}

/// A kernel that the checkpoint of another one restores.
fn restored(alloc: Global, kernel: &LoggedKernel) -> Option<LoggedKernel> {
    let Ok(checkpoint) = kernel.checkpoint() else {
        return None;
    };
    match LoggedKernel::restore(alloc, &EIGHT_PAGES, checkpoint) {
        Ok(other) => Some(other),
        Err(_) => None,
    }
}

/// The same, made again where there was no memory.
fn restored_again(alloc: Global, kernel: &LoggedKernel) -> Option<LoggedKernel> {
    match restored(alloc, kernel) {
        Some(other) => Some(other),
        None => restored(alloc, kernel),
    }
}

// A kernel that is restored keeps the calls from there.
fn keep_restored(look: &mut Look, alloc: Global, other: &mut LoggedKernel, meter: &mut Meter) {
    look.sees(begins(other));
    look.sees(refusal_of(other, &new_thread(), meter) == 0);
    look.sees(is_dumped(alloc, other, meter));
}

// A log that is cut keeps the calls after it, and so does that of a kernel which its checkpoint restores.
fn cut_and_restore(look: &mut Look, alloc: Global, kernel: &mut LoggedKernel, meter: &mut Meter) {
    look.sees(cuts(kernel, 9));
    look.sees(is_dumped(alloc, kernel, meter));
    look.sees(refusal_of(kernel, &new_thread(), meter) == 0);
    look.sees(is_dumped(alloc, kernel, meter));
    match restored_again(alloc, kernel) {
        Some(mut other) => keep_restored(look, alloc, &mut other, meter),
        None => look.sees(false),
    }
}

// Also where an allocation is refused: what is made again is kept once, and the dump is clean.
fn want_of_memory_keeps_each_call_once(alloc: Global, look: &mut Look) -> Result<()> {
    look.part("want_of_memory_keeps_each_call_once");
    let mut meter = meter_again(alloc)?;
    let mut kernel = boot_again(alloc)?;
    keep_calls(look, alloc, &mut kernel, &mut meter);
    fill(look, alloc, &mut kernel, &mut meter);
    cut_and_restore(look, alloc, &mut kernel, &mut meter);
    Ok(())
}

/// Plays what is made again where there was no memory.
pub fn again(alloc: Global, look: &mut Look) -> Result<()> {
    want_of_memory_keeps_each_call_once(alloc, look)
}

//! What the arena kernel keeps, after a boot and a call.
use super::cases::{Case, play_case};
use anyhow::Result;
use base::{NoMemory, ObjectId};
use happy_calls::look::{Look, agree};
use happy_calls::metered::Metered;
use happy_calls::samples::{boot_thread, device};
use label_intern::LabelIx;
use std::alloc::Global;
use std::thread::Threads;
use syscall_core::{Call, Reply};

/// Threads, uses and live objects.
pub fn booted(look: &mut Look, kernel: &mut Metered) {
    look.sees(kernel.is_thread(boot_thread()));
    look.sees(!kernel.is_thread(device()));
    look.sees(agree(kernel.kept_use(ObjectId::root()), Some(4)));
    look.sees(agree(kernel.kept_use(ObjectId::new(4)), None));
    look.sees(agree(kernel.kept_live(2), Some(device())));
    look.sees(agree(kernel.kept_live(3), None));
}

fn what_is_kept_is_told(alloc: Global, look: &mut Look) -> Result<()> {
    look.part("what_is_kept_is_told");
    play_case(look, alloc, Case::Booted)
}

/// How many labels are kept, where each of them has an order with itself.
fn kept_labels(kernel: &Metered) -> Option<u16> {
    let mut stored = 0u16;
    for index in 0..195u16 {
        if kernel.is_kept(LabelIx(index)) {
            if !kernel.is_ordered(LabelIx(index)) {
                return None;
            }
            stored = stored.saturating_add(1);
        }
    }
    Some(stored)
}

/// The labels {1}, {2} and {3}.
pub fn labels(look: &mut Look, kernel: &Metered) {
    look.sees(agree(kept_labels(kernel), Some(3)));
}

fn kept_labels_have_their_order(alloc: Global, look: &mut Look) -> Result<()> {
    look.part("kept_labels_have_their_order");
    play_case(look, alloc, Case::Labels)
}

/// The labels {1}, {3}, and what the boot thread has now: {1:*,1} and {1:3,2}.
pub fn tables(look: &mut Look, kernel: &mut Metered) -> Result<(), NoMemory> {
    let reply = kernel.step(&Call::CatCreate);
    look.sees(matches!(reply, Reply::Category(_)));
    look.sees(agree(kernel.labels()?, 4));
    Ok(())
}

fn tables_have_what_is_named_now(alloc: Global, look: &mut Look) -> Result<()> {
    look.part("tables_have_what_is_named_now");
    play_case(look, alloc, Case::Tables)
}

/// Plays what there is memory for.
pub fn play(alloc: Global, look: &mut Look) -> Result<()> {
    what_is_kept_is_told(alloc, look)?;
    kept_labels_have_their_order(alloc, look)?;
    tables_have_what_is_named_now(alloc, look)
}

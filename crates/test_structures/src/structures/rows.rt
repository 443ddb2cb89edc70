//! Rows of translation by slot, and without memory.

use anyhow::Result;
use arena_memory::translation_rows::Rows;
use base::{Meter, NoMemory, ObjectId, Rights, Slot};
use happy_calls::look::{Look, agree};
use happy_calls::samples::meter_again;
use std::alloc::Global;

const READING: Rights = Rights {
    read: true,
    write: false,
};

// Three slots, booted once more where the first boot had no memory.
fn rows_again(alloc: Global) -> Result<Rows, NoMemory> {
    match Rows::boot(alloc, 3) {
        Ok(rows) => Ok(rows),
        Err(_) => Rows::boot(alloc, 3),
    }
}

fn a_walk_over_threads_counts_each_slot_once(alloc: Global, look: &mut Look) -> Result<()> {
    look.part("a_walk_over_threads_counts_each_slot_once");
    let mut meter = Meter::new(alloc)?;
    let mut rows = Rows::boot(alloc, 3)?;
    look.sees(rows.next_thread(0, &mut meter).is_none());
    look.sees(agree(meter.probes(), 3));

    rows.set(
        Slot(1),
        ObjectId::new(7),
        [Some((ObjectId::new(9), READING)); 16],
    );
    let first = rows.first();
    let found = rows.next_thread(first, &mut meter);
    look.sees(agree(meter.probes(), 4));
    look.sees(found.is_some());
    if let Some(found) = found {
        look.sees(agree(found.thread, ObjectId::new(7)));
        look.sees(agree(found.slot, Slot(1)));
    }
    let shown = rows.shown(Slot(1), 5, &mut meter);
    look.sees(agree(shown, Some((ObjectId::new(9), READING))));
    Ok(())
}

fn a_slot_that_is_cleared_shows_nothing(alloc: Global, look: &mut Look) -> Result<()> {
    look.part("a_slot_that_is_cleared_shows_nothing");
    let mut meter = meter_again(alloc)?;
    let mut rows = rows_again(alloc)?;
    rows.set(
        Slot(2),
        ObjectId::new(7),
        [Some((ObjectId::new(9), READING)); 16],
    );
    rows.clear(Slot(2), &mut meter);
    rows.clear(Slot(0), &mut meter);
    look.sees(agree(meter.probes(), 2));
    look.sees(agree(rows.shown(Slot(2), 15, &mut meter), None));
    look.sees(rows.next_thread(0, &mut meter).is_none());
    Ok(())
}

/// Plays what there is memory for.
pub fn play(alloc: Global, look: &mut Look) -> Result<()> {
    a_walk_over_threads_counts_each_slot_once(alloc, look)?;
    a_slot_that_is_cleared_shows_nothing(alloc, look)
}

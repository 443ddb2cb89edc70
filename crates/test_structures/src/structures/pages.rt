//! Bytes and packets by slot, and without memory.

use anyhow::Result;
use arena_memory::segments::{Queues, Segments};
use base::{Data, Meter, NoMemory, Slot};
use happy_calls::look::{Look, agree};
use happy_calls::samples::meter_again;
use std::alloc::Global;

// Three slots, booted once more where the first boot had no memory.
fn segments_again(alloc: Global) -> Result<Segments, NoMemory> {
    match Segments::boot(alloc, 3) {
        Ok(segments) => Ok(segments),
        Err(_) => Segments::boot(alloc, 3),
    }
}

fn queues_again(alloc: Global) -> Result<Queues, NoMemory> {
    match Queues::boot(alloc, 3) {
        Ok(queues) => Ok(queues),
        Err(_) => Queues::boot(alloc, 3),
    }
}

fn bytes_go_on_in_the_next_page(alloc: Global, look: &mut Look) -> Result<()> {
    look.part("bytes_go_on_in_the_next_page");
    let mut meter = Meter::new(alloc)?;
    let mut segments = Segments::boot(alloc, 3)?;
    let slot = Slot(1);
    segments.resize(slot, 2, &mut meter);
    look.sees(agree(segments.page_count(slot), 2));
    look.sees(agree(segments.page_count(Slot(0)), 0));
    segments.write(slot, 254, &[7, 8, 9], &mut meter);
    let probes = meter.probes();
    let read = segments.read(slot, 253, 5, &mut meter);
    look.sees(agree(read.as_slice(), [0, 7, 8, 9, 0].as_slice()));
    look.sees(meter.probes() <= probes + 2);
    Ok(())
}

fn what_is_cut_off_is_gone(alloc: Global, look: &mut Look) -> Result<()> {
    look.part("what_is_cut_off_is_gone");
    let mut meter = Meter::new(alloc)?;
    let mut segments = Segments::boot(alloc, 3)?;
    let slot = Slot(2);
    segments.resize(slot, 2, &mut meter);
    segments.write(slot, 255, &[7, 8], &mut meter);
    segments.resize(slot, 1, &mut meter);
    look.sees(agree(segments.page_count(slot), 1));
    let last = segments.read(slot, 255, 1, &mut meter);
    look.sees(agree(last.as_slice(), [7].as_slice()));
    segments.resize(slot, 2, &mut meter);
    let after = segments.read(slot, 255, 2, &mut meter);
    look.sees(agree(after.as_slice(), [7, 0].as_slice()));
    look.sees(agree(meter.scans(), 0));
    Ok(())
}

// Each slot has all three frames in turn, and finds none of the bytes that lay there.
fn frames_come_back_cleared(alloc: Global, look: &mut Look) -> Result<()> {
    look.part("frames_come_back_cleared");
    let mut meter = Meter::new(alloc)?;
    let mut segments = Segments::boot(alloc, 3)?;
    segments.resize(Slot(0), 3, &mut meter);
    segments.write(Slot(0), 767, &[9], &mut meter);
    segments.clear(Slot(0), &mut meter);
    look.sees(agree(segments.page_count(Slot(0)), 0));
    segments.resize(Slot(1), 3, &mut meter);
    let read = segments.read(Slot(1), 767, 1, &mut meter);
    look.sees(agree(read.as_slice(), [0].as_slice()));
    let first = segments.read(Slot(1), 0, 1, &mut meter);
    look.sees(agree(first.as_slice(), [0].as_slice()));
    Ok(())
}

fn a_copy_lies_apart(alloc: Global, look: &mut Look) -> Result<()> {
    look.part("a_copy_lies_apart");
    let mut meter = Meter::new(alloc)?;
    let mut segments = Segments::boot(alloc, 3)?;
    segments.resize(Slot(0), 1, &mut meter);
    segments.write(Slot(0), 10, &[3, 4], &mut meter);
    segments.copy(Slot(0), Slot(2), &mut meter);
    segments.write(Slot(0), 10, &[5], &mut meter);
    segments.well_formed();
    let copied = segments.read(Slot(2), 9, 4, &mut meter);
    look.sees(agree(copied.as_slice(), [0, 3, 4, 0].as_slice()));
    let changed = segments.read(Slot(0), 10, 2, &mut meter);
    look.sees(agree(changed.as_slice(), [5, 4].as_slice()));
    Ok(())
}

fn packets_come_in_order(alloc: Global, look: &mut Look) -> Result<()> {
    look.part("packets_come_in_order");
    let mut meter = Meter::new(alloc)?;
    let mut queues = Queues::boot(alloc, 3)?;
    queues.send(Slot(1), Data::from_slice(b"a"), &mut meter);
    queues.send(Slot(1), Data::from_slice(b"bc"), &mut meter);
    look.sees(agree(queues.packets(Slot(0)).len(), 0));
    queues.receive(Slot(1), &mut meter);
    queues.receive(Slot(0), &mut meter);
    let waiting = queues.packets(Slot(1));
    look.sees(agree(waiting.len(), 1));
    look.sees(agree(waiting[0].as_slice(), b"bc".as_slice()));
    look.sees(agree(meter.probes(), 4));
    Ok(())
}

// Where an allocation is refused, what is booted again is as if nothing had been.
fn want_of_memory_changes_no_bytes(alloc: Global, look: &mut Look) -> Result<()> {
    look.part("want_of_memory_changes_no_bytes");
    let mut meter = meter_again(alloc)?;
    let mut segments = segments_again(alloc)?;
    segments.resize(Slot(1), 3, &mut meter);
    segments.write(Slot(1), 256, &[6], &mut meter);
    let read = segments.read(Slot(1), 255, 2, &mut meter);
    look.sees(agree(read.as_slice(), [0, 6].as_slice()));
    Ok(())
}

fn want_of_memory_changes_no_packets(alloc: Global, look: &mut Look) -> Result<()> {
    look.part("want_of_memory_changes_no_packets");
    let mut meter = meter_again(alloc)?;
    let mut queues = queues_again(alloc)?;
    queues.send(Slot(2), Data::from_slice(b"d"), &mut meter);
    look.sees(agree(queues.packets(Slot(2)).len(), 1));
    look.sees(agree(queues.packets(Slot(1)).len(), 0));
    Ok(())
}

/// Plays what there is memory for.
pub fn play(alloc: Global, look: &mut Look) -> Result<()> {
    bytes_go_on_in_the_next_page(alloc, look)?;
    what_is_cut_off_is_gone(alloc, look)?;
    frames_come_back_cleared(alloc, look)?;
    a_copy_lies_apart(alloc, look)?;
    packets_come_in_order(alloc, look)
}

/// Plays what is made again where there was no memory.
pub fn again(alloc: Global, look: &mut Look) -> Result<()> {
    want_of_memory_changes_no_bytes(alloc, look)?;
    want_of_memory_changes_no_packets(alloc, look)
}

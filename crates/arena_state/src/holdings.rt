//! What is kept by slots.
ghost use Rattle.std.specs.Prelude.{◌≡◌, None, [], replicate, slice_set};
ghost use Rattle.arena_state.specs.Deaths.{released, bytes_left, mappings_left, IsVacated};

use crate::records::{Kept, Record};
use arena_memory::address_spaces::Spaces;
use arena_memory::segments::{Queues, Segments};
use base::{Meter, Slot};
use containers::{Located, Visitor};
use label_intern::Labels;

/// What is kept beside the tree of entries: for each slot a record, the bytes of a segment, the packets of a device and
/// the mappings of an address space; and the stored labels.
#[derive(Drop)]
pub struct Holdings {
    pub records: Vec<Record>,
    pub labels: Labels,
    pub segments: Segments,
    pub queues: Queues,
    pub spaces: Spaces,
}

// The labels that a record names have an owner less.
fn forget(labels: &mut Labels, given: &Record)
    ensures { labels.new ≡ released labels.old given.now }
{
    labels.let_go(given.label);
    match &given.body {
        Kept::Thread(thread) => {
            labels.let_go(thread.clearance);
            labels.let_go(thread.verify);
        }
        Kept::Gate(gate) => labels.let_go(gate.clearance),
        Kept::Container(_, _) | Kept::Segment(_) | Kept::AddressSpace | Kept::Device => {}
    }
}

// A slot has no byte, if there is such a slot.
fn clear_bytes(segments: &mut Segments, slot: Slot, meter: &mut Meter)
    ensures cleared { segments.new ≡ slice_set segments.old slot.0 [] }
    ensures scans { meter.new.scans ≡ meter.old.scans }
{
    if slot.0 < segments.slots() {
        segments.clear(slot, meter);
    }
}

// A slot has no mapping, if there is such a slot.
fn clear_mappings(spaces: &mut Spaces, slot: Slot)
    ensures { spaces.new ≡ slice_set spaces.old slot.0 (replicate 16 None) }
{
    if slot.0 < spaces.slots() {
        spaces.release(slot);
    }
}

// What a slot of such a body held is gone.
fn vacate(segments: &mut Segments, spaces: &mut Spaces, slot: Slot, body: &Kept, meter: &mut Meter)
    ensures segments { segments.new ≡ bytes_left body.now slot.0 segments.old }
    ensures mappings { spaces.new ≡ mappings_left body.now slot.0 spaces.old }
    ensures scans { meter.new.scans ≡ meter.old.scans }
{
    match body {
        Kept::Segment(_) => clear_bytes(segments, slot, meter),
        Kept::AddressSpace => clear_mappings(spaces, slot),
        Kept::Container(_, _) | Kept::Thread(_) | Kept::Gate(_) | Kept::Device => {}
    }
}

impl Visitor for Holdings {
    ghost link_gives = { λ v c o w. w ≡ v };

    ghost object_gives = { IsVacated };

    fn link(&mut self, _container: Located, _object: Located) {}

    fn object(&mut self, object: Located, meter: &mut Meter) {
        match self.records.get(object.slot.0) {
            Some(record) => {
                forget(&mut self.labels, record);
                vacate(
                    &mut self.segments,
                    &mut self.spaces,
                    object.slot,
                    &record.body,
                    meter,
                );
            }
            None => {}
        }
    }
}

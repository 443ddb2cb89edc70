//! Address spaces by slot, and without memory.

use anyhow::Result;
use arena_memory::address_spaces::Spaces;
use base::{Meter, NoMemory, ObjectId, Rights, Slot};
use happy_calls::look::{Look, agree};
use happy_calls::samples::meter_again;
use kernel_rules::{Entry, Mapping};
use std::alloc::Global;

// Three slots, booted once more where the first boot had no memory.
fn booted_again(alloc: Global) -> Result<Spaces, NoMemory> {
    match Spaces::boot(alloc, 3) {
        Ok(spaces) => Ok(spaces),
        Err(_) => Spaces::boot(alloc, 3),
    }
}

// One page of a segment, shown as this virtual page.
fn shown_as(page: u32) -> Mapping {
    Mapping {
        page,
        entry: Entry {
            container: ObjectId::root(),
            object: ObjectId::new(9),
        },
        first: 0,
        count: 1,
        rights: Rights {
            read: true,
            write: false,
        },
    }
}

const ONE: Slot = Slot(0);

const OTHER: Slot = Slot(2);

// Two mappings of one segment: at place 15 of the last space, and at place 3 of the first.
fn map_two(spaces: &mut Spaces) {
    spaces.map(OTHER, 15, shown_as(7));
    spaces.map(ONE, 3, shown_as(8));
}

// The virtual page of what is mapped.
fn page_of(mapping: Option<Mapping>) -> Option<u32> {
    match mapping {
        Some(mapping) => Some(mapping.page),
        None => None,
    }
}

fn mappings_are_read_by_their_places(alloc: Global, look: &mut Look) -> Result<()> {
    look.part("mappings_are_read_by_their_places");
    let mut meter = Meter::new(alloc)?;
    let mut spaces = Spaces::boot(alloc, 3)?;
    map_two(&mut spaces);
    look.sees(agree(spaces.slots(), 3));
    look.sees(agree(page_of(spaces.mapping(OTHER, 15, &mut meter)), Some(7)));
    look.sees(spaces.mapping(OTHER, 3, &mut meter).is_none());
    look.sees(agree(meter.probes(), 2));
    let mappings = spaces.mappings(ONE, &mut meter);
    look.sees(agree(page_of(mappings[3]), Some(8)));
    look.sees(agree(mappings.len(), 16));
    look.sees(agree(meter.probes(), 18));
    look.sees(agree(meter.scans(), 0));
    Ok(())
}

fn a_mapping_goes_by_its_place(alloc: Global, look: &mut Look) -> Result<()> {
    look.part("a_mapping_goes_by_its_place");
    let mut meter = Meter::new(alloc)?;
    let mut spaces = Spaces::boot(alloc, 3)?;
    map_two(&mut spaces);
    spaces.unmap(OTHER, 15);
    look.sees(spaces.mapping(OTHER, 15, &mut meter).is_none());
    look.sees(spaces.mapping(ONE, 3, &mut meter).is_some());
    Ok(())
}

fn a_space_goes_with_its_mappings(alloc: Global, look: &mut Look) -> Result<()> {
    look.part("a_space_goes_with_its_mappings");
    let mut meter = Meter::new(alloc)?;
    let mut spaces = Spaces::boot(alloc, 3)?;
    map_two(&mut spaces);
    spaces.release(ONE);
    look.sees(spaces.mapping(ONE, 3, &mut meter).is_none());
    look.sees(spaces.mapping(OTHER, 15, &mut meter).is_some());
    Ok(())
}

fn what_was_mapped_is_told_from_what_was_not(alloc: Global, look: &mut Look) -> Result<()> {
    look.part("what_was_mapped_is_told_from_what_was_not");
    let mut meter = Meter::new(alloc)?;
    let mut spaces = Spaces::boot(alloc, 3)?;
    look.sees(!spaces.may_map(ObjectId::new(9), &mut meter));
    map_two(&mut spaces);
    look.sees(spaces.may_map(ObjectId::new(9), &mut meter));
    look.sees(!spaces.may_map(ObjectId::new(8), &mut meter));
    Ok(())
}

// Where an allocation is refused, spaces that are booted again are as if nothing had been.
fn want_of_memory_changes_nothing(alloc: Global, look: &mut Look) -> Result<()> {
    look.part("want_of_memory_changes_nothing");
    let mut meter = meter_again(alloc)?;
    let mut spaces = booted_again(alloc)?;
    spaces.map(Slot(2), 1, shown_as(4));
    look.sees(spaces.mapping(Slot(2), 1, &mut meter).is_some());
    look.sees(spaces.mapping(Slot(1), 1, &mut meter).is_none());
    Ok(())
}

/// Plays what there is memory for.
pub fn play(alloc: Global, look: &mut Look) -> Result<()> {
    mappings_are_read_by_their_places(alloc, look)?;
    a_mapping_goes_by_its_place(alloc, look)?;
    a_space_goes_with_its_mappings(alloc, look)?;
    what_was_mapped_is_told_from_what_was_not(alloc, look)
}

/// Plays what is made again where there was no memory.
pub fn again(alloc: Global, look: &mut Look) -> Result<()> {
    want_of_memory_changes_nothing(alloc, look)
}

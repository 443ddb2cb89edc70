//! Lists by index, and without memory.

use anyhow::Result;
use base::{Meter, NoMemory};
use containers::entry_lists::Rings;
use happy_calls::look::{Look, agree};
use happy_calls::samples::meter_again;
use std::alloc::Global;

// Two families of four cells, made once more where the first making had no memory.
fn rings_again(alloc: Global) -> Result<Rings<2>, NoMemory> {
    match Rings::new(alloc, &[2, 3], 4) {
        Ok(rings) => Ok(rings),
        Err(_) => Rings::new(alloc, &[2, 3], 4),
    }
}

// Cells 3 and 0 in a list of the first family, and cell 3 in one of the second.
fn link_three(rings: &mut Rings<2>, meter: &mut Meter) {
    rings.push_back(0, 1, 3, meter);
    rings.push_back(0, 1, 0, meter);
    rings.push_back(1, 2, 3, meter);
}

fn cells_stand_in_one_list_of_each_family(alloc: Global, look: &mut Look) -> Result<()> {
    look.part("cells_stand_in_one_list_of_each_family");
    let mut meter = Meter::new(alloc)?;
    let mut rings = Rings::<2>::new(alloc, &[2, 3], 4)?;
    link_three(&mut rings, &mut meter);
    look.sees(agree(meter.probes(), 6));

    look.sees(agree(rings.len(0, 1, &mut meter), 2));
    look.sees(agree(rings.len(0, 0, &mut meter), 0));
    look.sees(agree(rings.first(0, 1, &mut meter), Some(3)));
    look.sees(agree(rings.next(0, 3, &mut meter), Some(0)));
    look.sees(agree(rings.next(0, 0, &mut meter), None));
    look.sees(agree(rings.head_of(1, 3, &mut meter), 2));
    look.sees(agree(meter.probes(), 12));
    Ok(())
}

fn each_end_of_a_list_is_one_probe(alloc: Global, look: &mut Look) -> Result<()> {
    look.part("each_end_of_a_list_is_one_probe");
    let mut meter = Meter::new(alloc)?;
    let mut rings = Rings::<2>::new(alloc, &[2, 3], 4)?;
    link_three(&mut rings, &mut meter);
    look.sees(agree(rings.first(0, 0, &mut meter), None));
    look.sees(agree(rings.last(0, 1, &mut meter), Some(0)));
    look.sees(agree(rings.last(0, 0, &mut meter), None));
    look.sees(agree(meter.probes(), 9));
    Ok(())
}

fn a_cell_leaves_one_family(alloc: Global, look: &mut Look) -> Result<()> {
    look.part("a_cell_leaves_one_family");
    let mut meter = Meter::new(alloc)?;
    let mut rings = Rings::<2>::new(alloc, &[2, 3], 4)?;
    link_three(&mut rings, &mut meter);
    rings.unlink(0, 3, &mut meter);
    look.sees(agree(rings.first(0, 1, &mut meter), Some(0)));
    look.sees(agree(rings.first(1, 2, &mut meter), Some(3)));
    look.sees(agree(meter.probes(), 12));
    look.sees(agree(meter.scans(), 0));
    Ok(())
}

fn a_cell_goes_to_the_end_of_a_list(alloc: Global, look: &mut Look) -> Result<()> {
    look.part("a_cell_goes_to_the_end_of_a_list");
    let mut meter = Meter::new(alloc)?;
    let mut rings = Rings::<2>::new(alloc, &[2, 3], 4)?;
    link_three(&mut rings, &mut meter);
    rings.shift(0, 1, 3, &mut meter);
    look.sees(agree(meter.probes(), 12));
    look.sees(agree(rings.first(0, 1, &mut meter), Some(0)));
    look.sees(agree(rings.last(0, 1, &mut meter), Some(3)));
    look.sees(agree(rings.first(1, 2, &mut meter), Some(3)));
    look.sees(agree(meter.probes(), 15));
    Ok(())
}

// Where an allocation is refused, lists that are made again are as if nothing had been.
fn want_of_memory_changes_nothing(alloc: Global, look: &mut Look) -> Result<()> {
    look.part("want_of_memory_changes_nothing");
    let mut meter = meter_again(alloc)?;
    let mut rings = rings_again(alloc)?;
    link_three(&mut rings, &mut meter);
    look.sees(agree(rings.len(0, 1, &mut meter), 2));
    look.sees(agree(rings.first(0, 1, &mut meter), Some(3)));
    look.sees(agree(rings.next(0, 3, &mut meter), Some(0)));
    look.sees(agree(rings.head_of(1, 3, &mut meter), 2));
    look.sees(agree(meter.probes(), 10));
    Ok(())
}

/// Plays what there is memory for.
pub fn play(alloc: Global, look: &mut Look) -> Result<()> {
    cells_stand_in_one_list_of_each_family(alloc, look)?;
    each_end_of_a_list_is_one_probe(alloc, look)?;
    a_cell_leaves_one_family(alloc, look)?;
    a_cell_goes_to_the_end_of_a_list(alloc, look)
}

/// Plays what is made again where there was no memory.
pub fn again(alloc: Global, look: &mut Look) -> Result<()> {
    want_of_memory_changes_nothing(alloc, look)
}

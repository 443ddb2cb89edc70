//! Objects under their ids, and without memory.

use anyhow::Result;
use base::{Meter, NoMemory, ObjectId};
use containers::object_arena::Arena;
use happy_calls::look::{Look, agree};
use happy_calls::samples::meter_again;
use std::alloc::Global;

// Three slots, booted once more where the first boot had no memory.
fn booted_again(alloc: Global) -> Result<Arena<char>, NoMemory> {
    match Arena::boot(alloc, 3) {
        Ok(arena) => Ok(arena),
        Err(_) => Arena::boot(alloc, 3),
    }
}

fn objects_are_found_by_their_ids(alloc: Global, look: &mut Look) -> Result<()> {
    look.part("objects_are_found_by_their_ids");
    let mut meter = Meter::new(alloc)?;
    let mut arena = Arena::boot(alloc, 3)?;
    let first = arena.insert(ObjectId::new(4), 'a');
    let second = arena.insert(ObjectId::new(9), 'b');
    look.sees(agree(arena.len(), 2));
    look.sees(first != second);

    look.sees(agree(arena.find(ObjectId::new(9), &mut meter), Some(second)));
    look.sees(agree(arena.find(ObjectId::new(5), &mut meter), None));
    // Three slots are 11 in binary digits, so each finding has at most 3 probes.
    look.sees(meter.probes() <= 6);
    look.sees(agree(meter.scans(), 0));

    *arena.get_mut(second) = 'c';
    look.sees(agree(*arena.get(second), 'c'));
    look.sees(agree(*arena.get(first), 'a'));
    look.sees(agree(arena.id_at(1, &mut meter), ObjectId::new(9)));

    look.sees(agree(arena.remove(ObjectId::new(4), &mut meter), 'a'));
    look.sees(agree(arena.find(ObjectId::new(4), &mut meter), None));
    look.sees(agree(arena.find(ObjectId::new(9), &mut meter), Some(second)));
    look.sees(agree(arena.len(), 1));
    Ok(())
}

// Four slots have thirty-two places for hints: of 5, 37 and 69, which end alike, the first to come has the place.
fn an_id_is_found_by_its_hint_or_by_halves(alloc: Global, look: &mut Look) -> Result<()> {
    look.part("an_id_is_found_by_its_hint_or_by_halves");
    let mut meter = Meter::new(alloc)?;
    let mut arena = Arena::boot(alloc, 4)?;
    let first = arena.insert(ObjectId::new(5), 'a');
    let second = arena.insert(ObjectId::new(37), 'b');
    let third = arena.insert(ObjectId::new(69), 'c');
    look.sees(agree(arena.find(ObjectId::new(5), &mut meter), Some(first)));
    look.sees(agree(arena.peek(ObjectId::new(5), &mut meter), Some(first)));
    look.sees(agree(arena.peek(ObjectId::new(37), &mut meter), None));
    // A hint is one read.
    look.sees(agree(meter.probes(), 3));
    let five = ObjectId::new(5);
    look.sees(arena.peek_three(five, five, five, &mut meter).is_some());
    look.sees(agree(meter.probes(), 6));
    look.sees(agree(arena.find(ObjectId::new(37), &mut meter), Some(second)));
    look.sees(agree(arena.find(ObjectId::new(69), &mut meter), Some(third)));

    look.sees(agree(arena.remove(ObjectId::new(5), &mut meter), 'a'));
    look.sees(agree(arena.find(ObjectId::new(5), &mut meter), None));
    look.sees(agree(arena.find(ObjectId::new(69), &mut meter), Some(third)));
    Ok(())
}

fn objects_go_together(alloc: Global, look: &mut Look) -> Result<()> {
    look.part("objects_go_together");
    let mut meter = Meter::new(alloc)?;
    let mut arena = booted_again(alloc)?;
    arena.insert(ObjectId::new(4), 'a');
    let second = arena.insert(ObjectId::new(9), 'b');
    arena.insert(ObjectId::new(10), 'c');
    // 7 is the id of none.
    arena.remove_all(&[10, 7, 4].map(ObjectId::new), &mut meter);
    // The last place tells the last id by one probe; each other id takes this one and two by halves. Each slot that goes is
    // read once, and so is each of the three places.
    look.sees(agree(meter.probes(), 12));
    look.sees(agree(arena.len(), 1));
    look.sees(agree(arena.find(ObjectId::new(9), &mut meter), Some(second)));
    look.sees(agree(arena.find(ObjectId::new(4), &mut meter), None));
    look.sees(agree(arena.find(ObjectId::new(10), &mut meter), None));
    if let Some(slot) = arena.find(ObjectId::new(9), &mut meter) {
        look.sees(agree(*arena.get(slot), 'b'));
    }
    look.sees(agree(meter.scans(), 0));
    Ok(())
}

// Where an allocation is refused, an arena that is booted again is as if nothing had been.
fn want_of_memory_changes_nothing(alloc: Global, look: &mut Look) -> Result<()> {
    look.part("want_of_memory_changes_nothing");
    let mut meter = meter_again(alloc)?;
    let mut arena = booted_again(alloc)?;
    look.sees(agree(arena.len(), 0));
    let first = arena.insert(ObjectId::new(4), 'a');
    let second = arena.insert(ObjectId::new(9), 'b');
    look.sees(agree(arena.find(ObjectId::new(9), &mut meter), Some(second)));
    look.sees(agree(arena.find(ObjectId::new(5), &mut meter), None));
    look.sees(agree(*arena.get(first), 'a'));
    look.sees(agree(*arena.get(second), 'b'));
    look.sees(agree(arena.remove(ObjectId::new(4), &mut meter), 'a'));
    look.sees(agree(arena.len(), 1));
    Ok(())
}

/// Plays what there is memory for.
pub fn play(alloc: Global, look: &mut Look) -> Result<()> {
    objects_are_found_by_their_ids(alloc, look)?;
    an_id_is_found_by_its_hint_or_by_halves(alloc, look)?;
    objects_go_together(alloc, look)
}

/// Plays what is made again where there was no memory.
pub fn again(alloc: Global, look: &mut Look) -> Result<()> {
    want_of_memory_changes_nothing(alloc, look)
}

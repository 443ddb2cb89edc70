//! Ten thousand random calls on containers and on their twin.
use super::seen::{POOL, Seen, compare_seen};
use anyhow::Result;
use base::{NoMemory, ObjectId, Slot};
use containers_twin::{Guarded, Hierarchy, Twin};
use happy_calls::look::{Look, agree};
use std::alloc::Global;

const CALLS: usize = 10_000;

const SEED: u64 = 2006;

// How often at least each kind of call is to be made, and to be refused.
const ENOUGH: u32 = 100;

// How often at least three objects or more are to go at once, and an object is to stay since it is
// linked elsewhere.
const SOME: u32 = 50;

// The generator: x becomes 6364136223846793005 x + 1442695040888963407 modulo 2^64, and gives its
// upper 31 bits.
#[derive(Drop)]
struct Numbers {
    state: u64,
}

impl Numbers {
    fn next(&mut self) -> u64 {
        let scaled = self.state.wrapping_mul(6_364_136_223_846_793_005);
        self.state = scaled.wrapping_add(1_442_695_040_888_963_407);
        self.state >> 33
    }

    fn below(&mut self, end: u64) -> u64 {
        self.next() % end.max(1)
    }
}

// How often a kind of call was made, and how often it was refused.
#[derive(Clone, Copy)]
struct Tally {
    made: u32,
    refused: u32,
}

impl Tally {
    fn none() -> Tally {
        Tally {
            made: 0,
            refused: 0,
        }
    }

    fn count(&mut self, is_made: bool) {
        if is_made {
            self.made = self.made.saturating_add(1);
        } else {
            self.refused = self.refused.saturating_add(1);
        }
    }
}

#[derive(Drop)]
struct Storm {
    numbers: Numbers,
    guarded: Guarded,
    twin: Twin,
    // Above all ids that were given.
    next: u64,
    creates: Tally,
    links: Tally,
    unrefs: Tally,
    parents: Tally,
    entries: Tally,
    lives: Tally,
    // Unreferences at which three objects went or more, and those at which none did.
    deep: u32,
    kept: u32,
}

impl Storm {
    // An id: mostly one that is there.
    fn draw(&mut self) -> ObjectId {
        if self.numbers.below(8) == 0 {
            return ObjectId::new(self.numbers.below(self.next));
        }
        let place = self.numbers.below(self.twin.count() as u64) as usize;
        self.twin.live(place).unwrap_or(ObjectId::root())
    }

    // An id: mostly one that the container lists.
    fn draw_entry(&mut self, container: ObjectId) -> ObjectId {
        let mut window = [ObjectId::root(); POOL];
        let len = self.twin.entries(container, 0, &mut window).unwrap_or(0);
        let place = self.numbers.below(len as u64) as usize;
        if self.numbers.below(8) == 0 || place >= POOL {
            return self.draw();
        }
        window[place]
    }

    fn create(&mut self, look: &mut Look) -> Result<(), NoMemory> {
        let container = self.draw();
        let id = if self.numbers.below(8) == 0 {
            self.draw()
        } else {
            ObjectId::new(self.next.saturating_add(self.numbers.below(2)))
        };
        let is_made = self.guarded.create(container, id)?;
        look.sees(agree(self.twin.create(container, id)?, is_made));
        self.next = self.next.max(id.number().saturating_add(1));
        self.creates.count(is_made);
        Ok(())
    }

    fn link(&mut self, look: &mut Look) -> Result<(), NoMemory> {
        let container = self.draw();
        let object = self.draw();
        let is_made = self.guarded.link(container, object)?;
        look.sees(agree(self.twin.link(container, object)?, is_made));
        self.links.count(is_made);
        Ok(())
    }

    // The id and the slot of each object that is there.
    fn slots(&mut self) -> [(u64, usize); POOL] {
        let mut slots = [(0, 0); POOL];
        for place in 0..POOL {
            if let Some(id) = self.guarded.live(place) {
                let slot = self.guarded.slot(id).unwrap_or(Slot(POOL));
                slots[place] = (id.number(), slot.0);
            }
        }
        slots
    }

    fn unref(&mut self, look: &mut Look) -> Result<(), NoMemory> {
        let container = if self.numbers.below(4) == 0 {
            ObjectId::root()
        } else {
            self.draw()
        };
        let object = self.draw_entry(container);
        let slots = self.slots();
        let mut seen = Seen::new();
        let mut twin_seen = Seen::new();
        let is_made = self.guarded.unref(container, object, &mut seen)?;
        look.sees(agree(self.twin.unref(container, object, &mut twin_seen)?, is_made));
        compare_seen(look, &seen, &twin_seen);
        look.sees(agree(seen.link_count > 0, is_made));
        for i in 0..seen.object_count.min(POOL) {
            look.sees(slots.contains(&seen.objects[i]));
        }
        self.unrefs.count(is_made);
        if seen.object_count >= 3 {
            self.deep = self.deep.saturating_add(1);
        }
        if is_made && seen.object_count == 0 {
            self.kept = self.kept.saturating_add(1);
        }
        Ok(())
    }

    fn parent(&mut self, look: &mut Look) {
        let object = self.draw();
        let parent = self.guarded.parent(object);
        look.sees(agree(self.twin.parent(object), parent));
        self.parents.count(parent.is_some());
    }

    fn entries(&mut self, look: &mut Look) {
        let container = self.draw();
        let from = self.numbers.below(4) as usize;
        let width = self.numbers.below(POOL as u64) as usize;
        let mut one = [ObjectId::root(); POOL];
        let mut other = [ObjectId::root(); POOL];
        let count = self
            .guarded
            .entries(container, from, &mut one[..width.min(POOL)]);
        let twin_count = self
            .twin
            .entries(container, from, &mut other[..width.min(POOL)]);
        look.sees(agree(twin_count, count));
        look.sees(agree(other, one));
        self.entries.count(count.is_some());
    }

    fn live(&mut self, look: &mut Look) {
        let place = self.numbers.below(POOL as u64) as usize;
        let id = self.guarded.live(place);
        look.sees(agree(self.twin.live(place), id));
        self.lives.count(id.is_some());
    }

    // Both list the same, in the same order, and the object did not lose its record.
    fn compare_entries(&mut self, id: ObjectId, look: &mut Look) {
        let mut one = [ObjectId::root(); POOL];
        let mut other = [ObjectId::root(); POOL];
        let count = self.guarded.entries(id, 0, &mut one);
        look.sees(agree(self.twin.entries(id, 0, &mut other), count));
        look.sees(agree(other, one));
        look.sees(agree(self.twin.parent(id), self.guarded.parent(id)));
        look.sees(agree(self.guarded.record(id), Some(id.number())));
    }

    // The same objects are live, and have the same entries.
    fn compare(&mut self, look: &mut Look) {
        for place in 0..POOL {
            look.sees(agree(self.twin.live(place), self.guarded.live(place)));
            if let Some(id) = self.guarded.live(place) {
                self.compare_entries(id, look);
            }
        }
        look.sees(agree(self.twin.count(), self.guarded.count()));
    }

    fn play(&mut self, look: &mut Look) -> Result<(), NoMemory> {
        match self.numbers.below(14) {
            0..=3 => self.create(look)?,
            4..=7 => self.link(look)?,
            8 | 9 => self.unref(look)?,
            10 => self.parent(look),
            11 | 12 => self.entries(look),
            _ => self.live(look),
        }
        self.compare(look);
        Ok(())
    }
}

fn ten_thousand_calls_answer_as_the_twin(alloc: Global, look: &mut Look) -> Result<()> {
    look.part("ten_thousand_calls_answer_as_the_twin");
    let mut storm = Storm {
        numbers: Numbers { state: SEED },
        guarded: Guarded::boot(alloc, POOL)?,
        twin: Twin::boot(alloc, POOL)?,
        next: 2,
        creates: Tally::none(),
        links: Tally::none(),
        unrefs: Tally::none(),
        parents: Tally::none(),
        entries: Tally::none(),
        lives: Tally::none(),
        deep: 0,
        kept: 0,
    };
    for _ in 0..CALLS {
        storm.play(look)?;
    }
    let tallies = [
        ("create", storm.creates),
        ("link", storm.links),
        ("unref", storm.unrefs),
        ("parent", storm.parents),
        ("entries", storm.entries),
        ("live", storm.lives),
    ];
    for (call, tally) in tallies {
        look.sees(tally.made >= ENOUGH);
        look.sees(tally.refused >= ENOUGH);
    }
    look.sees(storm.deep >= SOME);
    look.sees(storm.kept >= SOME);
    Ok(())
}

/// Plays what there is memory for.
pub fn play(alloc: Global, look: &mut Look) -> Result<()> {
    ten_thousand_calls_answer_as_the_twin(alloc, look)
}

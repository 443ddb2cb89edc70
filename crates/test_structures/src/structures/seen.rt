//! What a visitor was handed.
use base::Meter;
use containers::{Located, Visitor};
use happy_calls::look::{Look, agree};

/// As many objects, and as many links.
pub const POOL: usize = 24;

/// What a visitor was handed by one call, as far as it has places, and how much that was.
#[derive(Drop)]
pub struct Seen {
    links: [(u64, u64); POOL],
    pub link_count: usize,
    pub objects: [(u64, usize); POOL],
    pub object_count: usize,
}

impl Seen {
    pub fn new() -> Seen {
        Seen {
            links: [(0, 0); POOL],
            link_count: 0,
            objects: [(0, 0); POOL],
            object_count: 0,
        }
    }

    fn times_link(&self, link: (u64, u64)) -> usize {
        let mut count = 0usize;
        for i in 0..self.link_count.min(POOL) {
            if self.links[i] == link {
                count = count.saturating_add(1);
            }
        }
        count
    }

    fn times_object(&self, id: u64) -> usize {
        let mut count = 0usize;
        for i in 0..self.object_count.min(POOL) {
            if self.objects[i].0 == id {
                count = count.saturating_add(1);
            }
        }
        count
    }
}

impl Visitor for Seen {
    ghost link_gives = { λ _ _ _ _. Unit {0} };

    ghost object_gives = { λ _ _ _. Unit {0} };

    fn link(&mut self, container: Located, object: Located) {
        if self.link_count < POOL {
            self.links[self.link_count] = (container.id.number(), object.id.number());
        }
        self.link_count = self.link_count.saturating_add(1);
    }

    fn object(&mut self, object: Located, _meter: &mut Meter) {
        if self.object_count < POOL {
            self.objects[self.object_count] = (object.id.number(), object.slot.0);
        }
        self.object_count = self.object_count.saturating_add(1);
    }
}

/// Both were handed the same links and the same objects, each once.
pub fn compare_seen(look: &mut Look, one: &Seen, other: &Seen) {
    look.sees(agree(one.link_count, other.link_count));
    look.sees(agree(one.object_count, other.object_count));
    look.sees(one.link_count <= POOL);
    look.sees(one.object_count <= POOL);
    for i in 0..one.link_count.min(POOL) {
        look.sees(agree(one.times_link(one.links[i]), 1));
        look.sees(agree(other.times_link(one.links[i]), 1));
    }
    for i in 0..one.object_count.min(POOL) {
        look.sees(agree(one.times_object(one.objects[i].0), 1));
        look.sees(agree(other.times_object(one.objects[i].0), 1));
    }
}

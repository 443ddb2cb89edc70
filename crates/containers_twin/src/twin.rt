//! The plain twin.

use crate::hierarchy::{Hierarchy, is_container};
use base::{Meter, NoMemory, ObjectId, Slot};
use containers::{Located, Visitor};
use std::alloc::Global;
use std::mem;

/// A container that lists an object.
#[derive(Clone, Copy, PartialEq, Eq, Debug)]
struct Link {
    container: ObjectId,
    object: ObjectId,
}

/// The ids that are there, rising, and all links in the order in which they were made. It has no slots, so it hands a
/// visitor slot 0 always. After want of memory it is not to be used again.
#[derive(Drop)]
pub struct Twin {
    alloc: Global,
    pool: usize,
    ids: Vec<ObjectId>,
    links: Vec<Link>,
}

// What a visitor is handed of an id.
fn place(id: ObjectId) -> Located {
    Located { id, slot: Slot(0) }
}

// The root, and what these ids list.
fn one_further(alloc: Global, links: &[Link], ids: &[ObjectId]) -> Result<Vec<ObjectId>, NoMemory> {
    let mut further = vec![in alloc; ObjectId::root()]?;
    for link in links {
        if ids.contains(&link.container) && !further.contains(&link.object) {
            further.push(link.object)?;
        }
    }
    Ok(further)
}

// What paths of links lead to from the root. No path needs more links than there are.
fn reached(alloc: Global, links: &[Link]) -> Result<Vec<ObjectId>, NoMemory> {
    let mut ids = vec![in alloc; ObjectId::root()]?;
    for _ in 0..links.len() {
        ids = one_further(alloc, links, &ids)?;
    }
    Ok(ids)
}

impl Twin {
    /// The root alone, in a pool of so many objects and as many links.
    pub fn boot(alloc: Global, pool: usize) -> Result<Twin, NoMemory> {
        let ids = vec![in alloc; ObjectId::root()]?;
        Ok(Twin {
            alloc,
            pool,
            ids,
            links: Vec::new(alloc),
        })
    }

    fn has(&self, id: ObjectId) -> bool {
        self.ids.contains(&id)
    }

    fn is_listed(&self, container: ObjectId, object: ObjectId) -> bool {
        self.links.contains(&Link { container, object })
    }

    fn has_room(&self) -> bool {
        self.links.len() < self.pool
    }

    // Keeps what is reached, and hands the rest over.
    fn keep_reached(
        &mut self,
        live: &[ObjectId],
        visitor: &mut impl Visitor,
    ) -> Result<(), NoMemory> {
        let mut links = Vec::new(self.alloc);
        for link in &self.links {
            if live.contains(&link.container) {
                links.push(*link)?;
            } else {
                visitor.link(place(link.container), place(link.object));
            }
        }
        let mut meter = Meter::new(self.alloc)?;
        let mut ids = Vec::new(self.alloc);
        for id in &self.ids {
            if live.contains(id) {
                ids.push(*id)?;
            } else {
                visitor.object(place(*id), &mut meter);
            }
        }
        self.links = links;
        self.ids = ids;
        Ok(())
    }
}

impl Hierarchy for Twin {
    fn create(&mut self, container: ObjectId, id: ObjectId) -> Result<bool, NoMemory> {
        let is_above = self.ids.iter().all(|other| *other < id);
        if !is_container(container) || !self.has(container) || !is_above {
            return Ok(false);
        }
        if self.ids.len() >= self.pool || !self.has_room() {
            return Ok(false);
        }
        self.ids.push(id)?;
        self.links.push(Link {
            container,
            object: id,
        })?;
        Ok(true)
    }

    fn link(&mut self, container: ObjectId, object: ObjectId) -> Result<bool, NoMemory> {
        if !is_container(container) || !self.has(container) || !self.has(object) {
            return Ok(false);
        }
        if object == ObjectId::root() || is_container(object) && object <= container {
            return Ok(false);
        }
        if self.is_listed(container, object) || !self.has_room() {
            return Ok(false);
        }
        self.links.push(Link { container, object })?;
        Ok(true)
    }

    fn unref<V: Visitor>(
        &mut self,
        container: ObjectId,
        object: ObjectId,
        visitor: &mut V,
    ) -> Result<bool, NoMemory> {
        let cut = Link { container, object };
        let mut rest = Vec::new(self.alloc);
        for link in &self.links {
            if *link != cut {
                rest.push(*link)?;
            }
        }
        if rest.len() == self.links.len() {
            return Ok(false);
        }
        visitor.link(place(container), place(object));
        let live = reached(self.alloc, &rest)?;
        let _old = mem::replace(&mut self.links, rest);
        self.keep_reached(&live, visitor)?;
        Ok(true)
    }

    fn parent(&mut self, object: ObjectId) -> Option<ObjectId> {
        let first = self.links.iter().find(|link| link.object == object);
        first.map(|link| link.container)
    }

    fn entries(&mut self, id: ObjectId, from: usize, window: &mut [ObjectId]) -> Option<usize> {
        if !self.has(id) {
            return None;
        }
        let listed = self.links.iter().filter(|link| link.container == id);
        for (cell, link) in window.iter_mut().zip(listed.skip(from)) {
            *cell = link.object;
        }
        let len = self
            .links
            .iter()
            .filter(|link| link.container == id)
            .count();
        Some(window.len().min(len.saturating_sub(from)))
    }

    fn count(&self) -> usize {
        self.ids.len()
    }

    fn live(&mut self, place: usize) -> Option<ObjectId> {
        self.ids.get(place).copied()
    }
}

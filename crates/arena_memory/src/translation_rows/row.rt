//! The row of one slot.
ghost use Rattle.std.specs.Prelude.{◌≡◌, ◌<◌, None, replicate, slice_index_or, slice_set};
ghost use Rattle.arena_memory.specs.Row.{shown_as, object_of, rights_of};

use base::{ObjectId, Rights};
use std::marker::Model;

/// A row: at each of sixteen places an object with the rights to it, or nothing. A contract sees the list of them.
#[derive(Drop)]
pub struct Row {
    objects: [ObjectId; 16],
    // None at a place that shows nothing.
    rights: [Option<Rights>; 16],
}

impl Model for Row {
    ghost use Rattle.std.specs.Prelude.{◌≡◌, ℕ, List, Option, length};
    ghost use Rattle.base.specs.declared.sets.Rights.{Rights};
    ghost use Rattle.arena_memory.specs.Row.{shows};

    ghost Value = { List (Option (ℕ × Rights)) };

    ghost view = { λ r. shows r.objects r.rights };

    ghost invariant = { λ r. (length r.objects ≡ 16) × (length r.rights ≡ 16) };
}

fn shown_as(object: ObjectId, rights: Option<Rights>) -> Option<(ObjectId, Rights)>
    ensures { result ≡ shown_as object rights }
{
    match rights {
        Some(rights) => Some((object, rights)),
        None => None,
    }
}

fn object_of(shown: &Option<(ObjectId, Rights)>) -> ObjectId
    ensures { result ≡ object_of shown.now }
{
    match shown {
        Some((object, _)) => *object,
        None => ObjectId::root(),
    }
}

fn rights_of(shown: &Option<(ObjectId, Rights)>) -> Option<Rights>
    ensures { result ≡ rights_of shown.now }
{
    match shown {
        Some((_, rights)) => Some(*rights),
        None => None,
    }
}

impl Row {
    /// Nothing at each place.
    pub fn blank() -> Row
        ensures { result ≡ replicate 16 None }
    {
        Row {
            objects: [ObjectId::root(); 16],
            rights: [None; 16],
        }
    }

    /// What a place shows.
    pub fn at(&self, place: usize) -> Option<(ObjectId, Rights)>
        requires { place < 16 }
        ensures { result ≡ slice_index_or self.now place None }
    {
        shown_as(self.objects[place], self.rights[place])
    }

    // Sets what a place shows. All others stay.
    fn put(&mut self, place: usize, shown: &Option<(ObjectId, Rights)>)
        requires { place < 16 }
        ensures { self.new ≡ slice_set self.old place shown.now }
    {
        self.objects[place] = object_of(shown);
        self.rights[place] = rights_of(shown);
    }

    /// Sets what each place shows.
    pub fn set(&mut self, shown: &[Option<(ObjectId, Rights)>; 16])
        ensures { self.new ≡ shown.now }
    {
        self.clear();
        for place in 0..16 {
            self.put(place, &shown[place]);
        }
    }

    /// Nothing is shown any more.
    pub fn clear(&mut self)
        ensures { self.new ≡ replicate 16 None }
    {
        *self = Row::blank();
    }
}

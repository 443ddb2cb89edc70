//! Rows of translation that are repaired after a change: those of the threads that it may touch
//! are remade, and all others stay. It touches no thread whose entry names no address space. No
//! label is scanned.
//!
//! They are found by a walk over the threads that are in an address space. A thread that is looked at takes 57 instructions,
//! and what its space maps some more. When a walk looked at the threads in no space too, a line of a script that maps or unmaps
//! took 5,400 instructions with one thread, 11,000 with 100 and 28,000 with 400.
ghost use Rattle.std.specs.Prelude.{◌≡◌};
ghost use Rattle.std.specs.List.{list_any};
ghost use Rattle.arena_state.specs.Shown.{AreKept, AreKeptBut};
ghost use Rattle.arena_state.specs.States.{state_of};
ghost use Rattle.arena_state.specs.Touched.{goes_by, is_same, maps, reaches, touches};

use crate::states::ArenaState;
use arena_memory::translation_rows::Rows;
use base::{Meter, ObjectId};
use kernel_rules::{Entry, Mapping};

/// A change of the state, as far as it may touch rows of translation.
#[derive(Clone, Copy)]
pub enum Change {
    /// A container lists one object more, by this entry, or one less, that is no container. It
    /// touches the threads whose address space has the entry, or maps something by it.
    Entry(Entry),
    /// A slot of this address space is set. It touches the threads in that space.
    Space(ObjectId),
    /// This object is immutable. It touches the threads whose address space maps it.
    Object(ObjectId),
    /// A container is gone, with what it listed. It touches all threads.
    All,
}

// Whether two entries are one.
fn is_same(one: &Entry, other: &Entry) -> bool
    ensures { result ≡ is_same one.now other.now }
{
    one.container == other.container && one.object == other.object
}

// Whether a mapping goes by an entry.
fn goes_by(mapping: &Option<Mapping>, entry: &Entry) -> bool
    ensures { result ≡ goes_by entry.now mapping.now }
{
    match mapping {
        None => false,
        Some(mapping) => is_same(&mapping.entry, entry),
    }
}

// Whether a mapping is of an object.
fn maps(mapping: &Option<Mapping>, object: ObjectId) -> bool
    ensures { result ≡ maps object mapping.now }
{
    match mapping {
        None => false,
        Some(mapping) => mapping.entry.object == object,
    }
}

// Whether one of these mappings goes by an entry.
fn some_goes_by(slots: &[Option<Mapping>], entry: &Entry) -> bool
    ensures { result ≡ list_any (goes_by entry.now) slots.now }
{
    slots.iter().any(|mapping| goes_by(mapping, entry))
}

// Whether one of these mappings is of an object.
fn some_maps(slots: &[Option<Mapping>], object: ObjectId) -> bool
    ensures { result ≡ list_any (maps object) slots.now }
{
    slots.iter().any(|mapping| maps(mapping, object))
}

impl ArenaState {
    // Whether a change touches the threads whose address space has an entry.
    fn reaches(&self, change: &Change, space: &Entry, meter: &mut Meter) -> bool
        ensures value { result ≡ reaches (state_of self.now) change.now space.now }
        ensures scans { meter.new.scans ≡ meter.old.scans }
    {
        match change {
            Change::Entry(entry) => {
                let at = self.find(space.object, meter);
                is_same(space, entry) || some_goes_by(self.slots(at, meter), entry)
            }
            Change::Space(id) => space.object == *id,
            Change::Object(id) => {
                let at = self.find(space.object, meter);
                some_maps(self.slots(at, meter), *id)
            }
            Change::All => true,
        }
    }

    // Whether a change touches a thread.
    fn is_touched(&self, thread: ObjectId, change: &Change, meter: &mut Meter) -> bool
        ensures value { result ≡ touches (state_of self.now) change.now thread }
        ensures scans { meter.new.scans ≡ meter.old.scans }
    {
        match self.space_of(thread, meter) {
            None => false,
            Some(space) => !space.names_none() && self.reaches(change, &space, meter),
        }
    }

    /// Where the rows of all threads but those that a change touches say what is shown after it,
    /// those are remade, and no other: so each row does. The walk leaves out the slots before the
    /// first that is named: a pool gives its last slots first, so threads that are made early have those.
    pub fn repair(&self, change: &Change, rows: &mut Rows, meter: &mut Meter)
        requires { AreKeptBut self.now change.now 0 rows.old }
        ensures kept { AreKept self.now rows.new }
        ensures scans { meter.new.scans ≡ meter.old.scans }
    {
        let mut from = rows.first();
        while let Some(found) = rows.next_thread(from, meter) {
            if self.is_touched(found.thread, change, meter) {
                self.remake_row(found.thread, rows, meter);
            }
            from = found.slot.0 + 1;
        }
    }
}

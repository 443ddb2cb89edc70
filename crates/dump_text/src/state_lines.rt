//! The lines that tell a checkpoint.

use crate::heads::Head;
use base::{Data, ObjectId};
use checkpoints::{FilledSlot, NextNumber};

/// The next id and the next category.
#[derive(Clone, Copy)]
pub struct Counters {
    /// The id of the next new object.
    pub next_id: u64,
    /// The next new category.
    pub next_category: u64,
}

/// An object before its parts, with its id.
#[derive(Clone, Copy)]
pub struct ObjectHead {
    /// Its id.
    pub id: ObjectId,
    /// What stands in its line.
    pub head: Head,
}

/// Bytes of a segment, from the last ones on: 64 in a dump.
#[derive(Clone, Copy)]
pub struct Row {
    pub bytes: Data,
}

/// What stands in a line after an object's own.
#[derive(Clone, Copy)]
pub enum Part {
    /// The next id that a container lists.
    Entry(ObjectId),
    /// The next bytes of a segment.
    Row(Row),
    /// The next filled slot of an address space.
    Slot(FilledSlot),
    /// The next packet of a device.
    Packet(Data),
}

/// A line of a checkpoint.
#[derive(Clone, Copy)]
pub enum StateLine {
    Counters(Counters),
    Object(ObjectHead),
    /// A part of the object before it.
    Part(Part),
    /// The number of a thread's next event, where that isn't 1.
    Next(NextNumber),
}

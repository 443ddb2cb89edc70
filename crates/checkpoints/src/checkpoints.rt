//! What a dump tells of the state that its events begin from, as it is written: labels, lists and
//! numbers of any kind.
use crate::slot_lists::SlotList;
use base::{Data, ObjectId, TypeSet};
use kernel_rules::{Bytes, Entry, IdList, Packets};
use label_lattice::RawLabel;
use std::marker::Model;

/// A thread, beside its label.
#[derive(Clone, Copy)]
pub struct RawThread {
    /// What its label may rise to.
    pub clearance: RawLabel,
    /// The label that it last proved at a gate.
    pub verify: RawLabel,
    /// The entry of its address space, (0, 0) for none.
    pub space: Entry,
    /// Where it runs.
    pub entry_point: u64,
    /// What it was handed by a gate.
    pub closure: u64,
}

/// A gate, beside its label.
#[derive(Clone, Copy)]
pub struct RawGate {
    /// What a thread's label has to be at most.
    pub clearance: RawLabel,
    /// The entry of an address space, (0, 0) for none.
    pub space: Entry,
    /// Where the thread runs.
    pub entry_point: u64,
    /// What it is handed.
    pub closure: u64,
}

/// What an object has that is no thread and no device.
#[derive(Clone, Copy)]
pub struct Attributes {
    /// It is read-only for good.
    pub immutable: bool,
    /// Its metadata: 64 bytes, where the checkpoint can be restored.
    pub metadata: Data,
}

/// What an object is by its kind.
#[derive(Drop)]
pub enum RawBody {
    /// The kinds that it won't hold, and the ids that it lists.
    Container(Attributes, TypeSet, IdList),
    /// Its bytes.
    Segment(Attributes, Bytes),
    /// Its filled slots.
    AddressSpace(Attributes, SlotList),
    /// A thread's state.
    Thread(RawThread),
    /// What it hands on.
    Gate(Attributes, RawGate),
    /// Its metadata, and the packets that wait, the first one first.
    Device(Data, Packets),
}

/// An object, as it is written.
#[derive(Drop)]
pub struct RawObject {
    /// Who may observe and modify it.
    pub label: RawLabel,
    /// What it may use, in pages of 256 bytes.
    pub quota: u32,
    /// Its quota never changes again.
    pub fixed: bool,
    /// What it is by its kind.
    pub body: RawBody,
}

/// An object with its id.
#[derive(Drop)]
pub struct Recorded {
    /// Its id.
    pub id: ObjectId,
    /// What it is.
    pub object: RawObject,
}

/// The number of a thread's next event, where that isn't 1.
#[derive(Clone, Copy)]
pub struct NextNumber {
    /// The thread, live or not.
    pub thread: ObjectId,
    /// The number: from 2, where the checkpoint can be restored.
    pub number: u64,
}

/// The state that a dump's events begin from, with the number of each thread's next event. A contract sees the lists.
#[derive(Drop)]
pub struct Checkpoint {
    /// The id of the next new object.
    pub next_id: u64,
    /// The next new category.
    pub next_category: u64,
    /// The objects.
    pub objects: Vec<Recorded>,
    /// The numbers of the next events that aren't 1.
    pub next: Vec<NextNumber>,
}

impl Model for Checkpoint {
    ghost use Rattle.checkpoints.specs.Checkpoint.{Checkpoint as Written};

    ghost Value = { Written };

    ghost view = { λ c. record {
      next_id = c.next_id;
      next_category = c.next_category;
      objects = c.objects.items;
      next = c.next.items;
    } };
}

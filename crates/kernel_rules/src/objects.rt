//! What the kernel keeps of an object.
ghost use Rattle.std.specs.Prelude.{◌≡◌};
ghost use Rattle.kernel_rules.specs.Changes.{fresh_object};

use crate::calls::Entry;
use crate::lists::{Bytes, IdList, Packets, Slots};
use base::{Data, Rights, TypeSet};
use label_lattice::Label;

/// Pages of a segment, of 256 bytes each, shown from a virtual page on (HiStar, OSDI 2006).
#[derive(Clone, Copy)]
pub struct Mapping {
    /// The first virtual page: the mapping ends at page 65,536 at most.
    pub page: u32,
    /// The segment, by the entry through which it is mapped.
    pub entry: Entry,
    /// The first page of the segment: with `count` at most 16.
    pub first: u32,
    /// How many pages: 1 to 16.
    pub count: u32,
    /// What may be done with them: at least one right.
    pub rights: Rights,
}

/// What a thread holds beside its label (HiStar, OSDI 2006).
#[derive(Clone, Copy)]
pub struct Thread {
    /// What its label may rise to.
    pub clearance: Label,
    /// The label that it last proved at a gate.
    pub verify: Label,
    /// The entry of its address space, (0, 0) for none.
    pub space: Entry,
    /// Where it runs: any number.
    pub entry_point: u64,
    /// What it was handed by a gate: any number.
    pub closure: u64,
}

/// What a gate hands to the thread that enters it, beside its label (HiStar, OSDI 2006).
#[derive(Clone, Copy)]
pub struct Gate {
    /// What a thread's label has to be at most.
    pub clearance: Label,
    /// The entry of an address space, (0, 0) for none.
    pub space: Entry,
    /// Where the thread runs: any number.
    pub entry_point: u64,
    /// What it is handed: any number.
    pub closure: u64,
}

/// What an object holds by its kind (HiStar, OSDI 2006).
#[derive(Drop)]
pub enum Body {
    /// The kinds that it won't hold, and the objects that it lists, in the order of their linking.
    Container(TypeSet, IdList),
    /// Its bytes: 0 to 16 pages of 256.
    Segment(Bytes),
    /// Its sixteen slots.
    AddressSpace(Slots),
    /// A thread's state.
    Thread(Thread),
    /// What it hands on.
    Gate(Gate),
    /// The packets that wait, the first one first: 0 to 4 of them, of 1 to 64 bytes each.
    Device(Packets),
}

/// An object (HiStar, OSDI 2006).
#[derive(Drop)]
pub struct Object {
    /// Who may observe and modify it.
    pub label: Label,
    /// What it may use, in pages of 256 bytes.
    pub quota: u32,
    /// Its quota never changes again, so it may be linked in a second container.
    pub fixed: bool,
    /// It is read-only for good.
    pub immutable: bool,
    /// 64 bytes for the callers' use, at first 0.
    pub metadata: Data,
    /// What it holds by its kind.
    pub body: Body,
}

/// A new object: nothing fixed, not immutable, its metadata 64 bytes of 0.
pub fn fresh_object(label: Label, quota: u32, body: Body) -> Object
    ensures { result ≡ fresh_object label quota body }
{
    Object {
        label,
        quota,
        fixed: false,
        immutable: false,
        metadata: Data::from_slice(&[0; 64]),
        body,
    }
}

//! What the calls that make an object are told of it.
use crate::calls::Entry;
use base::{ObjectId, TypeSet};
use label_lattice::RawLabel;

/// A new container, by `Call::ContainerCreate`.
#[derive(Clone, Copy)]
pub struct NewContainer {
    /// Where it is listed.
    pub container: ObjectId,
    /// Its label, which has no star.
    pub label: RawLabel,
    /// What it may use, in pages of 256 bytes: at least 1.
    pub quota: u32,
    /// The kinds that it won't hold, beside those that `container` avoids.
    pub avoid: TypeSet,
}

/// A new segment, by `Call::SegmentCreate`.
#[derive(Clone, Copy)]
pub struct NewSegment {
    /// Where it is listed.
    pub container: ObjectId,
    /// Its label, which has no star.
    pub label: RawLabel,
    /// What it may use, in pages of 256 bytes: at least one more than its length.
    pub quota: u32,
    /// Its length in pages of 256 bytes: 0 to 16.
    pub pages: u32,
}

/// A new segment that copies another, by `Call::SegmentCopy`.
#[derive(Clone, Copy)]
pub struct NewCopy {
    /// Where it is listed.
    pub container: ObjectId,
    /// Its label, which has no star.
    pub label: RawLabel,
    /// What it may use, in pages of 256 bytes: at least one more than the other's length.
    pub quota: u32,
    /// The segment that is copied.
    pub source: Entry,
}

/// A new address space, by `Call::AsCreate`.
#[derive(Clone, Copy)]
pub struct NewAddressSpace {
    /// Where it is listed.
    pub container: ObjectId,
    /// Its label, which has no star.
    pub label: RawLabel,
    /// What it may use, in pages of 256 bytes: at least 1.
    pub quota: u32,
}

/// A new thread, by `Call::ThreadCreate`.
#[derive(Clone, Copy)]
pub struct NewThread {
    /// Where it is listed.
    pub container: ObjectId,
    /// Its label, which may have star.
    pub label: RawLabel,
    /// What it may use, in pages of 256 bytes: at least 1.
    pub quota: u32,
    /// Its clearance.
    pub clearance: RawLabel,
    /// Where it runs: any number.
    pub entry_point: u64,
}

/// A new gate, by `Call::GateCreate`.
#[derive(Clone, Copy)]
pub struct NewGate {
    /// Where it is listed.
    pub container: ObjectId,
    /// Its label, which may have star.
    pub label: RawLabel,
    /// What it may use, in pages of 256 bytes: at least 1.
    pub quota: u32,
    /// What a thread's label has to be at most.
    pub clearance: RawLabel,
    /// The address space of a thread that enters, (0, 0) for none.
    pub space: Entry,
    /// Where the thread runs: any number.
    pub entry_point: u64,
    /// What it is handed: any number.
    pub closure: u64,
}

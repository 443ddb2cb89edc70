//! What stands of an object in its own line, before its parts.

use base::{Data, TypeSet};
use checkpoints::{Attributes, RawGate, RawThread};
use label_lattice::RawLabel;

/// What an object of any kind has.
#[derive(Clone, Copy)]
pub struct Common {
    /// Its label, as it is written.
    pub label: RawLabel,
    /// What it may use, in pages of 256 bytes.
    pub quota: u32,
    /// Its quota never changes again.
    pub fixed: bool,
}

/// A container, before what it lists.
#[derive(Clone, Copy)]
pub struct ContainerHead {
    pub common: Common,
    pub attributes: Attributes,
    /// The kinds that it won't hold.
    pub avoid: TypeSet,
}

/// A segment, before its bytes.
#[derive(Clone, Copy)]
pub struct SegmentHead {
    pub common: Common,
    pub attributes: Attributes,
    /// How many pages of 256 bytes it has: 0 to 16 in a dump.
    pub pages: usize,
}

/// An address space, before its slots.
#[derive(Clone, Copy)]
pub struct SpaceHead {
    pub common: Common,
    pub attributes: Attributes,
}

/// A thread.
#[derive(Clone, Copy)]
pub struct ThreadHead {
    pub common: Common,
    pub thread: RawThread,
}

/// A gate.
#[derive(Clone, Copy)]
pub struct GateHead {
    pub common: Common,
    pub attributes: Attributes,
    pub gate: RawGate,
}

/// A device, before its packets.
#[derive(Clone, Copy)]
pub struct DeviceHead {
    pub common: Common,
    /// Its metadata: 64 bytes in a dump.
    pub metadata: Data,
}

/// An object of some kind, before its parts.
#[derive(Clone, Copy)]
pub enum Head {
    Container(ContainerHead),
    Segment(SegmentHead),
    AddressSpace(SpaceHead),
    Thread(ThreadHead),
    Gate(GateHead),
    Device(DeviceHead),
}

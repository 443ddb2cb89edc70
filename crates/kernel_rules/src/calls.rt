//! What a thread asks of a machine.
ghost use Rattle.std.specs.Prelude.{◌≡◌};
ghost use Rattle.kernel_rules.specs.Translate.{names_none};

use crate::creations::{NewAddressSpace, NewContainer, NewCopy, NewGate, NewSegment, NewThread};
use crate::objects::Mapping;
use base::{Data, ObjectId};
use label_lattice::RawLabel;

/// How a call names an object: by a container, and an object in its list or the container itself
/// (HiStar, OSDI 2006).
#[derive(Clone, Copy)]
pub struct Entry {
    /// The container, which the calling thread has to observe.
    pub container: ObjectId,
    /// The object, which the container lists, or which is the container.
    pub object: ObjectId,
}

impl Entry {
    /// Whether both ids are 0, as of a thread that has no address space.
    pub fn names_none(&self) -> bool
        ensures { result ≡ names_none self.now }
    {
        self.container.number() == 0 && self.object.number() == 0
    }
}

/// A call that may change the state. A call that is refused changes nothing, and the refusal is the
/// one with the least number among the conditions of its row that hold. Each call may be refused by
/// `Halted`, and one that names an entry by `NoAccess` and `NoEntry`.
#[derive(Clone, Copy)]
pub enum Call {
    /// A new category, which the caller owns: star in its label, 3 in its clearance (HiStar, OSDI
    /// 2006). It is refused by `LabelFull` and `Spent`.
    CatCreate,
    /// The caller's label is another one, at least the old one and at most its clearance (HiStar,
    /// OSDI 2006). It is refused by `BadLabel` and `LabelRange`.
    SelfSetLabel {
        /// The new label.
        label: RawLabel,
    },
    /// The caller's clearance is another one, at least its label and at most the maximum of the old
    /// clearance and the label with star raised (HiStar, OSDI 2006). It is refused by `BadLabel`
    /// and `ClearanceRange`.
    SelfSetClearance {
        /// The new clearance.
        clearance: RawLabel,
    },
    /// The caller's address space is another one, or none for (0, 0) (HiStar, OSDI 2006). It is
    /// refused by `WrongType`.
    SelfSetAs {
        /// The address space.
        space: Entry,
    },
    /// A new container without entries, last in the list of a container (HiStar, OSDI 2006). It is
    /// refused by `NoAccess`, `CannotObserve`, `CannotModify`, `BadLabel`, `LabelRange`,
    /// `AvoidType`, `NoQuota`, `Immutable` and `Spent`.
    ContainerCreate(NewContainer),
    /// A new segment of zero bytes, last in the list of a container (HiStar, OSDI 2006). It is
    /// refused by what refuses a new container, and by `Bounds`.
    SegmentCreate(NewSegment),
    /// A new segment with the bytes of another, last in the list of a container (HiStar, OSDI
    /// 2006). It is refused by what refuses a new container, and by `NoEntry` and `WrongType`.
    SegmentCopy(NewCopy),
    /// A new address space of sixteen empty slots, last in the list of a container (HiStar, OSDI
    /// 2006). It is refused by what refuses a new container.
    AsCreate(NewAddressSpace),
    /// A new thread, last in the list of a container, with the verify label `{3}`, no address space
    /// and closure 0 (HiStar, OSDI 2006). It is refused by what refuses a new container, and by
    /// `ClearanceRange`.
    ThreadCreate(NewThread),
    /// A new gate, last in the list of a container (HiStar, OSDI 2006). It is refused by what
    /// refuses a new thread, and by `NoEntry` and `WrongType`.
    GateCreate(NewGate),
    /// A second link to an object whose quota is fixed, last in the list of a container, which is
    /// charged the object's whole quota (HiStar, OSDI 2006). It is refused by `WrongType` for a
    /// container, and by `CannotObserve`, `CannotModify`, `LabelRange`, `AvoidType`, `NoQuota`,
    /// `NotFixed`, `AlreadyLinked` and `Immutable`.
    Link {
        /// Where the object comes last.
        target: ObjectId,
        /// The object.
        entry: Entry,
    },
    /// The object is taken out of the container's list, and what no path from the root leads to is
    /// gone (HiStar, OSDI 2006). It is refused by `CannotObserve`, `CannotModify`, `RootKept` and
    /// `Immutable`.
    Unref {
        /// The object, which the container lists.
        entry: Entry,
    },
    /// The quota of an object in a container's list grows or shrinks (HiStar, OSDI 2006). It is
    /// refused by `CannotObserve`, `CannotModify`, `LabelRange`, `NoQuota`, `FixedQuota` and
    /// `Immutable`.
    QuotaMove {
        /// The object, which the container lists.
        entry: Entry,
        /// By how many pages of 256 bytes.
        change: i32,
    },
    /// The object's quota never changes again (HiStar, OSDI 2006). It is refused by
    /// `CannotObserve`, `CannotModify` and `Immutable`.
    SetFixed {
        /// The object.
        entry: Entry,
    },
    /// The object is read-only for good (HiStar, OSDI 2006). It is refused by `WrongType` for a
    /// thread or a device, and by `CannotObserve` and `CannotModify`.
    SetImmutable {
        /// The object.
        entry: Entry,
    },
    /// The object's metadata are these bytes and then zeros (HiStar, OSDI 2006). It is refused by
    /// `WrongType` for a thread, and by `CannotObserve`, `CannotModify` and `Immutable`.
    MetaSet {
        /// The object.
        entry: Entry,
        /// 0 to 64 bytes.
        data: Data,
    },
    /// A segment gets another length: what is cut off is gone, what is new is 0 (HiStar, OSDI
    /// 2006). It is refused by `WrongType`, `CannotObserve`, `CannotModify`, `NoQuota`, `Immutable`
    /// and `Bounds`.
    SegmentResize {
        /// The segment.
        entry: Entry,
        /// Its length in pages of 256 bytes: 0 to 16.
        pages: u32,
    },
    /// Bytes of a segment are written over, from an offset on (HiStar, OSDI 2006). It is refused by
    /// `WrongType`, `CannotObserve`, `CannotModify`, `Immutable` and `Bounds`.
    SegmentWrite {
        /// The segment.
        entry: Entry,
        /// The place of the first byte, from 0.
        offset: u32,
        /// 1 to 64 bytes that lie in one page of 256.
        data: Data,
    },
    /// A mapping in an empty slot of an address space (HiStar, OSDI 2006). It is refused by
    /// `WrongType`, `CannotObserve`, `CannotModify`, `Immutable`, `Bounds` and `Overlap`.
    AsMap {
        /// The address space.
        space: Entry,
        /// The slot: 0 to 15.
        slot: u32,
        /// The mapping: 1 to 16 pages of a segment, which end at page 65,536 at most.
        mapping: Mapping,
    },
    /// A filled slot of an address space is emptied (HiStar, OSDI 2006). It is refused by
    /// `WrongType`, `CannotObserve`, `CannotModify`, `Immutable`, `Bounds` and `NotMapped`.
    AsUnmap {
        /// The address space.
        space: Entry,
        /// The slot: 0 to 15.
        slot: u32,
    },
    /// Bytes are written through the caller's address space. It is refused by `Bounds`, `NotMapped`
    /// and `RightsDenied`.
    Store {
        /// The address of the first byte.
        address: u64,
        /// 1 to 64 bytes that lie in one page of 256.
        data: Data,
    },
    /// The caller enters a gate: it has the asked labels, and the gate's address space, entry point
    /// and closure (HiStar, OSDI 2006). It is refused by `WrongType`, `BadLabel` and `GateDenied`.
    GateEnter {
        /// The gate.
        gate: Entry,
        /// The caller's new label.
        label: RawLabel,
        /// Its new clearance.
        clearance: RawLabel,
        /// The label that it proves to the gate's owner.
        verify: RawLabel,
    },
    /// A packet, last in the device's queue. It is refused by `WrongType`, `CannotObserve`,
    /// `CannotModify`, `Bounds` and `DeviceFull`.
    DevSend {
        /// The device.
        entry: Entry,
        /// 1 to 64 bytes.
        data: Data,
    },
    /// The first packet of the device's queue, which is taken out. It is refused by `WrongType`,
    /// `CannotObserve`, `CannotModify` and `DeviceEmpty`.
    DevRecv {
        /// The device.
        entry: Entry,
    },
}

/// A call that changes nothing. Each may be refused by `Halted`, and one that names an entry by
/// `NoAccess` and `NoEntry`.
#[derive(Clone, Copy)]
pub enum Query {
    /// What the caller is: its label, clearance, verify label, address space, entry point and
    /// closure.
    SelfGet,
    /// The label of an object. It is refused by `CannotObserve` for a thread whose label the caller
    /// may not see (HiStar, OSDI 2006).
    ObjLabel {
        /// The object.
        entry: Entry,
    },
    /// The quota and the use of an object, in pages of 256 bytes, and whether its quota is fixed
    /// and it is immutable. It is refused by `CannotObserve`.
    ObjQuota {
        /// The object.
        entry: Entry,
    },
    /// The length of a container's list, and up to 16 of its ids. It is refused by `NoAccess`
    /// and `Bounds`.
    ContainerList {
        /// The container.
        container: ObjectId,
        /// The place of the first id, from 0.
        from: u32,
    },
    /// The container that lists a container; the root's is the root (HiStar, OSDI 2006). It is
    /// refused by `NoAccess`.
    ContainerParent {
        /// The container.
        container: ObjectId,
    },
    /// The length of a segment in pages of 256 bytes. It is refused by `WrongType` and
    /// `CannotObserve`.
    SegmentLen {
        /// The segment.
        entry: Entry,
    },
    /// Bytes of a segment, from an offset on (HiStar, OSDI 2006). It is refused by `WrongType`,
    /// `CannotObserve` and `Bounds`.
    SegmentRead {
        /// The segment.
        entry: Entry,
        /// The place of the first byte, from 0.
        offset: u32,
        /// How many: 1 to 64 bytes that lie in one page of 256.
        count: u32,
    },
    /// The 64 bytes of an object's metadata. It is refused by `WrongType` for a thread, and by
    /// `CannotObserve`.
    MetaGet {
        /// The object.
        entry: Entry,
    },
    /// What a slot of an address space maps, if anything. It is refused by `WrongType`,
    /// `CannotObserve` and `Bounds`.
    AsGet {
        /// The address space.
        space: Entry,
        /// The slot: 0 to 15.
        slot: u32,
    },
    /// Bytes read through the caller's address space. It is refused by `Bounds`, `NotMapped` and
    /// `RightsDenied`.
    Load {
        /// The address of the first byte.
        address: u64,
        /// How many: 1 to 64 bytes that lie in one page of 256.
        count: u32,
    },
}

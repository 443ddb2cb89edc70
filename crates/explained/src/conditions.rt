//! What can refuse a call: the conditions of the table of calls.
use base::{Kind, ObjectId};
use kernel_rules::{Entry, Mapping};
use label_lattice::RawLabel;

/// A right that a mapping gives.
#[derive(Clone, Copy)]
pub enum Right {
    /// To read through it.
    Read,
    /// To write through it.
    Write,
}

/// A condition, which refuses the call where it holds. Labels are as the caller hands them in.
#[derive(Clone, Copy)]
pub enum Condition {
    /// The caller is no live thread.
    Halted,
    /// This is no live container that the thread observes.
    NotAccessible(ObjectId),
    /// The entry does not stand.
    NotHeld(Entry),
    /// The container does not list the object.
    NotListed(Entry),
    /// The container does not list the object, and the entry is not that of the root in itself.
    NotLinked(Entry),
    /// The container lists the object.
    Listed(ObjectId, ObjectId),
    /// The entry is that of the root in itself.
    Root(Entry),
    /// The object has another kind than this.
    NotOfKind(Kind, ObjectId),
    /// The object has this kind.
    OfKind(Kind, ObjectId),
    /// The thread does not observe the object.
    NotObserved(ObjectId),
    /// The thread's label is not at most the object's.
    NotFlowing(ObjectId),
    /// The object is a thread, whose label is not shown to the caller.
    NotShown(ObjectId),
    /// The label can't be stored, or has a category that nobody made.
    BadLabel(RawLabel),
    /// The label can't be stored, has a category that nobody made, or has a star.
    BadOrStarred(RawLabel),
    /// The label is not at least the thread's.
    BelowThread(RawLabel),
    /// The label is not at least the thread's, or not at most its clearance.
    OutOfRange(RawLabel),
    /// The clearance, told second, is not at least the label, or not at most the thread's clearance.
    OutOfClearance(RawLabel, RawLabel),
    /// The clearance can't be the thread's own.
    NotClearable(RawLabel),
    /// The object's label is not at most the thread's clearance.
    AboveClearance(ObjectId),
    /// The container avoids this kind.
    Avoided(Kind, ObjectId),
    /// The container, told first, avoids the kind of the object.
    KindAvoided(ObjectId, ObjectId),
    /// The number, told first, is above the most that it may be.
    Above(u64, u64),
    /// The number is 0.
    Zero(u64),
    /// So many pages more are above the container's quota.
    Overfull(ObjectId, u32),
    /// A change of the object's quota by so many pages has no room.
    WithoutRoom(Entry, i32),
    /// The object is read-only for good.
    Immutable(ObjectId),
    /// The object's quota never changes again.
    Fixed(ObjectId),
    /// The object's quota may still change.
    NotFixed(ObjectId),
    /// All ids were given.
    IdsSpent,
    /// All categories were made.
    CategoriesSpent,
    /// The thread's label or clearance has no room for one more category.
    LabelFull,
    /// From the place, told first, on these are not 1 to 64 bytes of one page.
    NotShaped(u64, u32),
    /// The mapping can't stand in the slot.
    NotMapping(u32, Mapping),
    /// The slot of the address space maps something, or another slot maps one of the mapping's pages.
    Overlapping(ObjectId, u32, Mapping),
    /// The slot of the address space maps nothing.
    SlotEmpty(ObjectId, u32),
    /// The address is in no mapping that the thread can use.
    NotMapped(u64),
    /// The address is in no mapping that the thread can use, or that does not give this right.
    NotAllowed(u64, Right),
    /// The gate does not let the thread in with this label, clearance and verify label.
    NotAdmitted(ObjectId, RawLabel, RawLabel, RawLabel),
    /// Four packets wait in the device.
    QueueFull(ObjectId),
    /// No packet waits in the device.
    QueueEmpty(ObjectId),
}

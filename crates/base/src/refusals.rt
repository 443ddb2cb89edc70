//! Why a call was refused.
ghost use Rattle.std.specs.Prelude.{◌≡◌};
ghost use Rattle.base.specs.Refusal.{told_as, lesser};

/// Why a call was refused. Those from 1 to 25 are a kernel's, the others of the layers above it. Of the conditions that
/// hold for a call, the one with the least number gives the refusal.
#[derive(Clone, Copy, PartialEq, Eq, Debug)]
pub enum Refusal {
    /// 1: the caller is not a live thread.
    Halted,
    /// 2: no live container that the thread can observe.
    NoAccess,
    /// 3: no such entry in the container.
    NoEntry,
    /// 4: an object of the wrong kind.
    WrongType,
    /// 5: the thread cannot observe the object.
    CannotObserve,
    /// 6: the thread cannot modify the object.
    CannotModify,
    /// 7: a raw label that cannot be stored here.
    BadLabel,
    /// 8: a label outside the thread's label and clearance.
    LabelRange,
    /// 9: a clearance outside its range.
    ClearanceRange,
    /// 10: a label would have over 16 exceptions.
    LabelFull,
    /// 11: the container avoids this kind.
    AvoidType,
    /// 12: the quota does not suffice.
    NoQuota,
    /// 13: the quota is fixed.
    FixedQuota,
    /// 14: the quota is not fixed.
    NotFixed,
    /// 15: the container links the object already.
    AlreadyLinked,
    /// 16: the root is never unreferenced.
    RootKept,
    /// 17: the object is read-only for good.
    Immutable,
    /// 18: a number outside its range.
    Bounds,
    /// 19: no live mapping at the address.
    NotMapped,
    /// 20: the mapping lacks the right.
    RightsDenied,
    /// 21: the slot is filled, or the range meets another.
    Overlap,
    /// 22: a gate rule does not hold.
    GateDenied,
    /// 23: four packets wait.
    DeviceFull,
    /// 24: no packet waits.
    DeviceEmpty,
    /// 25: the counter is spent.
    Spent,
    /// 30: boot found no memory, or no place for a reader.
    Unavailable,
    /// 31: limits out of range.
    BadLimits,
    /// 40: no memory for the event.
    Memory,
    /// 41: the thread has had a seat.
    SeatTaken,
    /// 42: not a live thread.
    NoThread,
    /// 43: 64 seats were opened.
    SeatsSpent,
    /// 44: the seat's number is not its thread's next.
    OutOfTurn,
    /// 45: a batch of no call, or of more than 16.
    BadBatch,
    /// 46: the published copies let no reader in.
    Unread,
    /// 50: a text that is no spelling.
    TextFault,
    /// 51: no memory for the text.
    TextMemory,
    /// 60: a checkpoint that cannot be restored.
    IllFormed,
    /// 61: not of the first dump format.
    NotFormat1,
    /// 62: a dump that is not clean.
    NotClean,
}

impl Refusal {
    /// The refusal's number, from 1 to 62.
    pub fn number(self) -> u8
        ensures { result ≡ (told_as self).number }
    {
        match self {
            Refusal::Halted => 1,
            Refusal::NoAccess => 2,
            Refusal::NoEntry => 3,
            Refusal::WrongType => 4,
            Refusal::CannotObserve => 5,
            Refusal::CannotModify => 6,
            Refusal::BadLabel => 7,
            Refusal::LabelRange => 8,
            Refusal::ClearanceRange => 9,
            Refusal::LabelFull => 10,
            Refusal::AvoidType => 11,
            Refusal::NoQuota => 12,
            Refusal::FixedQuota => 13,
            Refusal::NotFixed => 14,
            Refusal::AlreadyLinked => 15,
            Refusal::RootKept => 16,
            Refusal::Immutable => 17,
            Refusal::Bounds => 18,
            Refusal::NotMapped => 19,
            Refusal::RightsDenied => 20,
            Refusal::Overlap => 21,
            Refusal::GateDenied => 22,
            Refusal::DeviceFull => 23,
            Refusal::DeviceEmpty => 24,
            Refusal::Spent => 25,
            Refusal::Unavailable => 30,
            Refusal::BadLimits => 31,
            Refusal::Memory => 40,
            Refusal::SeatTaken => 41,
            Refusal::NoThread => 42,
            Refusal::SeatsSpent => 43,
            Refusal::OutOfTurn => 44,
            Refusal::BadBatch => 45,
            Refusal::Unread => 46,
            Refusal::TextFault => 50,
            Refusal::TextMemory => 51,
            Refusal::IllFormed => 60,
            Refusal::NotFormat1 => 61,
            Refusal::NotClean => 62,
        }
    }

    /// The refusal's name, as texts print it.
    pub fn name(self) -> &'static str
        ensures { result.now ≡ (told_as self).name }
    {
        match self {
            Refusal::Halted => "Halted",
            Refusal::NoAccess => "NoAccess",
            Refusal::NoEntry => "NoEntry",
            Refusal::WrongType => "WrongType",
            Refusal::CannotObserve => "CannotObserve",
            Refusal::CannotModify => "CannotModify",
            Refusal::BadLabel => "BadLabel",
            Refusal::LabelRange => "LabelRange",
            Refusal::ClearanceRange => "ClearanceRange",
            Refusal::LabelFull => "LabelFull",
            Refusal::AvoidType => "AvoidType",
            Refusal::NoQuota => "NoQuota",
            Refusal::FixedQuota => "FixedQuota",
            Refusal::NotFixed => "NotFixed",
            Refusal::AlreadyLinked => "AlreadyLinked",
            Refusal::RootKept => "RootKept",
            Refusal::Immutable => "Immutable",
            Refusal::Bounds => "Bounds",
            Refusal::NotMapped => "NotMapped",
            Refusal::RightsDenied => "RightsDenied",
            Refusal::Overlap => "Overlap",
            Refusal::GateDenied => "GateDenied",
            Refusal::DeviceFull => "DeviceFull",
            Refusal::DeviceEmpty => "DeviceEmpty",
            Refusal::Spent => "Spent",
            Refusal::Unavailable => "Unavailable",
            Refusal::BadLimits => "BadLimits",
            Refusal::Memory => "Memory",
            Refusal::SeatTaken => "SeatTaken",
            Refusal::NoThread => "NoThread",
            Refusal::SeatsSpent => "SeatsSpent",
            Refusal::OutOfTurn => "OutOfTurn",
            Refusal::BadBatch => "BadBatch",
            Refusal::Unread => "Unread",
            Refusal::TextFault => "TextFault",
            Refusal::TextMemory => "TextMemory",
            Refusal::IllFormed => "IllFormed",
            Refusal::NotFormat1 => "NotFormat1",
            Refusal::NotClean => "NotClean",
        }
    }

    /// The one with the smaller number.
    pub fn lesser(self, other: Refusal) -> Refusal
        ensures { result ≡ lesser self other }
    {
        if self.number() <= other.number() {
            self
        } else {
            other
        }
    }
}

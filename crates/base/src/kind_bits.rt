//! A set of kinds as a set of named bits, one to each kind, so that no other bit is in one.
ghost use Rattle.std.specs.Prelude.{◌≡◌, ◌&&◌, ◌||◌, ⊤};
ghost use Rattle.base.specs.Digits.{one_of};
ghost use Rattle.base.specs.SetBits.{other_types, types_bits, types_by, types_table, without};
ghost use Rattle.base.specs.SetBitLaws.{types_and, types_eq, types_not, types_or, types_xor};

use crate::sets::TypeSet;
use bitflags::iter::Iter;
use bitflags::{Bits, Flag, Flags};
use std::ops::{BitAnd, BitOr, BitXor, Not, Sub};

impl BitAnd for TypeSet {
    type Output = TypeSet;

    ghost bitand_gives = { λ a b r. r ≡ types_by ◌&&◌ a b };

    fn bitand(self, other: TypeSet) -> TypeSet {
        TypeSet {
            container: self.container & other.container,
            segment: self.segment & other.segment,
            address_space: self.address_space & other.address_space,
            thread: self.thread & other.thread,
            gate: self.gate & other.gate,
            device: self.device & other.device,
        }
    }
}

impl BitOr for TypeSet {
    type Output = TypeSet;

    ghost bitor_gives = { λ a b r. r ≡ types_by ◌||◌ a b };

    fn bitor(self, other: TypeSet) -> TypeSet {
        TypeSet {
            container: self.container | other.container,
            segment: self.segment | other.segment,
            address_space: self.address_space | other.address_space,
            thread: self.thread | other.thread,
            gate: self.gate | other.gate,
            device: self.device | other.device,
        }
    }
}

impl BitXor for TypeSet {
    type Output = TypeSet;

    ghost bitxor_gives = { λ a b r. r ≡ types_by one_of a b };

    fn bitxor(self, other: TypeSet) -> TypeSet {
        TypeSet {
            container: self.container ^ other.container,
            segment: self.segment ^ other.segment,
            address_space: self.address_space ^ other.address_space,
            thread: self.thread ^ other.thread,
            gate: self.gate ^ other.gate,
            device: self.device ^ other.device,
        }
    }
}

impl Not for TypeSet {
    type Output = TypeSet;

    ghost not_gives = { λ a r. r ≡ other_types a };

    fn not(self) -> TypeSet {
        TypeSet {
            container: !self.container,
            segment: !self.segment,
            address_space: !self.address_space,
            thread: !self.thread,
            gate: !self.gate,
            device: !self.device,
        }
    }
}

impl Sub for TypeSet {
    type Output = TypeSet;

    ghost sub_gives = { λ a b r. r ≡ types_by without a b };

    fn sub(self, other: TypeSet) -> TypeSet {
        TypeSet {
            container: self.container & !other.container,
            segment: self.segment & !other.segment,
            address_space: self.address_space & !other.address_space,
            thread: self.thread & !other.thread,
            gate: self.gate & !other.gate,
            device: self.device & !other.device,
        }
    }
}

impl Bits for TypeSet {
    ghost pattern = { types_bits };

    ghost size = { 6 };

    fn empty() -> TypeSet {
        TypeSet::none()
    }

    fn all() -> TypeSet {
        !TypeSet::none()
    }

    ghost can_law = { λ a b. (tt, tt, tt) };

    ghost can_not_law = { λ a. tt };

    ghost and_law = { types_and };

    ghost or_law = { types_or };

    ghost xor_law = { types_xor };

    ghost not_law = { types_not };

    ghost eq_law = { types_eq };
}

impl TypeSet {
    /// Container alone.
    pub const CONTAINER: TypeSet = TypeSet {
        container: true,
        segment: false,
        address_space: false,
        thread: false,
        gate: false,
        device: false,
    };

    /// Segment alone.
    pub const SEGMENT: TypeSet = TypeSet {
        container: false,
        segment: true,
        address_space: false,
        thread: false,
        gate: false,
        device: false,
    };

    /// Address space alone.
    pub const ADDRESS_SPACE: TypeSet = TypeSet {
        container: false,
        segment: false,
        address_space: true,
        thread: false,
        gate: false,
        device: false,
    };

    /// Thread alone.
    pub const THREAD: TypeSet = TypeSet {
        container: false,
        segment: false,
        address_space: false,
        thread: true,
        gate: false,
        device: false,
    };

    /// Gate alone.
    pub const GATE: TypeSet = TypeSet {
        container: false,
        segment: false,
        address_space: false,
        thread: false,
        gate: true,
        device: false,
    };

    /// Device alone.
    pub const DEVICE: TypeSet = TypeSet {
        container: false,
        segment: false,
        address_space: false,
        thread: false,
        gate: false,
        device: true,
    };

    /// Each with its name.
    pub const FLAGS: &'static [Flag<TypeSet>] = &[
        Flag {
            name: "CONTAINER",
            value: TypeSet::CONTAINER,
        },
        Flag {
            name: "SEGMENT",
            value: TypeSet::SEGMENT,
        },
        Flag {
            name: "ADDRESS_SPACE",
            value: TypeSet::ADDRESS_SPACE,
        },
        Flag {
            name: "THREAD",
            value: TypeSet::THREAD,
        },
        Flag {
            name: "GATE",
            value: TypeSet::GATE,
        },
        Flag {
            name: "DEVICE",
            value: TypeSet::DEVICE,
        },
    ];
}

impl Flags for TypeSet {
    type Bits = TypeSet;

    ghost exact = { ⊤ };

    ghost table = { types_table };

    ghost set_of = { types_bits };

    fn flags<'a>() -> &'a [Flag<TypeSet>] {
        TypeSet::FLAGS
    }

    fn bits(&self) -> TypeSet {
        *self
    }

    fn from_bits_retain(bits: TypeSet) -> TypeSet {
        bits
    }
}

/// Each kind of the set, as a set of its own.
impl IntoIterator for TypeSet {
    type Item = TypeSet;

    type IntoIter = Iter<TypeSet>;

    fn into_iter(self) -> Iter<TypeSet> {
        self.iter()
    }
}

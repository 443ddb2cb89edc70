//! A set of rights as a set of named bits, one to each right, so that no other bit is in one.
ghost use Rattle.std.specs.Prelude.{◌≡◌, ◌&&◌, ◌||◌, ⊤};
ghost use Rattle.base.specs.Digits.{one_of};
ghost use Rattle.base.specs.SetBits.{other_rights, rights_bits, rights_by, rights_table, without};
ghost use Rattle.base.specs.SetBitLaws.{rights_and, rights_eq, rights_not, rights_or, rights_xor};

use crate::sets::Rights;
use bitflags::iter::Iter;
use bitflags::{Bits, Flag, Flags};
use std::ops::{BitAnd, BitOr, BitXor, Not, Sub};

impl BitAnd for Rights {
    type Output = Rights;

    ghost bitand_gives = { λ a b r. r ≡ rights_by ◌&&◌ a b };

    fn bitand(self, other: Rights) -> Rights {
        Rights {
            read: self.read & other.read,
            write: self.write & other.write,
        }
    }
}

impl BitOr for Rights {
    type Output = Rights;

    ghost bitor_gives = { λ a b r. r ≡ rights_by ◌||◌ a b };

    fn bitor(self, other: Rights) -> Rights {
        Rights {
            read: self.read | other.read,
            write: self.write | other.write,
        }
    }
}

impl BitXor for Rights {
    type Output = Rights;

    ghost bitxor_gives = { λ a b r. r ≡ rights_by one_of a b };

    fn bitxor(self, other: Rights) -> Rights {
        Rights {
            read: self.read ^ other.read,
            write: self.write ^ other.write,
        }
    }
}

impl Not for Rights {
    type Output = Rights;

    ghost not_gives = { λ a r. r ≡ other_rights a };

    fn not(self) -> Rights {
        Rights {
            read: !self.read,
            write: !self.write,
        }
    }
}

impl Sub for Rights {
    type Output = Rights;

    ghost sub_gives = { λ a b r. r ≡ rights_by without a b };

    fn sub(self, other: Rights) -> Rights {
        Rights {
            read: self.read & !other.read,
            write: self.write & !other.write,
        }
    }
}

impl Bits for Rights {
    ghost pattern = { rights_bits };

    ghost size = { 2 };

    fn empty() -> Rights {
        Rights::none()
    }

    fn all() -> Rights {
        !Rights::none()
    }

    ghost can_law = { λ a b. (tt, tt, tt) };

    ghost can_not_law = { λ a. tt };

    ghost and_law = { rights_and };

    ghost or_law = { rights_or };

    ghost xor_law = { rights_xor };

    ghost not_law = { rights_not };

    ghost eq_law = { rights_eq };
}

impl Rights {
    /// Read alone.
    pub const READ: Rights = Rights {
        read: true,
        write: false,
    };

    /// Write alone.
    pub const WRITE: Rights = Rights {
        read: false,
        write: true,
    };

    /// Each with its name.
    pub const FLAGS: &'static [Flag<Rights>] = &[
        Flag {
            name: "READ",
            value: Rights::READ,
        },
        Flag {
            name: "WRITE",
            value: Rights::WRITE,
        },
    ];
}

impl Flags for Rights {
    type Bits = Rights;

    ghost exact = { ⊤ };

    ghost table = { rights_table };

    ghost set_of = { rights_bits };

    fn flags<'a>() -> &'a [Flag<Rights>] {
        Rights::FLAGS
    }

    fn bits(&self) -> Rights {
        *self
    }

    fn from_bits_retain(bits: Rights) -> Rights {
        bits
    }
}

/// Each right of the set, as a set of its own.
impl IntoIterator for Rights {
    type Item = Rights;

    type IntoIter = Iter<Rights>;

    fn into_iter(self) -> Iter<Rights> {
        self.iter()
    }
}

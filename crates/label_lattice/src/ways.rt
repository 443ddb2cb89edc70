//! How the levels of one category compare, each way.
ghost use Rattle.std.specs.Prelude.{◌≡◌};
ghost use Rattle.label_lattice.specs.Ways.{both_bits};

use base::Level;

/// How two labels compare, each way, as two sums of bits: 1 where the one is at most the other at
/// each category, 2 where it is once the other's star is raised above all levels, 4 where it is once
/// the star of both is raised (this profile's numbers).
#[derive(Clone, Copy, PartialEq, Eq, Debug)]
pub struct BothWays {
    /// Of the first label against the second.
    pub forth: u8,
    /// Of the second label against the first.
    pub back: u8,
}

/// How two levels compare: a row for each level of the first label from star on, in it a number for
/// each level of the second. Each is the sum of the bits forth, and eight times those back.
static HELD: [u8; 25] = [
    63, 51, 51, 51, 51, //
    30, 63, 7, 7, 7, //
    30, 56, 63, 7, 7, //
    30, 56, 56, 63, 7, //
    30, 56, 56, 56, 63,
];

/// How the levels of one category compare, as one sum: the bits forth, and eight times those back.
#[inline(always)]
pub fn compare_levels(a: Level, b: Level) -> u8
    ensures { result ≡ both_bits a b }
{
    HELD[5 * usize::from(a.rank()) + usize::from(b.rank())]
}

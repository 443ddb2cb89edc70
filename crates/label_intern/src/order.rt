//! How two labels compare.

/// How a label A compares with another B, as a sum of bits, 0 to 7: 1 where A is at most B at each category, 2 where it
/// is once B's star is raised above all levels, 4 where it is once the star of both is raised.
#[derive(Clone, Copy, PartialEq, Eq, Debug)]
pub struct OrderBits(pub u8);

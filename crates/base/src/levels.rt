//! The levels that a label gives to categories.
ghost use Rattle.std.specs.Prelude.{◌≡◌};
ghost use Rattle.base.specs.Level.{rank_of};

/// A level of a stored label. `Star` is ownership (HiStar, OSDI 2006).
#[derive(Clone, Copy, PartialEq, Eq, Debug)]
pub enum Level {
    /// Ownership, the least level.
    Star,
    /// 0.
    L0,
    /// 1.
    L1,
    /// 2.
    L2,
    /// 3, the greatest level.
    L3,
}

impl Level {
    /// The level's place in the order, from 0 for `Star` to 4 for `L3`.
    pub fn rank(self) -> u8
        ensures { result ≡ rank_of self }
    {
        match self {
            Level::Star => 0,
            Level::L0 => 1,
            Level::L1 => 2,
            Level::L2 => 3,
            Level::L3 => 4,
        }
    }
}

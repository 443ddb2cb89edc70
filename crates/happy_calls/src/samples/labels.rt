//! Labels as they are asked for.
use base::{Category, Level};
use label_lattice::{Pair, RawLabel};

/// A category, by its number, at a level.
pub fn pair(category: u64, level: Level) -> Pair {
    Pair {
        category: Category(category),
        level,
    }
}

/// The label that is at this level everywhere.
pub fn everywhere(level: Level) -> RawLabel {
    RawLabel::new(level, &[])
}

/// The label that is at level 1 everywhere.
pub fn plain() -> RawLabel {
    everywhere(Level::L1)
}

/// The label with category 1 at a level, and this default.
pub fn label_with(level: Level, default: Level) -> RawLabel {
    RawLabel::new(default, &[pair(1, level)])
}

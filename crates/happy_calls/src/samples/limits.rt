//! What kernels are booted with.
use base::{Level, Limits};

/// The limits of most scenes: 64 pages, and the first ids.
pub const LIMITS: Limits = Limits {
    pages: 64,
    device: Level::L1,
    next_id: 4,
    next_category: 1,
};

/// The same with the fewest pages that there can be.
pub const EIGHT_PAGES: Limits = Limits { pages: 8, ..LIMITS };

/// The same with the most pages that there can be.
pub const MOST_PAGES: Limits = Limits {
    pages: 1024,
    ..LIMITS
};

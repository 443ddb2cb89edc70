//! The segment that is written and read, and how both are asked for.
use crate::asked::{everywhere, new_segment, read, write};
use base::{Level, Limits, ObjectId};
use kernel_rules::{Call, Query};

/// The limits of all kernels here.
pub const LIMITS: Limits = Limits {
    pages: 512,
    device: Level::L1,
    next_id: 4,
    next_category: 1,
};

// The first object that is made.
fn segment() -> ObjectId {
    ObjectId::new(4)
}

/// A call that makes a segment of a page.
pub fn new_page() -> Call {
    new_segment(&everywhere(Level::L1), 1)
}

/// A write and a read of 64 bytes of the segment.
#[derive(Clone, Copy)]
pub struct Both {
    /// The write.
    pub call: Call,
    /// The read.
    pub query: Query,
}

impl Both {
    /// Both.
    pub fn new() -> Both {
        Both {
            call: write(segment()),
            query: read(segment()),
        }
    }
}

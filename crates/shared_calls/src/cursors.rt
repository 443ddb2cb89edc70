//! How far a list was seen.
ghost use Rattle.std.specs.Prelude.{◌≡◌, ◌+◌, ◌<◌, length, IfOk};
ghost use Rattle.shared_calls.specs.Cursors.{IsPlaced};
ghost use Rattle.shared_calls.specs.Seats.{Has};

use crate::blocks::Block;
use crate::rules::Prefix;
use base::NoMemory;
use std::sync::Arc;

/// How far a list was seen: a beginning of it, and the place that comes next.
#[derive(Drop)]
pub(crate) struct Cursor {
    /// How many batches were seen.
    pub(crate) count: usize,
    /// These batches.
    pub(crate) seen: Prefix,
    /// The block of the next place, or of the one before it.
    pub(crate) block: Arc<Block>,
    /// Where in the block the next place is; 256 where it is in the block after it.
    pub(crate) at: usize,
}

impl Cursor {
    /// The same once more. The error is want of memory.
    pub(crate) fn again(&self) -> Result<Cursor, NoMemory>
        requires { IsPlaced self.now }
        ensures placed { IfOk result (λ cursor. IsPlaced cursor) }
        ensures seen { IfOk result (λ cursor. cursor.seen ≡ self.now.seen) }
    {
        let block = Arc::try_clone(&self.block)?;
        Ok(Cursor {
            count: self.count,
            seen: self.seen.again(),
            block,
            at: self.at,
        })
    }

    /// Whether no fewer batches were seen than another has seen of the same list. Of the two beginnings of the list the shorter
    /// begins the longer.
    pub(crate) fn has(&self, other: &Cursor) -> bool
        requires placed { IsPlaced self.now }
        requires other { IsPlaced other.now }
        requires list { other.now.seen.book ≡ self.now.seen.book }
        ensures { Has result self.now.seen.log other.now.seen.log }
    {
        let mut both = self.seen.again();
        both.learn(&other.seen);
        self.count >= other.count
    }

    /// One batch more was seen, which stood in the place.
    pub(crate) fn step(&mut self, next: Prefix)
        requires placed { IsPlaced self.old }
        requires within { self.old.at < 256 }
        requires list { next.book ≡ self.old.seen.book }
        requires count { length next.log ≡ length self.old.seen.log + 1 }
        ensures placed { IsPlaced self.new }
        ensures seen { self.new.seen ≡ next }
    {
        self.count += 1;
        self.at += 1;
        self.seen = next;
    }
}

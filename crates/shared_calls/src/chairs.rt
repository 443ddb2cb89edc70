//! Where a seat stands in the list, as all seats are told.
ghost use Rattle.std.specs.Prelude.{◌≡◌, ◌<◌, IfOk, IfSome, IsErrOf, IsTrue, OnOk};
ghost use Rattle.std.specs.Arc.{arc_value};
ghost use Rattle.shared_calls.specs.Cursors.{IsPlaced};

use crate::blocks::PLACES;
use crate::cursors::Cursor;
use crate::lists::CallList;
use crate::refusals::SubmitRefusal;
use base::NoMemory;
use std::alloc::Global;
use std::sync::Arc;

/// A list, and a word of it that tells in which block a seat stands. The word is free again once the chair goes.
pub(crate) struct Chair {
    pub(crate) list: Arc<CallList>,
    pub(crate) word: usize,
}

impl Chair {
    /// A chair for a seat that stands in that block. None where the list has as many seats as it may have.
    pub(crate) fn new(list: Arc<CallList>, block: usize) -> Option<Chair>
        ensures { IfSome result (λ chair. chair.list ≡ list) }
    {
        let word = list.standing.sit(block)?;
        Some(Chair { list, word })
    }

    /// The list, once more. The error is want of memory.
    pub(crate) fn list_again(&self) -> Result<Arc<CallList>, NoMemory>
        ensures { IfOk result (λ list. arc_value list ≡ arc_value self.now.list) }
    {
        Ok(Arc::try_clone(&self.list)?)
    }

    /// Goes on to the next block where the seat's was seen to the end and that is laid, and tells whether the next place is in the
    /// seat's block.
    #[cold]
    pub(crate) fn cross(&self, cursor: &mut Cursor) -> bool
        requires placed { IsPlaced cursor.old }
        requires list { cursor.old.seen.book ≡ (arc_value self.now.list).start.book }
        ensures placed { IsPlaced cursor.new }
        ensures seen { cursor.new.seen ≡ cursor.old.seen }
        ensures within { IsTrue result → cursor.new.at < 256 }
    {
        if !self.list.reach(cursor) {
            return false;
        }
        self.list.standing.stand(self.word, cursor.block.number);
        true
    }

    /// Whether the next place is in the seat's block, into which the seat goes on where it can.
    pub(crate) fn reach(&self, cursor: &mut Cursor) -> bool
        requires placed { IsPlaced cursor.old }
        requires list { cursor.old.seen.book ≡ (arc_value self.now.list).start.book }
        ensures placed { IsPlaced cursor.new }
        ensures seen { cursor.new.seen ≡ cursor.old.seen }
        ensures within { IsTrue result → cursor.new.at < 256 }
    {
        if cursor.at < PLACES {
            return true;
        }
        self.cross(cursor)
    }

    /// The same, and the next block is laid where it was not. The error is `Full` where there is no room for it, `Memory`, or `Busy` where
    /// another seat is about it.
    pub(crate) fn room(&self, alloc: Global, cursor: &mut Cursor) -> Result<(), SubmitRefusal>
        requires placed { IsPlaced cursor.old }
        requires list { cursor.old.seen.book ≡ (arc_value self.now.list).start.book }
        ensures placed { IsPlaced cursor.new }
        ensures seen { cursor.new.seen ≡ cursor.old.seen }
        ensures within { OnOk result (cursor.new.at < 256) }
        ensures good { IsErrOf result SubmitRefusal.BadBatch → ⊥ }
    {
        if cursor.at < PLACES {
            return Ok(());
        }
        let list = &self.list;
        list.lay(alloc, cursor.block.number + 1)?;
        if self.cross(cursor) {
            return Ok(());
        }
        Err(SubmitRefusal::Busy)
    }
}

impl Drop for Chair {
    fn drop(self) {
        let Chair { list, word } = self;
        list.standing.leave(word);
        drop(list);
    }
}

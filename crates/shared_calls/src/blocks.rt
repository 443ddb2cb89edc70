//! Blocks of places.
ghost use Rattle.std.specs.Prelude.{◌≡◌, ◌+◌, ◌*◌, ◌<◌, ◌^◌, length, IfOk, IfSome};
ghost use Rattle.boxcar.specs.Table.{Tagged};
ghost use Rattle.shared_calls.specs.Names.{name_of};
ghost use Rattle.shared_calls.specs.Rules.{IsNext};

use crate::rules::{Entry, Place, Prefix, tag_at};
use base::NoMemory;
use boxcar::slot::OnceSlot;
use std::alloc::Global;

/// How many places a block has.
pub(crate) const PLACES: usize = 256;

/// How many blocks a list may have had.
pub(crate) const BLOCKS: usize = 1 << 50;

/// Places of a list, one after another, from 256 times the block's number on.
#[derive(Drop)]
pub(crate) struct Block {
    pub(crate) number: usize,
    pub(crate) places: Vec<Place>,
    pub(crate) start: Prefix,
    pub(crate) ghost tagged: { Tagged (name_of start.book) (number * 256) 256 places.items },
    pub(crate) ghost few: { number < 2 ^ 50 },
}

/// Places in which nothing stands, with numbers from this one on. The error is want of memory.
fn new_places(alloc: Global, seen: &Prefix, from: usize) -> Result<Vec<Place>, NoMemory>
    requires { from + 256 < 2 ^ 64 }
    ensures { IfOk result (λ places. Tagged (name_of seen.now.book) from 256 places.items) }
{
    let mut places = Vec::with_capacity(alloc, PLACES)?;
    let mut number = 0;
    while number < PLACES {
        places.push_reserved(OnceSlot::new(&tag_at(from + number, seen)));
        number += 1;
    }
    Ok(places)
}

impl Block {
    /// A block of this number in which nothing stands. The error is want of memory.
    pub(crate) fn new(alloc: Global, seen: &Prefix, number: usize) -> Result<Block, NoMemory>
        requires { number < 2 ^ 50 }
        ensures number { IfOk result (λ block. block.number ≡ number) }
        ensures list { IfOk result (λ block. block.start.book ≡ seen.now.book) }
    {
        let places = new_places(alloc, seen, number * PLACES)?;
        Ok(Block {
            number,
            places,
            start: seen.again(),
        })
    }

    /// What stands in the place after all that was seen, which is this one of the block.
    pub(crate) fn next(&self, at: usize, seen: &Prefix) -> Option<&Entry>
        requires list { seen.now.book ≡ self.now.start.book }
        requires count { length seen.now.log ≡ self.now.number * 256 + at }
        ensures list { IfSome result (λ next. next.now.seen.book ≡ seen.now.book) }
        ensures log { IfSome result (λ next. IsNext seen.now.log next.now) }
        ensures within { IfSome result (λ next. at < 256) }
    {
        if at >= PLACES {
            return None;
        }
        let next = self.places[at].get()?;
        let mut both = seen.again();
        both.learn(&next.seen);
        Some(next)
    }
}

//! A table of the order bits of each index against each other, and itself: half a byte for two of them.
ghost use Rattle.std.specs.Prelude.{◌≡◌, ◌<◌, ◌+◌, ◌/◌, ◌^◌, IfOk, vec_len};
ghost use Rattle.label_intern.specs.Pairs.{pairs_of, place_of};
ghost use Rattle.label_intern.specs.Ways.{AreWays};

use crate::ways::{half_for, half_of, told_by, with_half};
use base::NoMemory;
use std::alloc::Global;

/// How many pairs so many indexes make, each with itself too.
#[inline(always)]
fn pairs_of(many: usize) -> usize
    requires { many < 2 ^ 16 }
    ensures { result ≡ pairs_of many }
{
    many * (many + 1) / 2
}

/// The place of two indexes among all pairs, in either order.
#[inline(always)]
fn place_of(one: usize, other: usize) -> usize
    requires one_in { one < 2 ^ 16 }
    requires other_in { other < 2 ^ 16 }
    ensures { result ≡ place_of one other }
{
    pairs_of(one.max(other)) + one.min(other)
}

/// A table of order bits.
#[derive(Drop)]
pub struct Table {
    width: usize,
    cells: Vec<u8>,
    ghost whole: { vec_len cells ≡ (pairs_of width + 1) / 2 },
    ghost narrow: { width < 2 ^ 16 },
}

impl Table {
    ghost use Rattle.label_intern.specs.Table.{cell, ChangesPair};

    /// A table of so many indexes. Only this takes memory.
    pub fn new(alloc: Global, width: usize) -> Result<Table, NoMemory>
        requires { width < 2 ^ 16 }
        ensures { IfOk result (λ t. t.width ≡ width) }
    {
        let cells = vec![in alloc; 0; (pairs_of(width) + 1) / 2]?;
        Ok(Table { width, cells })
    }

    /// The order bits of an index against another.
    pub fn at(&self, row: usize, column: usize) -> u8
        requires row_in { row < self.now.width }
        requires column_in { column < self.now.width }
        ensures { result ≡ cell self.now row column }
    {
        let place = place_of(row, column);
        let both = told_by(half_of(self.cells[place / 2], place));
        if row < column { both / 8 } else { both % 8 }
    }

    /// Writes the order bits of two indexes against each other. All others stay.
    pub fn put(&mut self, at: usize, other: usize, forth: u8, back: u8)
        requires at_in { at < self.old.width }
        requires other_in { other < self.old.width }
        requires ways { AreWays forth back }
        requires own { at ≡ other → forth ≡ back }
        ensures { ChangesPair self.old self.new at other forth back }
    {
        let place = place_of(at, other);
        let half = if at < other {
            half_for(back, forth)
        } else {
            half_for(forth, back)
        };
        self.cells[place / 2] = with_half(self.cells[place / 2], place, half);
    }
}

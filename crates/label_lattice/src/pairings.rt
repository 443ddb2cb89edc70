//! Pairs of a category and a level, and lists of them that take no memory.
ghost use Rattle.std.specs.Prelude.{◌≡◌, ◌<◌, ◌+◌, ◌≤◌, [], ◌∷◌, ◌++◌, length, map};
ghost use Rattle.std.specs.Prelude.{slice_index_or, slice_set, IsTrue};
ghost use Rattle.std.specs.List.{insert, remove};
ghost use Rattle.label_lattice.specs.Columns.{filler, has_at};

use base::{Category, Level};
use std::marker::Model;

/// A category with its level. Whether the category was made is told by `RawLabel::all_made`.
#[derive(Clone, Copy, PartialEq, Eq, Debug)]
pub struct Pair {
    /// The category.
    pub category: Category,
    /// Its level.
    pub level: Level,
}

/// A list of 0 to N pairs, which takes no memory. A contract sees the list. The categories stand
/// apart from the levels, so that no byte lies idle between them. Equal lists have equal fields:
/// what stands past the end is the same everywhere.
#[derive(Clone, Copy)]
pub struct Pairs<const N: usize> {
    len: usize,
    categories: [Category; N],
    levels: [Level; N],
}

impl<const N: usize> Model for Pairs<N> {
    ghost use Rattle.std.specs.Prelude.{List, length};
    ghost use Rattle.label_lattice.specs.declared.pairings.Pair.{Pair};

    ghost Value = { List Pair };

    ghost use Rattle.label_lattice.specs.Columns.{categories_of, levels_of};
    ghost use Rattle.label_lattice.specs.Pairs.{items_of, IsFilled, fields_of-items_of};

    ghost view = { λ p. items_of p.len p.categories p.levels };

    ghost invariant = { λ p. IsFilled N p.len p.categories p.levels };

    ghost inverse = { λ ps. record {
      len = length ps;
      categories = categories_of N ps;
      levels = levels_of N ps;
    } };

    ghost inverse_ok = { λ p h. fields_of-items_of N p h };
}

impl<const N: usize> Pairs<N> {
    /// The list of no pairs.
    pub fn new() -> Self
        ensures { result ≡ [] }
    {
        Pairs {
            len: 0,
            categories: [Category(0); N],
            levels: [Level::Star; N],
        }
    }

    /// How many stand in it: 0 to N.
    #[inline(always)]
    pub fn len(&self) -> usize
        ensures value { result ≡ length self.now }
        ensures few { result ≤ N }
    {
        // (of the slice, which is no longer than the array)
        self.categories[..self.len].len()
    }

    /// The pair at a place, from 0 and below the length.
    #[inline(always)]
    pub fn pair_at(&self, place: usize) -> Pair
        requires { place < length self.now }
        ensures { result ≡ slice_index_or self.now place filler }
    {
        Pair {
            category: self.categories()[place],
            level: self.levels()[place],
        }
    }

    /// Whether a pair stands at a place and has a category.
    #[inline(always)]
    pub(crate) fn has_at(&self, place: usize, category: u64) -> bool
        ensures value { result ≡ has_at self.now place category }
        ensures within { IsTrue result → place < N }
    {
        place < self.len() && self.categories()[place].0 == category
    }

    /// The categories of the pairs, in their order.
    #[inline(always)]
    pub(crate) fn categories(&self) -> &[Category]
        ensures { result.now ≡ map (λ p. p.category) self.now }
    {
        &self.categories[..self.len]
    }

    /// The levels of the pairs, in their order.
    #[inline(always)]
    pub(crate) fn levels(&self) -> &[Level]
        ensures { result.now ≡ map (λ p. p.level) self.now }
    {
        &self.levels[..self.len]
    }

    /// Puts a pair at the end, where fewer than N stand. Whether there is room is told by the
    /// length.
    #[inline(always)]
    pub fn push(&mut self, pair: Pair)
        requires { length self.old < N }
        ensures { self.new ≡ self.old ++ pair ∷ [] }
    {
        self.categories[self.len] = pair.category;
        self.levels[self.len] = pair.level;
        self.len += 1;
    }

    /// Puts pairs at the end, in their order, where there is room for all of them.
    pub fn extend(&mut self, pairs: &[Pair])
        requires { length self.old + length pairs.now ≤ N }
        ensures { self.new ≡ self.old ++ pairs.now }
    {
        for pair in pairs {
            self.push(*pair);
        }
    }

    /// Puts the pairs of another list at the end, where there is room for all of them.
    pub(crate) fn append<const M: usize>(&mut self, others: &Pairs<M>)
        requires { length self.old + length others.now ≤ N }
        ensures { self.new ≡ self.old ++ others.now }
    {
        for place in 0..others.len() {
            self.push(others.pair_at(place));
        }
    }

    /// Another pair at a place, from 0 and below the length.
    pub(crate) fn set(&mut self, place: usize, pair: Pair)
        requires { place < length self.old }
        ensures { self.new ≡ slice_set self.old place pair }
    {
        // For the proof alone: how long the arrays are is known once they are read.
        let _ = &self.len;
        self.categories[place] = pair.category;
        self.levels[place] = pair.level;
    }

    /// A pair more at a place, from 0 to the length, where fewer than N stand: those from there on
    /// move up.
    pub(crate) fn insert(&mut self, place: usize, pair: Pair)
        requires place { place ≤ length self.old }
        requires room { length self.old < N }
        ensures { self.new ≡ insert self.old place pair }
    {
        self.categories.copy_within(place..self.len, place + 1);
        self.levels.copy_within(place..self.len, place + 1);
        self.categories[place] = pair.category;
        self.levels[place] = pair.level;
        self.len += 1;
    }

    /// The pair at a place, from 0 and below the length, is gone: those behind it move down.
    pub(crate) fn remove(&mut self, place: usize)
        requires { place < length self.old }
        ensures { self.new ≡ remove self.old place }
    {
        self.categories.copy_within(place + 1..self.len, place);
        self.levels.copy_within(place + 1..self.len, place);
        self.len -= 1;
        self.categories[self.len] = Category(0);
        self.levels[self.len] = Level::Star;
    }
}

//! Several families of lists over the same cells.
ghost use Rattle.std.specs.Prelude.{◌≡◌, ℕ, ◌+◌, ◌-◌, ◌^◌, ◌<◌, [], ◌∷◌, ◌++◌, length};
ghost use Rattle.std.specs.Prelude.{map, IfOk, slice_get, slice_set, remove, All};
ghost use Rattle.base.specs.Counts.{probed};

use crate::entry_lists::chains::Chains;
use base::{Meter, NoMemory};
use std::alloc::Global;
use std::marker::Model;

/// Families of doubly linked lists over a fixed number of cells. Families, heads and cells are named by number, each
/// from 0. A cell stands in at most one list of a family. A contract sees, for each family, how many cells there are
/// and the list of each head.
#[derive(Drop)]
pub struct Rings<const FAMILIES: usize> {
    families: Vec<Chains>,
}

impl<const FAMILIES: usize> Model for Rings<FAMILIES> {
    ghost use Rattle.std.specs.Prelude.{◌≡◌, List, length};
    ghost use Rattle.std.specs.Coded.{coded_list};
    ghost use Rattle.containers.specs.Lists.{Lists, lists_code};

    ghost Value = { List Lists };

    ghost coded = { coded_list lists_code };

    ghost view = { λ r. r.families.items };

    ghost invariant = { λ r. length r.families.items ≡ FAMILIES };
}

impl<const FAMILIES: usize> Rings<FAMILIES> {
    ghost use Rattle.containers.specs.Lists.{empty_lists, family_at, cells_at, with_cells, shifted_lists};
    ghost use Rattle.containers.specs.Lists.{StandsAt, IsLinked, IsWellFormed};

    /// Lists with no cell yet: `heads` says for each family how many heads it has, and all families have the same
    /// cells. Only this takes memory; the error is want of it.
    pub fn new(alloc: Global, heads: &[usize], cells: usize) -> Result<Self, NoMemory>
        requires families { length heads.now ≡ FAMILIES }
        requires fits { All (λ n. cells + n < 2 ^ 64) heads.now }
        ensures { IfOk result (λ r. r ≡ map (empty_lists cells) heads.now) }
    {
        let mut families = Vec::with_capacity(alloc, heads.len())?;
        for count in heads {
            let family = Chains::new(alloc, *count, cells)?;
            families.push(family)?;
        }
        Ok(Rings { families })
    }

    /// The first cell of a head's list, none where the list is empty. One probe.
    pub fn first(&self, family: usize, head: usize, meter: &mut Meter) -> Option<usize>
        requires family { family < FAMILIES }
        requires head { head < length (family_at self.now family).lists }
        ensures value { result ≡ slice_get (cells_at self.now family head) 0 }
        ensures counted { meter.new ≡ probed 1 meter.old }
    {
        self.families[family].first(head, meter)
    }

    /// The last cell of a head's list, none where the list is empty. One probe.
    pub fn last(&self, family: usize, head: usize, meter: &mut Meter) -> Option<usize>
        requires family { family < FAMILIES }
        requires head { head < length (family_at self.now family).lists }
        ensures value { result
            ≡ slice_get (cells_at self.now family head) (length (cells_at self.now family head) - 1) }
        ensures counted { meter.new ≡ probed 1 meter.old }
    {
        self.families[family].last(head, meter)
    }

    /// The cell after a cell that stands in a list of the family, none where it is the last. One probe.
    pub fn next(&self, family: usize, cell: usize, meter: &mut Meter) -> Option<usize>
        requires family { family < FAMILIES }
        requires linked { IsLinked (family_at self.now family) cell }
        ensures value { (head place : ℕ) → StandsAt (cells_at self.now family head) place cell
            → result ≡ slice_get (cells_at self.now family head) (place + 1) }
        ensures counted { meter.new ≡ probed 1 meter.old }
    {
        self.families[family].next(cell, meter)
    }

    /// The length of a head's list. One probe.
    pub fn len(&self, family: usize, head: usize, meter: &mut Meter) -> usize
        requires family { family < FAMILIES }
        requires head { head < length (family_at self.now family).lists }
        ensures value { result ≡ length (cells_at self.now family head) }
        ensures counted { meter.new ≡ probed 1 meter.old }
        ensures families { length self.now ≡ FAMILIES }
        ensures well_formed { IsWellFormed (family_at self.now family) }
    {
        self.families[family].len(head, meter)
    }

    /// The head in whose list of the family a cell stands. One probe.
    pub fn head_of(&self, family: usize, cell: usize, meter: &mut Meter) -> usize
        requires family { family < FAMILIES }
        requires linked { IsLinked (family_at self.now family) cell }
        ensures value { (head place : ℕ) → StandsAt (cells_at self.now family head) place cell
            → result ≡ head }
        ensures within { result < length (family_at self.now family).lists }
        ensures counted { meter.new ≡ probed 1 meter.old }
    {
        self.families[family].head_of(cell, meter)
    }

    /// Puts a cell that stands in no list of the family at the end of a head's list. All other lists stay. Two probes.
    pub fn push_back(&mut self, family: usize, head: usize, cell: usize, meter: &mut Meter)
        requires family { family < FAMILIES }
        requires head { head < length (family_at self.old family).lists }
        requires cell { cell < (family_at self.old family).cells }
        requires free { ¬ IsLinked (family_at self.old family) cell }
        ensures appended { self.new ≡ with_cells self.old family head
            (cells_at self.old family head ++ cell ∷ []) }
        ensures families { length self.old ≡ FAMILIES }
        ensures was_well_formed { IsWellFormed (family_at self.old family) }
        ensures well_formed { IsWellFormed (family_at self.new family) }
        ensures counted { meter.new ≡ probed 2 meter.old }
    {
        let lists = &mut self.families[family];
        lists.push_back(head, cell, meter);
    }

    /// Takes a cell out of its list of the family; the order of the others stays, and so do all other lists. Four
    /// probes.
    pub fn unlink(&mut self, family: usize, cell: usize, meter: &mut Meter)
        requires family { family < FAMILIES }
        requires linked { IsLinked (family_at self.old family) cell }
        ensures removed { (head place : ℕ) → StandsAt (cells_at self.old family head) place cell
            → self.new ≡ with_cells self.old family head
            (remove (cells_at self.old family head) place) }
        ensures free { ¬ IsLinked (family_at self.new family) cell }
        ensures families { length self.old ≡ FAMILIES }
        ensures was_well_formed { IsWellFormed (family_at self.old family) }
        ensures well_formed { IsWellFormed (family_at self.new family) }
        ensures counted { meter.new ≡ probed 4 meter.old }
    {
        let lists = &mut self.families[family];
        lists.unlink(cell, meter);
    }

    /// Takes a cell out of its list of the family and puts it at the end of a head's list, which may be the same; the order
    /// of the others stays, and so do all other lists. Six probes.
    pub fn shift(&mut self, family: usize, to: usize, cell: usize, meter: &mut Meter)
        requires family { family < FAMILIES }
        requires to { to < length (family_at self.old family).lists }
        requires linked { IsLinked (family_at self.old family) cell }
        ensures shifted { (head place : ℕ) → StandsAt (cells_at self.old family head) place cell
            → self.new ≡ slice_set self.old family
            (shifted_lists (family_at self.old family) head place to cell) }
        ensures families { length self.old ≡ FAMILIES }
        ensures was_well_formed { IsWellFormed (family_at self.old family) }
        ensures well_formed { IsWellFormed (family_at self.new family) }
        ensures counted { meter.new ≡ probed 6 meter.old }
    {
        let lists = &mut self.families[family];
        lists.shift(to, cell, meter);
    }
}

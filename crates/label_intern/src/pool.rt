//! The pool of stored labels.
ghost use Rattle.std.specs.Prelude.{◌≡◌, ◌<◌, ◌≤◌, ◌+◌, ◌*◌, ◌^◌, ◌↔◌, None, IsTrue, IsSome};
ghost use Rattle.std.specs.Prelude.{IfOk, IfSome, length, replicate, slice_set};

use crate::held::Held;
use crate::order::OrderBits;
use crate::places::{fill, free_place, label_at, lower, raise};
use crate::search::{put_at, seek, unlist};
use crate::table::Table;
use base::{Meter, NoMemory};
use label_lattice::Label;
use std::alloc::Global;
use std::marker::Model;

/// The index of a stored label, from 0, below the pool's size.
#[derive(Clone, Copy, PartialEq, Eq, Debug)]
pub struct LabelIx(pub u16);

/// The stored labels by index, with their owners. A contract sees, for each index, its label and how many owners it
/// has, or nothing.
#[derive(Drop)]
pub struct Labels {
    slots: Vec<Option<Held>>,
    table: Table,
    // The indexes that have a label, by rising labels.
    listed: Vec<u16>,
    // The index that lost an owner last, where a free one is looked for first.
    likely: usize,
}

impl Model for Labels {
    ghost use Rattle.std.specs.Prelude.{List, Option};
    ghost use Rattle.label_intern.specs.declared.held.Held.{Held};

    ghost Value = { List (Option Held) };

    ghost use Rattle.std.specs.Prelude.{◌≤◌, length, vec_capacity};
    ghost use Rattle.label_intern.specs.Kept.{IsKept};
    ghost use Rattle.label_intern.specs.Listed.{IsListed};

    ghost view = { λ l. l.slots.items };

    ghost invariant = { λ l. IsKept l.slots.items l.table
        × IsListed l.slots.items l.listed.items
        × (length l.slots.items ≤ vec_capacity l.listed) };
}

impl Labels {
    ghost use Rattle.label_lattice.specs.Bits.{bits_of};
    ghost use Rattle.label_intern.specs.Held.{held_at, stored, owned, fewer, raised, IsInterned};
    ghost use Rattle.label_intern.specs.Held.{label_of};
    ghost use Rattle.label_intern.specs.Halves.{ScansByHalves};
    ghost use Rattle.label_intern.specs.Owners.{one_at, Takes, Lets, release_at};
    ghost use Rattle.base.specs.Counts.{ScansAtMost};

    /// A pool of so many indexes, with no label. Only this takes memory; the error is want of it.
    pub fn boot(alloc: Global, pool: usize) -> Result<Labels, NoMemory>
        requires { pool < 2 ^ 16 }
        ensures { IfOk result (λ labels. labels ≡ replicate pool None) }
    {
        let slots = vec![in alloc; None; pool]?;
        let table = Table::new(alloc, pool)?;
        let listed = Vec::with_capacity(alloc, pool)?;
        Ok(Labels {
            slots,
            table,
            listed,
            likely: 0,
        })
    }

    /// Each stored label has an owner, and one index alone. Nothing is done: a caller's proof has this from a call.
    pub fn well_formed(&self)
        ensures { IsInterned self.now }
    {
        // For the proof alone: what the type says of the value is known once it is read.
        let _slots = &self.slots;
    }

    /// How many labels are stored.
    pub fn len(&self) -> usize
        ensures count { result ≡ stored self.now }
        ensures interned { IsInterned self.now }
    {
        self.slots.iter().filter(|slot| slot.is_some()).count()
    }

    /// Whether an index has a label.
    pub fn holds(&self, at: LabelIx) -> bool
        ensures { IsTrue result ↔ IsSome (held_at self.now at.0) }
    {
        let at = usize::from(at.0);
        at < self.slots.len() && self.slots[at].is_some()
    }

    /// The label of an index that has one.
    pub fn get(&self, at: LabelIx) -> &Label
        requires { IsSome (held_at self.now at.0) }
        ensures { IfSome (held_at self.now at.0) (λ held. result.now ≡ held.label) }
    {
        label_at(&self.slots, usize::from(at.0))
    }

    /// How the label of an index compares with that of another, both having one. It scans nothing.
    pub fn order(&self, a: LabelIx, b: LabelIx) -> OrderBits
        requires a_stored { IsSome (held_at self.now a.0) }
        requires b_stored { IsSome (held_at self.now b.0) }
        ensures { IfSome (held_at self.now a.0) (λ one. IfSome (held_at self.now b.0) (λ two.
            result.0 ≡ bits_of one.label two.label)) }
    {
        if a.0 == b.0 {
            // A label is at most itself, raised or not.
            return OrderBits(7);
        }
        OrderBits(self.table.at(usize::from(a.0), usize::from(b.0)))
    }

    /// The index of a label, which has one owner more: the index of the equal label where one is stored, a free one
    /// where none is. All other indexes stay. At most three scans, and seven for each label that was stored; a label that
    /// was stored itself is found by halves.
    pub fn intern(&mut self, label: &Label, meter: &mut Meter) -> LabelIx
        requires { owned self.old < length self.old }
        ensures within { result.0 < length self.old }
        ensures label { IfSome (held_at self.old result.0) (λ held. held.label ≡ label.now) }
        ensures after { self.new
            ≡ slice_set self.old result.0 (raised (held_at self.old result.0) label.now) }
        ensures owners { owned self.new ≡ owned self.old + 1 }
        ensures takes { Takes self.old self.new (λ i. one_at i result.0) }
        ensures given { label_of self.new result.0 ≡ label.now }
        ensures growth { stored self.new ≤ stored self.old + 1 }
        ensures interned { IsInterned self.new }
        ensures scans { ScansAtMost (7 * stored self.old + 3) meter.old meter.new }
        ensures known { IfSome (held_at self.old result.0)
            (λ _. ScansByHalves (2 * stored self.old + 1) meter.old meter.new) }
    {
        let at = match seek(&self.slots, &self.listed, label, meter) {
            Ok(at) => at,
            Err(place) => {
                let at = free_place(&self.slots, self.likely);
                fill(&mut self.table, &self.slots, &self.listed, at, label, meter);
                put_at(&mut self.listed, place, at as u16);
                at
            }
        };
        raise(&mut self.slots[at], label);
        LabelIx(at as u16)
    }

    /// Takes an owner from the label of an index that has one. With the last owner gone the index is free. All other
    /// indexes stay.
    pub fn release(&mut self, at: LabelIx)
        requires { IsSome (held_at self.old at.0) }
        ensures after { self.new ≡ slice_set self.old at.0 (fewer (held_at self.old at.0)) }
        ensures owners { owned self.old ≡ owned self.new + 1 }
        ensures lets { Lets self.old self.new (λ i. one_at i at.0) }
        ensures growth { stored self.new ≤ stored self.old }
        ensures interned { IsInterned self.new }
    {
        let slot = usize::from(at.0);
        unlist(&self.slots, &mut self.listed, at.0);
        lower(&mut self.slots[slot]);
        self.likely = slot;
    }

    /// Takes an owner from the label of an index, where it has one. All other indexes stay.
    pub fn let_go(&mut self, at: LabelIx)
        ensures after { self.new ≡ release_at self.old at.0 }
        ensures lets { Lets self.old self.new (λ i. one_at i at.0) }
    {
        if self.holds(at) {
            self.release(at);
        }
    }
}

//! Interned labels with a count of their owners.
ghost use Rattle.std.specs.Prelude.{◌≡◌, ◌<◌, ◌^◌, length};
ghost use Rattle.label_intern.specs.Held.{owned};

use base::{Category, Level, Meter, NoMemory};
use label_intern::{LabelIx, Labels, OrderBits};
use label_lattice::{Label, Pair, Pairs, RawLabel};
use std::alloc::Global;

/// Interned labels that know how many owners there are, so that a call can be tested first.
#[derive(Drop)]
pub struct Pool {
    labels: Labels,
    size: usize,
    owners: usize,
    ghost size_is: { length labels ≡ size },
    ghost owners_are: { owned labels ≡ owners },
}

impl Pool {
    /// No label, in so many indexes.
    pub fn boot(alloc: Global, size: usize) -> Result<Pool, NoMemory>
        requires { size < 2 ^ 16 }
    {
        let labels = Labels::boot(alloc, size)?;
        Ok(Pool {
            labels,
            size,
            owners: 0,
        })
    }

    /// The index of a label, which has one owner more, where there is room for an owner.
    pub fn intern(&mut self, label: &Label, meter: &mut Meter) -> Option<LabelIx> {
        if self.owners >= self.size {
            return None;
        }
        let at = self.labels.intern(label, meter);
        self.owners += 1;
        Some(at)
    }

    /// One owner less for an index that has a label.
    pub fn release(&mut self, at: LabelIx) {
        if self.labels.holds(at) {
            self.labels.release(at);
            self.owners -= 1;
        }
    }

    /// How two labels compare, where both indexes have one.
    pub fn order(&self, a: LabelIx, b: LabelIx) -> Option<OrderBits> {
        if self.labels.holds(a) && self.labels.holds(b) {
            return Some(self.labels.order(a, b));
        }
        None
    }
}

/// A label with one category of its own at level 3, and 1 elsewhere.
pub fn label_of(category: usize, meter: &mut Meter) -> Option<Label> {
    let mut pairs = Pairs::new();
    pairs.push(Pair {
        category: Category((category as u64).saturating_add(1)),
        level: Level::L3,
    });
    let raw = RawLabel {
        default: Level::L1,
        pairs,
    };
    Label::from_raw(&raw, meter).ok()
}

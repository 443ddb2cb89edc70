//! Labels of calls.
ghost use Rattle.std.specs.Prelude.{◌≡◌, IfOk, length};

use base::{Level, NoMemory};
use label_lattice::{Pair, RawLabel};
use std::alloc::Global;
use std::marker::Model;

/// A label as a caller said it, with room for the pairs that it has: 0 to 24 of them.
#[derive(Drop)]
pub(crate) struct KeptLabel {
    default: Level,
    pairs: Vec<Pair>,
}

impl Model for KeptLabel {
    ghost use Rattle.std.specs.Prelude.{◌≤◌, length};
    ghost use Rattle.label_lattice.specs.declared.raw_labels.RawLabel.{RawLabel};

    ghost Value = { RawLabel };

    ghost view = { λ k. record { default = k.default; pairs = k.pairs.items } };

    ghost invariant = { λ k. length k.pairs.items ≤ 24 };
}

impl KeptLabel {
    /// Keeps a label. One with no pairs takes no memory. The error is want of memory.
    pub(crate) fn new(alloc: Global, label: &RawLabel) -> Result<KeptLabel, NoMemory>
        ensures { IfOk result (λ kept. kept ≡ label.now) }
    {
        let mut pairs = Vec::with_capacity(alloc, label.pairs.len())?;
        for place in 0..label.pairs.len() {
            pairs.push_reserved(label.pairs.pair_at(place));
        }
        Ok(KeptLabel {
            default: label.default,
            pairs,
        })
    }

    /// The label.
    pub(crate) fn raw(&self) -> RawLabel
        ensures { result ≡ self.now }
    {
        RawLabel::new(self.default, self.pairs.as_slice())
    }
}

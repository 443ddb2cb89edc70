//! The labels that are stored, by index, and how they compare.
ghost use Rattle.std.specs.Prelude.{◌≡◌, ◌≤◌, option_copied, option_map};
ghost use Rattle.kernel_store.specs.Storing.{label_count};
ghost use Rattle.arena_state.specs.Kept.{label_kept, order_kept, AreStored};
ghost use Rattle.arena_state.specs.States.{state_of, labels_stored};

use crate::states::ArenaState;
use label_intern::{LabelIx, OrderBits};
use label_lattice::Label;

impl ArenaState {
    /// The label of an index, none where it has none.
    pub fn kept_label(&self, index: LabelIx) -> Option<&Label>
        ensures { option_copied result ≡ label_kept self.now index.0 }
    {
        if self.pieces.holdings.labels.holds(index) {
            Some(self.pieces.holdings.labels.get(index))
        } else {
            None
        }
    }

    /// How the label of an index compares with that of another, none where one has none. No label is scanned.
    pub fn kept_order(&self, one: LabelIx, other: LabelIx) -> Option<OrderBits>
        ensures { option_map (λ o. o.0) result ≡ order_kept self.now one.0 other.0 }
    {
        let labels = &self.pieces.holdings.labels;
        if labels.holds(one) && labels.holds(other) {
            Some(labels.order(one, other))
        } else {
            None
        }
    }

    /// The stored labels are no more than the different labels that objects carry. Nothing is done: a caller's proof has
    /// this from a call.
    pub fn labels_are_carried(&self)
        ensures { labels_stored self.now ≤ label_count (state_of self.now) }
    {
        self.pieces.holdings.labels.well_formed();
    }

    /// The labels of the indexes are those that the state stores, each at one index. Nothing is done: a caller's proof has
    /// this from a call.
    pub fn labels_are_kept(&self)
        ensures { AreStored (state_of self.now) (label_kept self.now) }
    {
        self.pieces.holdings.labels.well_formed();
    }
}

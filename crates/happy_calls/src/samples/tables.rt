//! Whether two tables are the same.
use kernel_rules::{Compared, Shown, Tables, Used};
use label_lattice::{Pairs, RawLabel};

fn is_used(one: &Used, other: &Used) -> bool {
    one.id == other.id && one.pages == other.pages
}

/// Whether two rows of translation are the same.
pub fn is_shown(one: &Shown, other: &Shown) -> bool {
    one.thread == other.thread
        && one.slot == other.slot
        && one.segment == other.segment
        && one.rights == other.rights
}

fn is_paired(one: &Pairs<24>, other: &Pairs<24>) -> bool {
    if one.len() != other.len() {
        return false;
    }
    for place in 0..one.len() {
        if one.pair_at(place) != other.pair_at(place) {
            return false;
        }
    }
    true
}

/// Whether two raw labels are the same, pair by pair.
pub fn is_labelled(one: &RawLabel, other: &RawLabel) -> bool {
    one.default == other.default && is_paired(&one.pairs, &other.pairs)
}

fn is_ordered(one: &Compared, other: &Compared) -> bool {
    one.first == other.first && one.second == other.second && one.bits == other.bits
}

/// Whether two tables are the same.
pub fn are_equal(one: &Tables, other: &Tables) -> bool {
    let is_long = one.uses.len() == other.uses.len()
        && one.shown.len() == other.shown.len()
        && one.labels.len() == other.labels.len()
        && one.orders.len() == other.orders.len();
    is_long
        && one.live.as_slice() == other.live.as_slice()
        && one
            .uses
            .iter()
            .zip(other.uses.iter())
            .all(|(a, b)| is_used(a, b))
        && one
            .shown
            .iter()
            .zip(other.shown.iter())
            .all(|(a, b)| is_shown(a, b))
        && one
            .labels
            .iter()
            .zip(other.labels.iter())
            .all(|(a, b)| is_labelled(a, b))
        && one
            .orders
            .iter()
            .zip(other.orders.iter())
            .all(|(a, b)| is_ordered(a, b))
}

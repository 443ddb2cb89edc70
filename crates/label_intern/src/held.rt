//! A stored label.

use label_lattice::Label;

/// A stored label, with the number of its owners, at least 1.
#[derive(Clone, Copy)]
pub struct Held {
    pub label: Label,
    pub owners: u32,
}

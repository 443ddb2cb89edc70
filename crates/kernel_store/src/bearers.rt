//! What a thread is given, with its labels as they are stored.

use label_lattice::Label;

/// The labels of a thread that entered a gate.
#[derive(Clone, Copy)]
pub struct ThreadLabels<'a> {
    /// Its label.
    pub label: &'a Label,
    /// What its label may rise to.
    pub clearance: &'a Label,
    /// The label that it proved to the gate's owner.
    pub verify: &'a Label,
}

/// What a new thread begins with, beside its label.
#[derive(Clone, Copy)]
pub struct ThreadStart<'a> {
    /// What its label may rise to.
    pub clearance: &'a Label,
    /// Where it runs: any number.
    pub entry_point: u64,
}

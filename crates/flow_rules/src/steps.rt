//! One call of either sort.
use kernel_rules::{Call, Query};

/// A call that may change the state, or one that changes nothing.
#[derive(Clone, Copy)]
pub enum Step {
    /// A call that may change the state.
    Write(Call),
    /// A call that changes nothing.
    Read(Query),
}

//! Explicit flows: which objects each call observes and modifies, and what flows from one object to
//! another outside a category. It promises that a flow outside a category never leads to an object of
//! a lower level in it; which flows there are is found by others.
#![tactic(auto)]

mod laws;
mod steps;

pub use laws::levels_rise;
pub use steps::Step;

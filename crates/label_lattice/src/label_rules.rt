//! The label rules of calls: what a thread observes and modifies, the labels that it may create,
//! become and enter by a gate (HiStar, OSDI 2006). Each rule is a definition that is said once,
//! over labels that may not be there, and a function that is proved to compute it. Which call asks
//! which rule, and of which objects, is left to the crates above.

mod creating;
mod gates;
mod orders;
mod storing;

pub use creating::{is_between, may_clear};
pub use gates::{Asked, Bearer, may_enter};
pub use orders::{is_above_floor, is_below, is_below_join, is_below_join_up, is_shown, is_visible};
pub use storing::{stored_of, with_category};

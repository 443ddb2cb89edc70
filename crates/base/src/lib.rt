//! The words that every layer of the label kernel speaks: ids, levels, kinds, rights, data, limits, refusals, and the meter.
//!
//! Numbers and names of refusals are one table, rights and type sets are sets, and what a meter counts stops at its
//! greatest number. All types but the meter are plain values that take no memory. What the words are used for is left
//! to the crates above.
#![tactic(auto)]

mod bytes;
mod ids;
mod kind_bits;
mod kinds;
mod levels;
mod liveness;
mod memory;
mod meters;
mod ranges;
mod refusals;
mod right_bits;
pub mod set_digits;
mod sets;

pub use bytes::Data;
pub use ids::{Category, ObjectId, Slot};
pub use kinds::Kind;
pub use levels::Level;
pub use liveness::live_by_path;
pub use memory::NoMemory;
pub use meters::Meter;
pub use ranges::Limits;
pub use refusals::Refusal;
pub use sets::{Rights, TypeSet};

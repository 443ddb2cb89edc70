//! Interned labels: each label that is stored has one index, its owners, and its order against every other.
//!
//! Equal labels have one index, an index lives while it has owners, and `order` gives the order bits of two stored
//! labels without a scan, since they are kept from the time that the later one was stored. A label that is stored is
//! found by halves. Only `boot` takes memory. Who owns a label, and which labels a thread may store, is left to the
//! crates above.
#![tactic(auto)]

mod held;
mod order;
mod places;
mod pool;
mod search;
mod table;
mod ways;

pub use order::OrderBits;
pub use pool::{LabelIx, Labels};

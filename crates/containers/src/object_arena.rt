//! Objects under serial ids, in a fixed number of slots.
//!
//! A contract sees a map from id to object, as a directory of rising ids, the slot of each, and what each slot has. An
//! object keeps its slot as long as it is there, and no other has that slot. Only `boot` takes memory. A hint, an id with
//! its slot beside it, finds most ids by one read, and halves of the directory find any: finding an id
//! adds at most as many probes as the number of slots has binary digits, plus one. Which ids are given, and when an
//! object goes, is left to the crates above.

mod arena;
mod gaps;
mod hints;
mod search;

pub use arena::Arena;

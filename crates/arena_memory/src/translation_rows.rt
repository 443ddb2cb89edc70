//! Rows of translation by slot of an arena: what the sixteen slots of a thread's address space
//! show, each a segment with the rights to it, or nothing; and which slots are threads', in a list
//! of its own, so that a walk over them reads little.
//!
//! A contract sees for each slot the thread, if it is one's, and sixteen optional translations. Only
//! `boot` takes memory, and each read is a probe. What a slot has to say, and when it is remade, is
//! left to the crates above.

mod row;
mod rows;

pub use rows::{Rows, ThreadSlot};

//! Links between containers and objects, and the unreference that takes no memory.
//!
//! A contract sees the ids with their lists of entries, in the order of linking, the slot of each, and the record in
//! each slot. After `unref` just those objects are left to which a path of entries leads from the root, and a visitor
//! was handed each link and each object that went, once. How many links may yet be made is known from the lists alone.
//! Only `boot` takes memory. What a record holds, which objects are containers, and who may link is left to the crates
//! above.
#![tactic(auto)]

mod cells;
mod draft;
pub mod entry_lists;
pub mod object_arena;
mod tree;
mod visitor;
mod windows;

pub use draft::Draft;
pub use tree::Containers;
pub use visitor::{Located, Visitor};

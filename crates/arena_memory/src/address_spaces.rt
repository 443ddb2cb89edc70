//! The mappings of address spaces, by slot of an arena, and marks of the objects that were mapped.
//!
//! A contract sees for each slot 16 optional mappings. A mapping may outlive what it is of. Of an object without a mark it
//! is known that no mapping is of it. Only `boot` takes memory, and each mapping that is read is a probe. What lies in a slot,
//! and whether a thread may see what a mapping names, is left to the crates above. Which threads a mapping shows something to
//! is not kept here: whoever changes one walks over the threads.

mod marks;
mod spaces;

pub use spaces::Spaces;

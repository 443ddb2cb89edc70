//! The state of a store as plain records: each object is copied by what looks at it answer. It promises that the records are
//! the state, over any store, and that memory is taken for the records alone; want of it is the only error. What is done with
//! records is left to others.

mod contents;
mod objects;
mod records;

pub use records::records_of;

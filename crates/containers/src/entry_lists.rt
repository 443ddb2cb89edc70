//! Doubly linked lists by index: families of lists over a fixed number of cells.
//!
//! A contract sees a map from a family and a head to a list of cells. A call changes the named list alone, a cell
//! stands in at most one list of a family, and each cell that is read adds one probe. Only making the lists takes memory.
//! What a cell or a head stands for is left to the crates above; none of them speaks of a cell's neighbours but by
//! asking for the next one.

mod chains;
mod rings;

pub use rings::Rings;

//! The objects that a dump leads to, as a graph for Graphviz: containers as clusters, arrows for mappings and address spaces. Red
//! is what flows from one object reach, where they are asked for. `dot` promises exactly this text, a definition over the state
//! that the dump leads to, the names that are known and what `tracing` tells, and `graph_is_whole` that no object stands deeper than it
//! looks. Drawing it, and the words of the command line, are
//! left to others.

mod dots;
mod faults;
mod laws;
mod looks;
mod nodes;
mod program;

pub use dots::{RedDump, dot, red_in};
pub use faults::DotFault;
pub use laws::graph_is_whole;
pub use program::dot_on;

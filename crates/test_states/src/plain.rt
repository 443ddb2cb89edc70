//! The plain machine: calls on it, also such as are made again where there was no memory.
pub mod calls;
pub mod cases;
pub mod memory;
pub mod samples;

//! What the slots of an arena hold: the bytes of segments, and the packets of devices.
//!
//! A contract sees for each slot a list of bytes, or a list of packets. A segment's bytes lie in frames of 256, as many
//! as there are slots; a frame belongs to one segment at most, is cleared when it is given, and comes back when it is
//! let go. Only `boot` takes memory. Which slot is a segment's or a device's, and who may read or write it, is left to
//! the crates above.

mod frames;
mod queues;
mod segments;
mod tables;
mod waiting;

pub use queues::Queues;
pub use segments::Segments;

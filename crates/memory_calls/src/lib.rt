//! The calls on segments, address spaces, devices and metadata, over any store.
//!
//! Each call is one function. It builds the labels that the call carries, tests the call's row, makes the change and sets
//! the reply, all as the definitions say. It is out of line (`inline(never)`), so no call pays for the stack frame of
//! another. Which function makes a call is left to `kernel_calls`, and what the objects are kept in to the store.
#![tactic(auto)]

mod accesses;
mod devices;
mod lengths;
mod metadata;
mod replies;
mod segments;
mod spaces;

pub use accesses::{load, store};
pub use devices::{dev_recv, dev_send};
pub use lengths::{segment_copy, segment_len, segment_resize};
pub use metadata::{meta_get, meta_set, set_immutable};
pub use segments::{Patch, Span, segment_create, segment_read, segment_write};
pub use spaces::{Filling, as_create, as_get, as_map, as_unmap, meets_any};

//! Where an object lies.

use base::{ObjectId, Slot};

/// An id, with the slot where its object lies, and none where there is no such object.
#[derive(Clone, Copy)]
pub struct Location {
    /// The id.
    pub id: ObjectId,
    /// The slot of its object.
    pub slot: Option<Slot>,
}

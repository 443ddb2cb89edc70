//! What threads use beside each other, kept apart.

/// A value with room after it, so that what two threads change never lies in one line of the processor's cache.
#[derive(Drop)]
pub struct Roomy<T: Drop> {
    /// The value.
    pub value: T,
    _room: [u64; 32],
}

impl<T: Drop> Roomy<T> {
    /// The value, with its room.
    pub fn new(value: T) -> Roomy<T> {
        Roomy {
            value,
            _room: [0; 32],
        }
    }
}

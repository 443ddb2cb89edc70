//! What is done again and again.

/// To write 64 bytes, or to read them.
#[derive(Clone, Copy)]
pub enum Work {
    Write,
    Read,
}

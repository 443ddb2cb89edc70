//! What a line asks.
use base::ObjectId;
use call_text::Asked;

/// What a thread asks.
#[derive(Clone, Copy)]
pub struct Question {
    /// The thread of the line's worker.
    pub thread: ObjectId,
    /// Its call.
    pub asked: Asked,
}

//! What was done at a kernel: events, each a batch of 1 to 16 calls of one thread, and which lists of them are
//! legal. It states the rules of histories and makes nothing of them: whoever keeps events is proved against these.

mod events;

pub use events::{Answered, BATCH, Event};

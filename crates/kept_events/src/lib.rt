//! Events as a journal keeps them: an event of the rules is as large as three labels of 24 pairs and more, and most carry
//! none or one of few pairs. They are kept in a sixth of that, and a label's pairs beside them. The calls of a batch after
//! its first lie apart, in memory that an event of one call does not take.
//!
//! A contract sees what is kept as the call, the reply and the event of the rules.
#![tactic(auto)]

mod batches;
mod calls;
mod events;
mod labels;
mod replies;

pub use batches::{KeptCalls, kept_calls, replies_room, split_batch};
pub use calls::KeptCall;
pub use events::{KeptEvent, events_of};
pub use replies::{KeptReply, call_answers};

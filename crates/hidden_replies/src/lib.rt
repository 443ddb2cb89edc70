//! Which replies of a run hidden threads changed, and by what. `hidden_replies` plays the calls of an audited dump once whole and
//! once without the calls of threads that an observer doesn't observe, and tells each reply to a call or a read that differs, by
//! the exception of `worlds::nothing_is_told` that held there. It promises exactly these, and none where no exception was met.
#![tactic(auto)]

mod differences;
mod exceptions;
mod hidden;
mod places;
mod replies;
mod runs;

pub use auditor::clean_dumps::DumpFault;
pub use differences::{Channel, Difference, Placed};
pub use hidden::hidden_replies;
pub use replies::{same_are_one, same_reply};

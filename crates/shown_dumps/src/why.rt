//! What people ask of a dump, as text. `why` tells of the calls of one line why they are answered as they are: what the rules
//! answer, and each condition of the call's row with whether it refuses the call, by which labels, numbers and facts. It
//! promises exactly this text, a definition over the findings of `explained`, in the state that the calls before lead to.
//! `why_or_false` does so of a named line, or of the first false one; `refusal_text` of a call that is refused, and
//! `read_refusal_text` of a read. What has a name is told by it. The words of the command line are left to others.

mod explaining;
mod facts;
mod failures;
mod lines;
mod parts;
mod places;
mod program;
mod shown;
mod telling;

pub use explaining::{put_head, read_refusal_text, refusal_text, why, why_in};
pub use parts::put_findings;
pub use program::why_on;
pub use shown::why_or_false;
pub use telling::Telling;

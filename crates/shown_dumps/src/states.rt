//! What all that is shown of a dump needs: the dump, the state that its first events lead to by the rules, whatever replies it
//! tells, and the lines and statuses that a program which shows something ends with. It promises exactly that state and those
//! ends. What is shown is left to others.

mod faults;
mod making;
mod naming;
mod printing;
mod states;

pub use faults::ShowFault;
pub use making::{make, make_all};
pub use naming::names_on;
pub use printing::{NAME, put_bare, put_named, put_value, show_on};
pub use states::{dump_in, state_after, state_in};

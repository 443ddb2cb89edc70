//! The rules of HiStar's kernel objects (OSDI 2006) as definitions: the state, for each call a row
//! of conditions with their refusals, an edit of the state and a reply, and what holds of every
//! state that calls lead to. Beside them stand the types of calls, replies and objects. It promises
//! nothing of any machine: a machine is proved against these definitions, and each of them
//! computes.
#![tactic(auto)]

mod calls;
mod creations;
pub mod histories;
mod lists;
mod metadata;
mod objects;
mod places;
mod quotas;
mod refusing;
mod replies;
mod tables;

pub use calls::{Call, Entry, Query};
pub use creations::{NewAddressSpace, NewContainer, NewCopy, NewGate, NewSegment, NewThread};
pub use lists::{Bytes, IdList, Ids, Packets, Slots};
pub use metadata::padded_data;
pub use objects::{Body, Gate, Mapping, Object, Thread, fresh_object};
pub use places::{Place, covers};
pub use quotas::{pages_down, pages_up};
pub use refusing::{least_of, least_with};
pub use replies::Reply;
pub use tables::{Compared, Shown, Tables, Used};

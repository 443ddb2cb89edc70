//! What a kernel keeps its objects in: the reads and the changes that calls are made of, each with
//! an exact contract against the rules, whatever the data structures are. Beside them stand the
//! words of the table of calls, over any store: each promises the conditions of the definition of
//! its name. Which call asks what is left to the crates above.
#![tactic(auto)]

mod bearers;
mod conditions;
mod labels;
mod names;
mod new_bodies;
mod new_objects;
mod places;
mod replies;
mod sights;
mod stores;

pub use bearers::{ThreadLabels, ThreadStart};
pub use conditions::{
    Condition, at_container, flowing, halted, halted_at, in_container, listed_in, mapped_to_read,
    mapped_to_write, modified, not_immutable, not_of_kind, observed, of_kind, refusal_of, shaped,
    space_entry, within,
};
pub use labels::stored_label;
pub use names::{Named, find_all, find_container, find_entry, itself};
pub use new_bodies::NewBody;
pub use new_objects::{NewObject, good_label, is_in_range, new_bearer, new_object};
pub use places::{Placed, named_place};
pub use replies::{refuse, set_done, tell_done, tell_object};
pub use sights::{Seen, Sight, avoids_object, look, look_at};
pub use stores::Store;

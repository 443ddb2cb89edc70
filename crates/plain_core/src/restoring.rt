//! Checkpoints and the plain state: whether a checkpoint can be restored, in time near linear in its
//! size for any checkpoint, the state that it restores, and the checkpoint that writes a state down. It
//! promises that what is restored is the state that the checkpoint says, and that `is_restorable` tells
//! exactly which can be. Which calls lead to a state is left to the crates above.

mod building;
mod counts;
mod keeping;
mod labels;
mod numbers;
mod restores;
mod tests_of_names;
mod tests_of_objects;
mod tests_of_order;
mod tests_of_records;
mod tests_of_sizes;
mod writing;

pub use building::build;
pub use counts::{count_listers, counted, is_distinct, is_listed_rightly};
pub use keeping::is_well_formed;
pub use labels::{are_made, stored};
pub use numbers::{listed, next_numbers};
pub use restores::{RestoreFault, is_restorable, restore};
pub use tests_of_names::{are_recorded, name_given, name_kinds};
pub use tests_of_objects::{
    is_in_bounds, is_starless, is_whole_entry, is_within, maps_rightly, may_hold,
};
pub use tests_of_order::{are_threads_given, has_slots, ids_rise, is_ordered};
pub use tests_of_records::{
    are_entries_whole, are_starless, counters_within, has_root, list_rightly, map_rightly,
};
pub use tests_of_sizes::is_whole;
pub use writing::write;

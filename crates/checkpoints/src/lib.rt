//! Checkpoints: what a dump tells of the state that its events begin from, and which of them can be
//! restored. It promises that what can be restored is a state as calls lead to: well formed, with
//! entries that name rightly and mappings that lie apart. How a machine restores one is left to the
//! crates above.
#![tactic(auto)]

mod checkpoints;
mod laws;
mod slot_lists;

pub use checkpoints::{
    Attributes, Checkpoint, NextNumber, RawBody, RawGate, RawObject, RawThread, Recorded,
};
pub use laws::{
    boot_is_sound, labels_as_written, later_are_legal, restorable_are_whole,
    restored_is_well_formed, restored_mappings_are_apart, restored_names_rightly, sound_stays,
};
pub use slot_lists::{FilledSlot, SlotList};

//! The state of the arena kernel: objects in slots, interned labels, kept uses, and by slot what segments, devices and
//! address spaces hold.
//!
//! A contract sees it as a state of the rules, which is well formed. Each change gives the state that the rules name:
//! no slot, link, frame or label index ever lacks, since each object was admitted by its quota. Only a boot, and a state
//! that is laid out anew from records, take memory. Labels of stored objects are compared by bits that are kept, without
//! a scan. Which calls are refused is left to the crates above.
#![tactic(auto)]

mod boots;
mod changes;
mod holdings;
mod locations;
mod looks;
mod making;
mod pieces;
mod records;
mod restores;
mod rows;
mod states;

pub use holdings::Holdings;
pub use locations::Location;
pub use pieces::Pieces;
pub use records::{Kept, KeptGate, KeptThread, Record};
pub use restores::are_younger;
pub use rows::Change;
pub use states::ArenaState;

//! What the arena kernel keeps beside its records, by slot: the bytes of segments and the packets of devices (`segments`), the
//! mappings of address spaces (`address_spaces`), and what each thread's address space shows (`translation_rows`).
//!
//! Each is a list over the slots for a contract. Only a `boot` takes memory. Which slot is what, and who may read or write it, is left to
//! the crates above.
#![tactic(auto)]

pub mod address_spaces;
pub mod segments;
pub mod translation_rows;

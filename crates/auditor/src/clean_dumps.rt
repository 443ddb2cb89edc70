//! Clean dumps, for whoever looks into one: `Audited::clean` has the dump that an audit found clean, and `begin` makes the state
//! that a dump's events begin in, of a boot or of a checkpoint. What is then looked for in the events is left to others.

mod faults;
mod reading;
mod starts;

pub use faults::DumpFault;
pub use starts::begin;

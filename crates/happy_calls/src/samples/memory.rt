//! What is made once more where the first making had no memory.
use base::{Meter, NoMemory};
use std::alloc::Global;

/// A meter.
pub fn meter_again(alloc: Global) -> Result<Meter, NoMemory> {
    match Meter::new(alloc) {
        Ok(meter) => Ok(meter),
        Err(_) => Meter::new(alloc),
    }
}

//! What no dump can have, so that the gate has no dump of it: the gate breaks the other conditions in dumps, one by one.
use super::samples::{booted, outcome};
use anyhow::Result;
use base::Data;
use happy_calls::look::{Look, agree};
use happy_calls::samples::LIMITS;
use plain_core::RawBody;
use std::alloc::Global;

// Metadata are 64 bytes.
fn short_metadata(alloc: Global, look: &mut Look) -> Result<()> {
    look.part("short_metadata");
    let mut made = booted(alloc)?;
    if let Some(device) = made.objects.get_mut(2) {
        if let RawBody::Device(metadata, _) = &mut device.object.body {
            *metadata = Data::from_slice(&[0; 63]);
        }
    }
    look.sees(agree(outcome(alloc, &LIMITS, &made), 60));
    Ok(())
}

/// Plays what there is memory for.
pub fn play(alloc: Global, look: &mut Look) -> Result<()> {
    short_metadata(alloc, look)
}

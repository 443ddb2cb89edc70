//! How those who go on until they are stopped pass the time between two calls.
use std::sync::atomic::{AtomicBool, Ordering};

/// How often who goes on and on looks between two calls whether it may stop.
pub const ON_AND_ON: u32 = 1;

/// How often who reads seldom looks between two reads whether it may stop: that takes some nineteen times as long as a read.
pub const SELDOM: u32 = 2000;

/// Whether it was told to stop, by the end of a pause of so many looks.
pub fn has_stopped(stop: &AtomicBool, looks: u32) -> bool {
    for _ in 0..looks {
        if stop.load(Ordering::SeqCst) {
            return true;
        }
    }
    false
}

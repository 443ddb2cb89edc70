//! The time since another one, and a line of two times with their ratio.
use anyhow::Result;
use std::rt::Clock;
use std::time::Instant;

/// The nanoseconds since a time.
pub fn nanos_since(rt: &impl Clock, start: Instant) -> Result<u64> {
    let elapsed = start.elapsed(rt)?;
    let whole = elapsed.as_secs().saturating_mul(1_000_000_000);
    Ok(whole.saturating_add(u64::from(elapsed.subsec_nanos())))
}

/// A line with the times of so many steps, ours and others', as nanoseconds a step, and the ratio of the first to the
/// second.
pub fn print_ratio(
    rt: &impl Print,
    what: &str,
    other: &str,
    steps: u64,
    ours: u64,
    theirs: u64,
) -> Result<()> {
    let steps = steps.max(1);
    let hundredths = ours.saturating_mul(100) / theirs.max(1);
    let (whole, part) = (hundredths / 100, hundredths % 100);
    let (ours, theirs) = (ours / steps, theirs / steps);
    println!(rt; "{what}: {ours} ns, {other} {theirs} ns, ratio {whole}.{part:02}")?;
    Ok(())
}

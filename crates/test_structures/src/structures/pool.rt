//! Labels that have one index each, and without memory.

use anyhow::{Result, bail};
use base::{Level, Meter, NoMemory};
use happy_calls::look::{Look, agree};
use happy_calls::samples::{everywhere, label_with, meter_again, plain};
use label_intern::{Labels, OrderBits};
use label_lattice::Label;
use std::alloc::Global;

// Three indexes, booted once more where the first boot had no memory.
fn booted_again(alloc: Global) -> Result<Labels, NoMemory> {
    match Labels::boot(alloc, 3) {
        Ok(labels) => Ok(labels),
        Err(_) => Labels::boot(alloc, 3),
    }
}

fn order_is_kept(alloc: Global, look: &mut Look) -> Result<()> {
    look.part("order_is_kept");
    let mut meter = Meter::new(alloc)?;
    let mut labels = Labels::boot(alloc, 3)?;
    let Ok(plain) = Label::from_raw(&plain(), &mut meter) else {
        bail!("no label");
    };
    let Ok(owner) = Label::from_raw(&label_with(Level::Star, Level::L1), &mut meter) else {
        bail!("no label");
    };

    let a = labels.intern(&owner, &mut meter);
    let b = labels.intern(&plain, &mut meter);
    look.sees(agree(labels.order(a, b), OrderBits(3)));
    look.sees(agree(labels.order(b, a), OrderBits(6)));
    look.sees(agree(labels.order(a, a), OrderBits(7)));
    look.sees(agree(labels.len(), 2));
    look.sees(labels.get(b).same(&plain, &mut meter));

    labels.release(a);
    look.sees(!labels.holds(a));
    let scans = meter.scans();
    let again = labels.intern(&plain, &mut meter);
    look.sees(agree(again, b));
    look.sees(meter.scans() <= scans + 10);
    labels.release(b);
    look.sees(labels.holds(b));
    Ok(())
}

// Where an allocation is refused, a pool that is booted again is as if nothing had been.
fn want_of_memory_changes_nothing(alloc: Global, look: &mut Look) -> Result<()> {
    look.part("want_of_memory_changes_nothing");
    let mut meter = meter_again(alloc)?;
    let mut labels = booted_again(alloc)?;
    look.sees(agree(labels.len(), 0));
    let Ok(low) = Label::from_raw(&plain(), &mut meter) else {
        bail!("no label");
    };
    let Ok(high) = Label::from_raw(&everywhere(Level::L2), &mut meter) else {
        bail!("no label");
    };
    let a = labels.intern(&low, &mut meter);
    let b = labels.intern(&high, &mut meter);
    look.sees(agree(labels.order(a, b), OrderBits(7)));
    look.sees(agree(labels.order(b, a), OrderBits(0)));
    look.sees(agree(labels.len(), 2));
    labels.release(a);
    look.sees(!labels.holds(a));
    look.sees(labels.holds(b));
    Ok(())
}

/// Plays what there is memory for.
pub fn play(alloc: Global, look: &mut Look) -> Result<()> {
    order_is_kept(alloc, look)
}

/// Plays what is made again where there was no memory.
pub fn again(alloc: Global, look: &mut Look) -> Result<()> {
    want_of_memory_changes_nothing(alloc, look)
}

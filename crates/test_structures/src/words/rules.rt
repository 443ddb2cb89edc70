//! Each rule where it holds and where it doesn't, over the labels {1}, {1:*,1} and {1:3,1}.
use anyhow::{Result, bail};
use base::{Category, Level, Meter};
use happy_calls::look::{Look, agree};
use happy_calls::samples::label_with;
use label_lattice::Label;
use label_lattice::label_rules::{
    Asked, Bearer, is_above_floor, is_below, is_below_join, is_below_join_up, is_between, is_shown,
    is_visible, may_clear, may_enter, stored_of, with_category,
};
use std::alloc::Global;

/// The label that has one exception at most: category 1 at a level.
fn stored_with(level: Level, default: Level, meter: &mut Meter) -> Option<Label> {
    stored_of(&label_with(level, default), meter)
}

fn orders(alloc: Global, look: &mut Look) -> Result<()> {
    look.part("orders");
    let mut meter = Meter::new(alloc)?;
    let owner = stored_with(Level::Star, Level::L1, &mut meter);
    let plain = stored_with(Level::L1, Level::L1, &mut meter);
    let secret = stored_with(Level::L3, Level::L1, &mut meter);
    let (owner, plain, secret) = (owner.as_ref(), plain.as_ref(), secret.as_ref());
    look.sees(is_below(owner, plain, &mut meter) && is_below(plain, secret, &mut meter));
    look.sees(!is_below(secret, plain, &mut meter) && !is_below(None, secret, &mut meter));
    look.sees(is_visible(secret, owner, &mut meter));
    look.sees(!is_visible(secret, plain, &mut meter));
    look.sees(is_shown(plain, owner, &mut meter) && !is_shown(owner, plain, &mut meter));
    look.sees(is_below_join(secret, plain, secret, &mut meter));
    look.sees(!is_below_join(secret, plain, owner, &mut meter));
    look.sees(is_below_join_up(secret, plain, owner, &mut meter));
    look.sees(!is_below_join_up(secret, owner, plain, &mut meter));
    look.sees(is_above_floor(plain, owner, owner, &mut meter));
    look.sees(!is_above_floor(plain, plain, owner, &mut meter));
    look.sees(is_between(plain, secret, secret, &mut meter));
    look.sees(!is_between(plain, secret, plain, &mut meter));
    look.sees(may_clear(owner, plain, secret, &mut meter));
    look.sees(!may_clear(plain, plain, secret, &mut meter));
    Ok(())
}

fn a_category_is_added(alloc: Global, look: &mut Look) -> Result<()> {
    look.part("a_category_is_added");
    let mut meter = Meter::new(alloc)?;
    let Some(plain) = stored_with(Level::L1, Level::L1, &mut meter) else {
        bail!("no label");
    };
    let Some(owner) = with_category(&plain, Category(1), Level::Star, &mut meter) else {
        bail!("no room");
    };
    look.sees(agree(owner.level(Category(1), &mut meter), Level::Star));
    Ok(())
}

/// A thread or a gate that has category 1 at a level, and the clearance {2}.
fn bearer(level: Level, meter: &mut Meter) -> Bearer {
    Bearer {
        label: stored_with(level, Level::L1, meter),
        clearance: stored_with(Level::L2, Level::L2, meter),
    }
}

fn a_gate_lends_what_it_owns(alloc: Global, look: &mut Look) -> Result<()> {
    look.part("a_gate_lends_what_it_owns");
    let mut meter = Meter::new(alloc)?;
    let thread = bearer(Level::L1, &mut meter);
    let gate = bearer(Level::Star, &mut meter);
    let asked = Asked {
        label: stored_with(Level::Star, Level::L1, &mut meter),
        clearance: stored_with(Level::L2, Level::L2, &mut meter),
        verify: stored_with(Level::L3, Level::L3, &mut meter),
    };
    look.sees(may_enter(&thread, &gate, &asked, &mut meter));
    look.sees(!may_enter(&thread, &thread, &asked, &mut meter));
    Ok(())
}

/// Plays what there is memory for.
pub fn play(alloc: Global, look: &mut Look) -> Result<()> {
    orders(alloc, look)?;
    a_category_is_added(alloc, look)?;
    a_gate_lends_what_it_owns(alloc, look)
}

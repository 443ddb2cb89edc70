//! Labels: their orders, their exceptions, and their raw form.
use anyhow::{Result, bail};
use base::{Category, Level, Meter, Refusal};
use happy_calls::look::{Look, agree};
use happy_calls::samples::{is_labelled, label_with, pair};
use label_lattice::{Label, Pair, RawLabel};
use std::alloc::Global;

/// The label {1}.
fn plain(meter: &mut Meter) -> Result<Label, Refusal> {
    Label::from_raw(&RawLabel::new(Level::L1, &[]), meter)
}

/// The label {1} with one exception, at category 1.
fn with_first(level: Level, meter: &mut Meter) -> Result<Label, Refusal> {
    Label::from_raw(&label_with(level, Level::L1), meter)
}

/// The categories 1 to 17 at level 3.
fn seventeen() -> [Pair; 17] {
    let top = Level::L3;
    [
        pair(1, top),
        pair(2, top),
        pair(3, top),
        pair(4, top),
        pair(5, top),
        pair(6, top),
        pair(7, top),
        pair(8, top),
        pair(9, top),
        pair(10, top),
        pair(11, top),
        pair(12, top),
        pair(13, top),
        pair(14, top),
        pair(15, top),
        pair(16, top),
        pair(17, top),
    ]
}

fn an_owner_and_a_plain_label(alloc: Global, look: &mut Look) -> Result<()> {
    look.part("an_owner_and_a_plain_label");
    let mut meter = Meter::new(alloc)?;
    let Ok(owner) = with_first(Level::Star, &mut meter) else {
        bail!("no label");
    };
    let Ok(plain) = plain(&mut meter) else {
        bail!("no label");
    };
    look.sees(owner.leq(&plain, &mut meter));
    look.sees(owner.leq_up(&plain, &mut meter));
    look.sees(!owner.leq_up_up(&plain, &mut meter));
    look.sees(!plain.leq(&owner, &mut meter));
    look.sees(plain.leq_up(&owner, &mut meter));
    look.sees(plain.leq_up_up(&owner, &mut meter));
    look.sees(owner.has_star(&mut meter));
    look.sees(!plain.has_star(&mut meter));
    look.sees(!owner.same(&plain, &mut meter));
    look.sees(owner.same(&owner, &mut meter));
    look.sees(agree(meter.scans(), 12));
    look.sees(agree(meter.probes(), 0));
    Ok(())
}

fn how_two_labels_are_listed(alloc: Global, look: &mut Look) -> Result<()> {
    look.part("how_two_labels_are_listed");
    let mut meter = Meter::new(alloc)?;
    let Ok(owner) = with_first(Level::Star, &mut meter) else {
        bail!("no label");
    };
    let Ok(plain) = plain(&mut meter) else {
        bail!("no label");
    };
    look.sees(agree(owner.order_bits(&plain, &mut meter), 3));
    look.sees(agree(plain.order_bits(&owner, &mut meter), 6));
    let ways = owner.order_bits_both_ways(&plain, &mut meter);
    look.sees(agree(ways.forth, 3));
    look.sees(agree(ways.back, 6));
    look.sees(plain.listing_cmp(&owner, &mut meter).is_lt());
    look.sees(owner.listing_cmp(&plain, &mut meter).is_gt());
    look.sees(owner.listing_cmp(&owner, &mut meter).is_eq());
    Ok(())
}

fn maxima_and_the_floor_of_a_gate(alloc: Global, look: &mut Look) -> Result<()> {
    look.part("maxima_and_the_floor_of_a_gate");
    let mut meter = Meter::new(alloc)?;
    let Ok(owner) = with_first(Level::Star, &mut meter) else {
        bail!("no label");
    };
    let Ok(secret) = with_first(Level::L3, &mut meter) else {
        bail!("no label");
    };
    let Ok(low) = with_first(Level::L0, &mut meter) else {
        bail!("no label");
    };
    let Ok(plain) = plain(&mut meter) else {
        bail!("no label");
    };

    // The maximum of {#1:*,1} and {#1:3,1} is {#1:3,1}.
    look.sees(secret.leq_join(&owner, &secret, &mut meter));
    look.sees(!secret.leq_join(&owner, &plain, &mut meter));
    // That of {#1:0,1} and {#1:J,1} is {#1:J,1}, and of {#1:*,1} and {#1:0,1} it is {#1:0,1}.
    look.sees(secret.leq_join_up(&low, &owner, &mut meter));
    look.sees(!secret.leq_join_up(&owner, &low, &mut meter));

    // What the thread or the gate owns, the floor has at star, whatever level the other has.
    look.sees(owner.floor_leq(&plain, &owner, &mut meter));
    look.sees(plain.floor_leq(&owner, &owner, &mut meter));
    look.sees(owner.floor_leq(&secret, &low, &mut meter));
    // Where neither owns, it has the higher of both levels.
    look.sees(!plain.floor_leq(&plain, &owner, &mut meter));
    look.sees(!low.floor_leq(&secret, &plain, &mut meter));
    look.sees(low.floor_leq(&secret, &secret, &mut meter));
    look.sees(agree(meter.scans(), 14));
    Ok(())
}

fn sixteen_exceptions_and_no_more(alloc: Global, look: &mut Look) -> Result<()> {
    look.part("sixteen_exceptions_and_no_more");
    let mut meter = Meter::new(alloc)?;
    let pairs = seventeen();
    let too_many = RawLabel::new(Level::L1, &pairs);
    look.sees(matches!(
        &Label::from_raw(&too_many, &mut meter),
        Err(Refusal::BadLabel)
    ));
    // At a default of 3 no pair is an exception.
    let Ok(none) = Label::from_raw(&RawLabel::new(Level::L3, &pairs), &mut meter) else {
        bail!("no label");
    };
    look.sees(agree(none.to_raw(&mut meter).pairs.len(), 0));
    Ok(())
}

fn a_full_label_takes_no_other_category(alloc: Global, look: &mut Look) -> Result<()> {
    look.part("a_full_label_takes_no_other_category");
    let mut meter = Meter::new(alloc)?;
    let pairs = seventeen();
    let without_first = &pairs[1..16];
    let Ok(full) = Label::from_raw(&RawLabel::new(Level::L1, &pairs[..16]), &mut meter) else {
        bail!("no label");
    };
    look.sees(agree(full.level(Category(16), &mut meter), Level::L3));
    look.sees(agree(full.level(Category(17), &mut meter), Level::L1));
    look.sees(full.with(Category(17), Level::L0, &mut meter).is_none());
    let Some(same) = full.with(Category(17), Level::L1, &mut meter) else {
        bail!("room");
    };
    look.sees(same.same(&full, &mut meter));
    let Some(changed) = full.with(Category(16), Level::Star, &mut meter) else {
        bail!("room");
    };
    look.sees(agree(changed.level(Category(16), &mut meter), Level::Star));
    let Some(fewer) = full.with(Category(1), Level::L1, &mut meter) else {
        bail!("room");
    };
    let wanted = RawLabel::new(Level::L1, without_first);
    look.sees(is_labelled(&fewer.to_raw(&mut meter), &wanted));
    Ok(())
}

fn raw_labels(alloc: Global, look: &mut Look) -> Result<()> {
    look.part("raw_labels");
    let mut meter = Meter::new(alloc)?;
    let mixed = RawLabel::new(
        Level::L1,
        &[pair(9, Level::L3), pair(4, Level::L1), pair(2, Level::Star)],
    );
    let Ok(label) = Label::from_raw_below(&mixed, 10, &mut meter) else {
        bail!("no label");
    };
    let raw = label.to_raw(&mut meter);
    let sorted = RawLabel::new(Level::L1, &[pair(2, Level::Star), pair(9, Level::L3)]);
    look.sees(is_labelled(&raw, &sorted));
    look.sees(mixed.has_star());
    look.sees(!RawLabel::new(Level::L1, &[pair(9, Level::L3)]).has_star());

    look.sees(mixed.all_made(10));
    look.sees(!mixed.all_made(9));
    look.sees(!RawLabel::new(Level::L1, &[pair(0, Level::L3)]).all_made(9));
    let early = Label::from_raw_below(&mixed, 9, &mut meter);
    look.sees(matches!(&early, Err(Refusal::BadLabel)));

    let twice = RawLabel::new(Level::L1, &[pair(2, Level::L1), pair(2, Level::L1)]);
    look.sees(matches!(&Label::from_raw(&twice, &mut meter), Err(Refusal::BadLabel)));
    let owned = RawLabel::new(Level::Star, &[]);
    look.sees(owned.has_star());
    look.sees(matches!(&Label::from_raw(&owned, &mut meter), Err(Refusal::BadLabel)));
    look.sees(agree(meter.scans(), 5));
    Ok(())
}

/// Plays what there is memory for.
pub fn play(alloc: Global, look: &mut Look) -> Result<()> {
    an_owner_and_a_plain_label(alloc, look)?;
    how_two_labels_are_listed(alloc, look)?;
    maxima_and_the_floor_of_a_gate(alloc, look)?;
    sixteen_exceptions_and_no_more(alloc, look)?;
    a_full_label_takes_no_other_category(alloc, look)?;
    raw_labels(alloc, look)
}

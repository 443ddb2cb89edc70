//! Refusals on a booted kernel, and what is told of each.
use anyhow::Result;
use base::{Level, Meter, NoMemory, ObjectId, Refusal};
use explained::{
    Comparison, Failing, Finding, Part, Rank, Ranks, explain, explain_query, refusal_among,
};
use happy_calls::look::{Look, agree};
use happy_calls::samples::{
    LIMITS, boot_thread, everywhere, in_root, label_with, new_segment, new_thread, plain,
    refusal_in,
};
use kernel_calls::{ask, step};
use kernel_rules::{Call, Mapping, NewAddressSpace, Query};
use plain_state::PlainState;
use std::alloc::Global;

/// Makes a call.
fn make(state: &mut PlainState, call: &Call, meter: &mut Meter) -> Result<(), NoMemory> {
    match step(state, boot_thread(), call, meter) {
        Ok(_) => Ok(()),
        Err(want) => Err(want),
    }
}

/// A part of the first finding that is of this refusal.
fn part_of(found: &[Finding], refusal: Refusal, place: usize) -> Option<Part> {
    for finding in found {
        if finding.refusal == refusal {
            return finding.parts.as_slice().get(place).copied();
        }
    }
    None
}

/// Where the comparison of that part fails.
fn failing_in(
    alloc: Global,
    found: &[Finding],
    refusal: Refusal,
    place: usize,
    meter: &mut Meter,
) -> Result<Option<Failing>, NoMemory> {
    match part_of(found, refusal, place) {
        Some(Part::Compared(labels)) => labels.failing(alloc, meter),
        _ => Ok(None),
    }
}

/// A secret of category 1, which is segment 4, and thread 5, which does not own it.
fn secret(alloc: Global, meter: &mut Meter) -> Result<Option<PlainState>, NoMemory> {
    let Ok(mut state) = PlainState::boot(alloc, &LIMITS) else {
        return Ok(None);
    };
    make(&mut state, &Call::CatCreate, meter)?;
    make(
        &mut state,
        &new_segment(label_with(Level::L3, Level::L1)),
        meter,
    )?;
    make(&mut state, &new_thread(), meter)?;
    Ok(Some(state))
}

fn a_secret_is_kept_by_its_category(alloc: Global, look: &mut Look) -> Result<()> {
    look.part("a_secret_is_kept_by_its_category");
    let mut meter = Meter::new(alloc)?;
    let Some(state) = secret(alloc, &mut meter)? else {
        return Ok(());
    };
    let thread = ObjectId::new(5);
    let query = Query::SegmentLen { entry: in_root(4) };
    let found = explain_query(&state, thread, &query)?;
    let reply = ask(&state, thread, &query, &mut meter);
    look.sees(agree(refusal_in(reply), Some(Refusal::CannotObserve)));
    look.sees(agree(
        refusal_among(&found, &mut meter),
        Some(Refusal::CannotObserve),
    ));
    let told = failing_in(alloc, &found, Refusal::CannotObserve, 0, &mut meter)?;
    let Some(failing) = told else {
        look.sees(false);
        return Ok(());
    };
    look.sees(failing.rest.is_none());
    look.sees(agree(failing.named.len(), 1));
    let is_of_the_category = match failing.named.as_slice().first() {
        Some(failure) => agree(
            (failure.category.0, failure.ranks.left, failure.ranks.right),
            (1, Rank::L3, Rank::L1),
        ),
        None => false,
    };
    look.sees(is_of_the_category);
    Ok(())
}

fn a_label_too_high_fails_at_all_but_few_categories(alloc: Global, look: &mut Look) -> Result<()> {
    look.part("a_label_too_high_fails_at_all_but_few_categories");
    let mut meter = Meter::new(alloc)?;
    let Some(state) = secret(alloc, &mut meter)? else {
        return Ok(());
    };
    let call = new_segment(label_with(Level::L2, Level::L3));
    let found = explain(&state, boot_thread(), &call)?;
    look.sees(agree(refusal_among(&found, &mut meter), Some(Refusal::LabelRange)));
    let told = failing_in(alloc, &found, Refusal::LabelRange, 1, &mut meter)?;
    let Some(failing) = told else {
        look.sees(false);
        return Ok(());
    };
    look.sees(failing.named.is_empty());
    look.sees(agree(
        failing.rest,
        Some(Ranks {
            left: Rank::L3,
            right: Rank::L2,
        }),
    ));
    Ok(())
}

fn a_quota_that_does_not_suffice_is_told_by_its_sum(alloc: Global, look: &mut Look) -> Result<()> {
    look.part("a_quota_that_does_not_suffice_is_told_by_its_sum");
    let mut meter = Meter::new(alloc)?;
    let state = PlainState::boot(alloc, &LIMITS)?;
    let call = Call::QuotaMove {
        entry: in_root(2),
        change: 90,
    };
    let found = explain(&state, boot_thread(), &call)?;
    look.sees(agree(refusal_among(&found, &mut meter), Some(Refusal::NoQuota)));
    let part = part_of(&found, Refusal::NoQuota, 0);
    look.sees(matches!(part, Some(Part::Sum(_, 4, 90, 64))));
    Ok(())
}

/// A mapping of segment 5.
fn mapping(page: u32) -> Mapping {
    Mapping {
        page,
        entry: in_root(5),
        first: 0,
        count: 1,
        rights: base::Rights {
            read: true,
            write: false,
        },
    }
}

fn pages_that_meet_are_told_by_their_slot(alloc: Global, look: &mut Look) -> Result<()> {
    look.part("pages_that_meet_are_told_by_their_slot");
    let mut meter = Meter::new(alloc)?;
    let mut state = PlainState::boot(alloc, &LIMITS)?;
    let space = Call::AsCreate(NewAddressSpace {
        container: ObjectId::root(),
        label: plain(),
        quota: 1,
    });
    make(&mut state, &space, &mut meter)?;
    make(&mut state, &new_segment(plain()), &mut meter)?;
    let first = Call::AsMap {
        space: in_root(4),
        slot: 7,
        mapping: mapping(3),
    };
    make(&mut state, &first, &mut meter)?;
    let second = Call::AsMap {
        space: in_root(4),
        slot: 2,
        mapping: mapping(3),
    };
    let found = explain(&state, boot_thread(), &second)?;
    look.sees(agree(refusal_among(&found, &mut meter), Some(Refusal::Overlap)));
    for place in 0..17usize {
        let part = part_of(&found, Refusal::Overlap, place);
        let against = match part {
            Some(part) => part.is_against(&mut meter),
            None => true,
        };
        look.sees(agree(against, place == 8));
    }
    look.sees(matches!(
        part_of(&found, Refusal::Overlap, 8),
        Some(Part::Apart(7, _, _))
    ));
    Ok(())
}

fn an_accepted_call_has_no_finding_that_holds(alloc: Global, look: &mut Look) -> Result<()> {
    look.part("an_accepted_call_has_no_finding_that_holds");
    let mut meter = Meter::new(alloc)?;
    let state = PlainState::boot(alloc, &LIMITS)?;
    let found = explain(&state, boot_thread(), &new_segment(everywhere(Level::L2)))?;
    look.sees(agree(found.len(), 12));
    for finding in &found {
        look.sees(!finding.holds(&mut meter));
    }
    Ok(())
}

/// Plays what there is memory for.
pub fn play(alloc: Global, look: &mut Look) -> Result<()> {
    a_secret_is_kept_by_its_category(alloc, look)?;
    a_label_too_high_fails_at_all_but_few_categories(alloc, look)?;
    a_quota_that_does_not_suffice_is_told_by_its_sum(alloc, look)?;
    pages_that_meet_are_told_by_their_slot(alloc, look)?;
    an_accepted_call_has_no_finding_that_holds(alloc, look)
}

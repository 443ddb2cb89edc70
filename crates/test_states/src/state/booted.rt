//! What a booted state shows.

use anyhow::Result;
use base::{Kind, Level, Meter, ObjectId, Refusal, TypeSet};
use happy_calls::look::{Look, agree};
use happy_calls::samples::{LIMITS, boot_thread, device, everywhere, in_root, plain};
use kernel_store::{
    NewObject, Store, avoids_object, find_all, find_container, find_entry, halted, look_at,
    new_bearer, new_object, refusal_of, space_entry,
};
use label_lattice::label_rules::stored_of;
use label_lattice::{Label, RawLabel};
use plain_state::PlainState;
use std::alloc::Global;

fn limits_are_tested(alloc: Global, look: &mut Look) -> Result<()> {
    look.part("limits_are_tested");
    let mut limits = LIMITS;
    limits.pages = 7;
    match PlainState::boot(alloc, &limits) {
        Ok(_) => look.sees(false),
        Err(refusal) => look.sees(agree(refusal.refusal().number(), 31)),
    }
    Ok(())
}

fn objects_of_a_booted_state(alloc: Global, look: &mut Look) -> Result<()> {
    look.part("objects_of_a_booted_state");
    let state = PlainState::boot(alloc, &LIMITS)?;
    let root = ObjectId::root();
    state.well_formed();
    state.bytes_are_whole(root);
    look.sees(agree(state.next_id().number(), 4));
    look.sees(agree(state.next_category(), 1));
    look.sees(state.object(root).is_some() && state.label(root).is_some());
    look.sees(state.is_kind(Kind::Container, root) && !state.is_kind(Kind::Thread, root));
    look.sees(state.is_live_kind(Kind::Thread, boot_thread()));
    look.sees(state.clearance(boot_thread()).is_some() && state.clearance(root).is_none());
    look.sees(state.gate(boot_thread()).is_none());
    look.sees(agree(state.list(root), [boot_thread(), device()].as_slice()));
    look.sees(state.is_listed(root, device()) && state.lists(root, boot_thread()));
    look.sees(state.holds(&in_root(3)) && !state.holds(&in_root(4)));
    look.sees(agree(state.parent(root), root));
    Ok(())
}

fn numbers_of_a_booted_state(alloc: Global, look: &mut Look) -> Result<()> {
    look.part("numbers_of_a_booted_state");
    let state = PlainState::boot(alloc, &LIMITS)?;
    let root = ObjectId::root();
    look.sees(agree(state.quota(root), 64));
    // One page for the root, one for the thread and two for the device.
    look.sees(agree(state.used(root), 4));
    look.sees(agree(state.used_pages(root), 4));
    look.sees(state.is_over(root, 61) && !state.is_over(root, 60));
    look.sees(!state.is_fixed(device()) && !state.is_immutable(root));
    look.sees(!state.avoids(Kind::Gate, root));
    let gates = TypeSet::of(Kind::Gate);
    look.sees(agree(state.joined(root, gates), gates));
    look.sees(agree(state.bytes(root).len(), 0));
    look.sees(agree(state.page_count(root), 0));
    look.sees(agree(state.packets(device()).len(), 0));
    look.sees(agree(state.slots(root).len(), 0));
    look.sees(state.slot(root, 0).is_none());
    Ok(())
}

fn rules_of_a_booted_state(alloc: Global, look: &mut Look) -> Result<()> {
    look.part("rules_of_a_booted_state");
    let mut meter = Meter::new(alloc)?;
    let state = PlainState::boot(alloc, &LIMITS)?;
    let root = ObjectId::root();
    let thread = boot_thread();
    look.sees(state.observes(thread, root, &mut meter));
    look.sees(state.flows_to(thread, root, &mut meter));
    look.sees(state.is_accessible(thread, root, &mut meter));
    let seen = look_at(&state, thread, &in_root(3), &mut meter);
    look.sees(seen.accessible && seen.held && seen.listed && seen.object.is(Kind::Device));
    look.sees(agree(refusal_of(&[&halted(&state, thread)]), None));
    look.sees(agree(refusal_of(&[&halted(&state, root)]), Some(Refusal::Halted)));
    let space = refusal_of(&[&space_entry(&in_root(3), &seen)]);
    look.sees(agree(space, Some(Refusal::WrongType)));
    look.sees(state.translate(thread, 0, &mut meter).is_none());
    look.sees(state.place(thread, 0, &mut meter).is_none());
    Ok(())
}

fn looks_at_a_booted_state(alloc: Global, look: &mut Look) -> Result<()> {
    look.part("looks_at_a_booted_state");
    let mut meter = Meter::new(alloc)?;
    let state = PlainState::boot(alloc, &LIMITS)?;
    let (root, thread) = (ObjectId::root(), boot_thread());
    let named = find_all(&state, thread, &in_root(3), &mut meter);
    let seen = kernel_store::look(&state, named, &mut meter);
    look.sees(seen.runs && seen.accessible && seen.held && seen.listed);
    look.sees(seen.container.is(Kind::Container) && seen.object.is(Kind::Device));
    look.sees(!avoids_object(&state, named.container, named.object, &seen.object));
    look.sees(Store::is_cleared(&state, thread, device(), &mut meter));
    let around = find_container(&state, thread, root, &mut meter);
    let seen = kernel_store::look(&state, around, &mut meter);
    look.sees(seen.held && !seen.listed && seen.object.is(Kind::Container));
    let gone = find_entry(&state, thread, &in_root(4), &mut meter);
    let seen = kernel_store::look(&state, gone, &mut meter);
    look.sees(seen.accessible && !seen.held && seen.object.kind.is_none());
    Ok(())
}

/// What refuses a new segment of two pages in the root, which the boot thread makes and which uses so many itself.
fn segment_refusal(
    state: &PlainState,
    pages: u64,
    label: &RawLabel,
    stored: Option<&Label>,
    meter: &mut Meter,
) -> Option<Refusal> {
    let named = find_container(state, boot_thread(), ObjectId::root(), meter);
    let made = NewObject {
        kind: Kind::Segment,
        quota: 2,
        pages,
        label,
        stored,
    };
    refusal_of(&[&new_object(state, named, &made, meter)])
}

/// What refuses a new gate in the root, which the boot thread makes and whose clearance is its label.
fn gate_refusal(
    state: &PlainState,
    label: &RawLabel,
    stored: Option<&Label>,
    meter: &mut Meter,
) -> Option<Refusal> {
    let named = find_container(state, boot_thread(), ObjectId::root(), meter);
    let made = NewObject {
        kind: Kind::Gate,
        quota: 2,
        pages: 1,
        label,
        stored,
    };
    refusal_of(&[&new_bearer(state, named, &made, label, stored, meter)])
}

fn what_refuses_new_objects(alloc: Global, look: &mut Look) -> Result<()> {
    look.part("what_refuses_new_objects");
    let mut meter = Meter::new(alloc)?;
    let state = PlainState::boot(alloc, &LIMITS)?;
    let (plain, owned, secret) = (plain(), everywhere(Level::Star), everywhere(Level::L3));
    let stored = stored_of(&plain, &mut meter);
    let refused = segment_refusal(&state, 3, &plain, stored.as_ref(), &mut meter);
    look.sees(agree(refused, Some(Refusal::NoQuota)));
    let stored = stored_of(&owned, &mut meter);
    let refused = segment_refusal(&state, 1, &owned, stored.as_ref(), &mut meter);
    look.sees(agree(refused, Some(Refusal::BadLabel)));
    let stored = stored_of(&secret, &mut meter);
    let refused = segment_refusal(&state, 1, &secret, stored.as_ref(), &mut meter);
    look.sees(agree(refused, Some(Refusal::LabelRange)));
    Ok(())
}

fn what_refuses_a_new_gate(alloc: Global, look: &mut Look) -> Result<()> {
    look.part("what_refuses_a_new_gate");
    let mut meter = Meter::new(alloc)?;
    let state = PlainState::boot(alloc, &LIMITS)?;
    let plain = plain();
    let stored = stored_of(&plain, &mut meter);
    look.sees(agree(
        gate_refusal(&state, &plain, stored.as_ref(), &mut meter),
        None,
    ));
    Ok(())
}

/// Plays what there is memory for.
pub fn play(alloc: Global, look: &mut Look) -> Result<()> {
    limits_are_tested(alloc, look)?;
    objects_of_a_booted_state(alloc, look)?;
    numbers_of_a_booted_state(alloc, look)?;
    rules_of_a_booted_state(alloc, look)?;
    looks_at_a_booted_state(alloc, look)?;
    what_refuses_new_objects(alloc, look)?;
    what_refuses_a_new_gate(alloc, look)
}

//! A state that is booted, and each change, made where it may be.

use base::{Data, Kind, Meter, NoMemory, ObjectId, TypeSet};
use happy_calls::samples::{LIMITS, boot_thread, in_root, plain};
use kernel_rules::{Body, Bytes, Entry, Gate, IdList, Slots};
use label_lattice::Label;
use label_lattice::label_rules::stored_of;
use plain_state::{BootRefusal, PlainState};
use std::alloc::Global;

/// A state, booted once more where the first boot had no memory.
pub fn booted_again(alloc: Global) -> Result<PlainState, BootRefusal> {
    match PlainState::boot(alloc, &LIMITS) {
        Ok(state) => Ok(state),
        Err(_) => PlainState::boot(alloc, &LIMITS),
    }
}

fn stored(meter: &mut Meter) -> Option<Label> {
    stored_of(&plain(), meter)
}

/// Adds an object to the root, where it fits.
fn add(
    state: &mut PlainState,
    quota: u32,
    body: Body,
    meter: &mut Meter,
) -> Result<Option<ObjectId>, NoMemory> {
    let root = ObjectId::root();
    if state.is_kind(Kind::Container, root)
        && !state.is_over(root, quota)
        && state.next_id().number() < 1 << 61
    {
        let label = stored(meter);
        let id = state.create(root, label, quota, body)?;
        return Ok(Some(id));
    }
    Ok(None)
}

pub fn add_space(state: &mut PlainState, meter: &mut Meter) -> Result<Option<ObjectId>, NoMemory> {
    add(state, 1, Body::AddressSpace(Slots::empty()), meter)
}

pub fn add_segment(
    state: &mut PlainState,
    meter: &mut Meter,
) -> Result<Option<ObjectId>, NoMemory> {
    let bytes = Bytes::zeroed(state.alloc(), 0)?;
    add(state, 2, Body::Segment(bytes), meter)
}

pub fn add_container(
    state: &mut PlainState,
    meter: &mut Meter,
) -> Result<Option<ObjectId>, NoMemory> {
    let list = IdList::new(state.alloc());
    add(state, 8, Body::Container(TypeSet::none(), list), meter)
}

/// Gives a segment one page, where its quota allows it.
pub fn resize(state: &mut PlainState, id: ObjectId) -> Result<bool, NoMemory> {
    let fits = state.is_kind(Kind::Segment, id) && 2 <= state.quota(id);
    if fits {
        state.resize(id, 1)?;
    }
    Ok(fits)
}

/// Writes a byte, where a segment is so long.
pub fn write(state: &mut PlainState, id: ObjectId, at: usize) -> bool {
    let fits = at < state.bytes(id).len();
    if fits {
        state.write_bytes(id, at, &[7]);
    }
    fits
}

/// Queues a packet, where there is room.
pub fn dev_send(state: &mut PlainState, id: ObjectId) -> Result<bool, NoMemory> {
    let fits = state.packets(id).len() < 4;
    if fits {
        state.dev_send(id, Data::from_slice(&[1]))?;
    }
    Ok(fits)
}

/// Links an object in a second container, where it may be.
pub fn link(state: &mut PlainState, container: ObjectId, entry: &Entry) -> Result<bool, NoMemory> {
    let fits = state.is_kind(Kind::Container, container)
        && state.holds(entry)
        && !state.is_kind(Kind::Container, entry.object)
        && state.is_fixed(entry.object)
        && !state.lists(container, entry.object)
        && !state.is_over(container, state.quota(entry.object));
    if fits {
        state.link(container, entry)?;
    }
    Ok(fits)
}

/// Gives an object a page more, where its container has room for it.
pub fn grow(state: &mut PlainState, entry: &Entry) -> bool {
    let fits = state.lists(entry.container, entry.object)
        && !state.is_fixed(entry.object)
        && !state.is_over(entry.container, 1)
        && state.used(entry.object) <= u128::from(state.quota(entry.object));
    if fits {
        state.quota_move(entry, 1, 0);
    }
    fits
}

/// Gives the next category away, where one is left.
pub fn own(state: &mut PlainState, meter: &mut Meter) -> bool {
    let (label, clearance) = (stored(meter), stored(meter));
    let left = state.next_category() < 1 << 61;
    if left {
        state.own_category(boot_thread(), label, clearance);
    }
    left
}

/// The boot thread gets what a gate hands on.
pub fn enter(state: &mut PlainState, meter: &mut Meter) -> bool {
    match stored(meter) {
        None => false,
        Some(label) => {
            let gate = Gate {
                clearance: label,
                space: in_root(3),
                entry_point: 7,
                closure: 9,
            };
            state.enter(boot_thread(), label, label, label, &gate);
            true
        }
    }
}

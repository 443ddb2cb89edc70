//! Each change once, and without memory.
use super::samples::{
    add_container, add_segment, add_space, booted_again, dev_send, enter, grow, link, own, resize,
    write,
};
use anyhow::Result;
use base::{Data, Level, Meter, ObjectId, Rights};
use happy_calls::look::{Look, agree};
use happy_calls::samples::{LIMITS, boot_thread, device, everywhere, in_root, meter_again};
use kernel_rules::Mapping;
use label_lattice::label_rules::stored_of;
use plain_state::PlainState;
use std::alloc::Global;

fn a_segment_is_shown_through_an_address_space(alloc: Global, look: &mut Look) -> Result<()> {
    look.part("a_segment_is_shown_through_an_address_space");
    let mut meter = Meter::new(alloc)?;
    let mut state = PlainState::boot(alloc, &LIMITS)?;
    let (space, segment) = (ObjectId::new(4), ObjectId::new(5));
    look.sees(agree(add_space(&mut state, &mut meter)?, Some(space)));
    look.sees(agree(add_segment(&mut state, &mut meter)?, Some(segment)));
    look.sees(resize(&mut state, segment)? && write(&mut state, segment, 255));
    look.sees(agree(state.page_count(segment), 1));
    let mapping = Mapping {
        page: 3,
        entry: in_root(5),
        first: 0,
        count: 1,
        rights: Rights {
            read: true,
            write: false,
        },
    };
    state.set_slot(space, 15, Some(mapping));
    state.set_space(boot_thread(), in_root(4));
    look.sees(matches!(state.space(boot_thread()), Some(entry) if entry.object == space));
    let shown = state.translate(boot_thread(), 15, &mut meter);
    look.sees(agree(
        shown,
        Some((
            segment,
            Rights {
                read: true,
                write: false,
            },
        )),
    ));
    let place = state.place(boot_thread(), 769, &mut meter);
    look.sees(matches!(place, Some(place) if place.offset == 1));
    Ok(())
}

fn objects_are_changed(alloc: Global, look: &mut Look) -> Result<()> {
    look.part("objects_are_changed");
    let mut meter = Meter::new(alloc)?;
    let mut state = PlainState::boot(alloc, &LIMITS)?;
    let container = ObjectId::new(4);
    look.sees(agree(add_container(&mut state, &mut meter)?, Some(container)));
    look.sees(grow(&mut state, &in_root(4)));
    look.sees(agree(state.quota(container), 9));
    state.set_fixed(device());
    look.sees(link(&mut state, container, &in_root(3))?);
    look.sees(agree(state.list(container), [device()].as_slice()));
    look.sees(dev_send(&mut state, device())?);
    look.sees(agree(state.packets(device()).len(), 1));
    state.dev_recv(device());
    look.sees(agree(state.packets(device()).len(), 0));
    state.meta_set(container, &Data::from_slice(&[8]));
    state.set_immutable(container);
    look.sees(state.is_immutable(container));
    state.unref(&in_root(4))?;
    look.sees(state.object(container).is_none() && state.object(device()).is_some());
    Ok(())
}

fn a_thread_is_changed(alloc: Global, look: &mut Look) -> Result<()> {
    look.part("a_thread_is_changed");
    let mut meter = Meter::new(alloc)?;
    let mut state = PlainState::boot(alloc, &LIMITS)?;
    let top = stored_of(&everywhere(Level::L3), &mut meter);
    look.sees(own(&mut state, &mut meter));
    look.sees(agree(state.next_category(), 2));
    state.set_clearance(boot_thread(), top);
    state.set_label(boot_thread(), top);
    look.sees(!state.observes(ObjectId::root(), boot_thread(), &mut meter));
    look.sees(enter(&mut state, &mut meter));
    look.sees(state.observes(ObjectId::root(), boot_thread(), &mut meter));
    look.sees(matches!(state.space(boot_thread()), Some(entry) if entry.object == device()));
    Ok(())
}

// Where an allocation is refused, the state before stands: the change that is made again is made as
// if nothing had been.
fn want_of_memory_changes_nothing(alloc: Global, look: &mut Look) -> Result<()> {
    look.part("want_of_memory_changes_nothing");
    let mut meter = meter_again(alloc)?;
    let mut state = booted_again(alloc)?;
    let (container, segment) = (ObjectId::new(4), ObjectId::new(5));
    let added = match add_container(&mut state, &mut meter) {
        Ok(added) => added,
        Err(_) => add_container(&mut state, &mut meter)?,
    };
    look.sees(agree(added, Some(container)));
    let added = match add_segment(&mut state, &mut meter) {
        Ok(added) => added,
        Err(_) => add_segment(&mut state, &mut meter)?,
    };
    look.sees(agree(added, Some(segment)));
    let resized = match resize(&mut state, segment) {
        Ok(resized) => resized,
        Err(_) => resize(&mut state, segment)?,
    };
    look.sees(resized);
    state.set_fixed(device());
    let linked = match link(&mut state, container, &in_root(3)) {
        Ok(linked) => linked,
        Err(_) => link(&mut state, container, &in_root(3))?,
    };
    look.sees(linked);
    let queued = match dev_send(&mut state, device()) {
        Ok(queued) => queued,
        Err(_) => dev_send(&mut state, device())?,
    };
    look.sees(queued);
    if state.unref(&in_root(4)).is_err() {
        state.unref(&in_root(4))?;
    }
    look.sees(state.object(container).is_none());
    let listed = [boot_thread(), device(), segment];
    look.sees(agree(state.list(ObjectId::root()), listed.as_slice()));
    Ok(())
}

/// Plays what there is memory for.
pub fn play(alloc: Global, look: &mut Look) -> Result<()> {
    a_segment_is_shown_through_an_address_space(alloc, look)?;
    objects_are_changed(alloc, look)?;
    a_thread_is_changed(alloc, look)
}

/// Plays what is made again where there was no memory.
pub fn again(alloc: Global, look: &mut Look) -> Result<()> {
    want_of_memory_changes_nothing(alloc, look)
}

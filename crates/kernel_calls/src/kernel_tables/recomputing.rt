//! All tables of a state.
ghost use Rattle.std.specs.Prelude.{◌≡◌, ◌≤◌, ◌+◌, ◌++◌, IfOk, OnOk};
ghost use Rattle.std.specs.List.{flat_map};
ghost use Rattle.kernel_rules.specs.Scratch.{ids_of, uses_of, shown_as, shown_from, scratch};
ghost use Rattle.kernel_calls.specs.ById.{shown_at};

use crate::kernel_tables::labels::{compared, raw_labels, stored_labels};
use base::{Kind, Meter, NoMemory, ObjectId, Rights};
use kernel_rules::{Shown, Tables, Used};
use kernel_store::Store;
use std::alloc::Global;

/// The ids of all objects, rising.
fn ids<S: Store>(alloc: Global, state: &S, meter: &mut Meter) -> Result<Vec<ObjectId>, NoMemory>
    ensures { IfOk result (λ ids. ids.items ≡ ids_of (S.state state.now).objects) }
{
    let mut ids = Vec::new(alloc);
    while let Some(id) = state.id_at(ids.len(), meter) {
        ids.push(id)?;
    }
    Ok(ids)
}

/// What each of these objects uses.
fn uses<S: Store>(
    alloc: Global,
    state: &S,
    ids: &[ObjectId],
    meter: &mut Meter,
) -> Result<Vec<Used>, NoMemory>
    ensures { IfOk result (λ uses. uses.items ≡ uses_of (S.state state.now) ids.now) }
{
    let mut uses = Vec::new(alloc);
    for id in ids {
        let at = state.find(*id, meter);
        uses.push(Used {
            id: *id,
            pages: state.used_pages(at),
        })?;
    }
    Ok(uses)
}

/// Puts at the end what a slot shows, if anything.
fn add_shown(
    shown: &mut Vec<Shown>,
    thread: ObjectId,
    slot: u32,
    what: Option<(ObjectId, Rights)>,
) -> Result<(), NoMemory>
    ensures { OnOk result (shown.new.items ≡ shown.old.items ++ shown_as thread slot what) }
{
    if let Some((segment, rights)) = what {
        shown.push(Shown {
            thread,
            slot,
            segment,
            rights,
        })?;
    }
    Ok(())
}

/// Puts at the end what slots of a thread show, so many from one on.
fn add_slots<S: Store>(
    shown: &mut Vec<Shown>,
    state: &S,
    thread: ObjectId,
    slot: u32,
    count: u32,
    meter: &mut Meter,
) -> Result<(), NoMemory>
    requires { slot + count ≤ 16 }
    ensures { OnOk result (shown.new.items
        ≡ shown.old.items ++ shown_from (S.state state.now) thread slot count) }
{
    if count == 0 {
        return Ok(());
    }
    let what = state.translate(thread, slot as usize, meter);
    add_shown(shown, thread, slot, what)?;
    add_slots(shown, state, thread, slot + 1, count - 1, meter)
}

/// Puts at the end what the slots of an object show, where it is a thread.
fn add_object<S: Store>(
    shown: &mut Vec<Shown>,
    state: &S,
    id: ObjectId,
    meter: &mut Meter,
) -> Result<(), NoMemory>
    ensures { OnOk result (shown.new.items ≡ shown.old.items ++ shown_at (S.state state.now) id) }
{
    let at = state.find(id, meter);
    if state.is_live(Kind::Thread, at) {
        add_slots(shown, state, id, 0, 16, meter)
    } else {
        Ok(())
    }
}

/// What the slots of these objects show.
fn shown<S: Store>(
    alloc: Global,
    state: &S,
    ids: &[ObjectId],
    meter: &mut Meter,
) -> Result<Vec<Shown>, NoMemory>
    ensures { IfOk result (λ shown. shown.items
        ≡ flat_map (shown_at (S.state state.now)) ids.now) }
{
    let mut shown = Vec::new(alloc);
    for id in ids {
        add_object(&mut shown, state, *id, meter)?;
    }
    Ok(shown)
}

/// The tables of a state, recomputed. Want of memory is the only error.
pub fn tables<S: Store>(alloc: Global, state: &S, meter: &mut Meter) -> Result<Tables, NoMemory>
    ensures { IfOk result (λ tables. tables ≡ scratch (S.state state.now)) }
{
    let live = ids(alloc, state, meter)?;
    let uses = uses(alloc, state, live.as_slice(), meter)?;
    let shown = shown(alloc, state, live.as_slice(), meter)?;
    let stored = stored_labels(alloc, state, live.as_slice(), meter)?;
    let labels = raw_labels(alloc, stored.as_slice(), meter)?;
    let orders = compared(alloc, stored.as_slice(), meter)?;
    Ok(Tables {
        live,
        uses,
        shown,
        labels,
        orders,
    })
}

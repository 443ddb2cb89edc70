//! What a thread may delete.
ghost use Rattle.std.specs.Prelude.{◌≡◌, ◌++◌, IfOk, OnOk};
ghost use Rattle.plain_state.specs.StateOf.{state_of};
ghost use Rattle.shown_dumps.specs.Deleting.{may_unref, may_delete, deletable_text, is_there};

use base::{Kind, Meter, NoMemory, ObjectId};
use explained::{explain, refusal_among};
use kernel_rules::{Call, Entry, Mapping};
use label_lattice::Label;
use plain_state::PlainState;

/// Whether a container lists an object, and the rules let a thread unreference it there.
fn may_unref(
    state: &PlainState,
    thread: ObjectId,
    entry: Entry,
    meter: &mut Meter,
) -> Result<bool, NoMemory>
    ensures { IfOk result (λ may. may ≡ may_unref (state_of state.now) thread entry) }
{
    // (types that a finding has, which the proof of its drop names)
    let _label: Option<Label> = None;
    let _mapping: Option<Mapping> = None;
    if !state.lists(entry.container, entry.object) {
        return Ok(false);
    }
    let found = explain(state, thread, &Call::Unref { entry })?;
    Ok(refusal_among(found.as_slice(), meter).is_none())
}

/// Whether a thread may unreference an object from some container that lists it. The error is want of memory.
pub fn may_delete(
    state: &PlainState,
    thread: ObjectId,
    object: ObjectId,
    meter: &mut Meter,
) -> Result<bool, NoMemory>
    ensures { IfOk result (λ may. may ≡ may_delete (state_of state.now) thread object) }
{
    for (id, _) in state.records().objects.iter() {
        let container = *id;
        if may_unref(state, thread, Entry { container, object }, meter)? {
            return Ok(true);
        }
    }
    Ok(false)
}

/// Adds that an object is deletable, where a thread is asked about which may delete it. The error is want of memory.
pub fn put_deletable(
    out: &mut Vec<u8>,
    state: &PlainState,
    asked: Option<ObjectId>,
    id: ObjectId,
    meter: &mut Meter,
) -> Result<(), NoMemory>
    ensures { OnOk result (out.new.items ≡ out.old.items ++ deletable_text (state_of state.now) asked id) }
{
    let Some(thread) = asked else {
        return Ok(());
    };
    if may_delete(state, thread, id, meter)? {
        out.extend_from_slice(b", deletable")?;
    }
    Ok(())
}

/// Whether the thread that is asked about is live, where one is.
pub fn is_there(state: &PlainState, asked: Option<ObjectId>) -> bool
    ensures { result ≡ is_there (state_of state.now) asked }
{
    match asked {
        None => true,
        Some(thread) => state.is_live_kind(Kind::Thread, thread),
    }
}

//! The tree.
ghost use Rattle.std.specs.Prelude.{◌≡◌, ◌++◌, ◌+◌, ◌^◌, ◌<◌, IfOk, OnOk};
ghost use Rattle.plain_state.specs.StateOf.{state_of};
ghost use Rattle.shown_dumps.specs.TreeShown.{IsTree};
ghost use Rattle.shown_dumps.specs.Trees.{lines_at, tree_from, whole_tree};
ghost use Rattle.shown_dumps.specs.Trees as spec;

use crate::states::{ShowFault, state_after};
use crate::tree::deleting::is_there;
use crate::tree::looks::Look;
use crate::tree::objects::put_line;
use crate::tree::painting::painted_if;
use crate::tree::places::Place;
use crate::tree::slots::{put_slots, slots_of};
use base::{Meter, NoMemory, ObjectId};
use call_text::Named;
use plain_state::PlainState;
use std::alloc::Global;

/// Adds the line of the object at a place, and those of its slots.
fn put_lines(
    out: &mut Vec<u8>,
    state: &PlainState,
    place: &Place,
    look: &Look<'_>,
    meter: &mut Meter,
) -> Result<(), NoMemory>
    requires { place.now.depth < 2 ^ 62 }
    ensures { OnOk result (out.new.items ≡ out.old.items ++ lines_at look.now.names.now look.now.asked (state_of state.now) place.now) }
{
    let Some(object) = state.object(place.id) else {
        return Ok(());
    };
    put_line(out, state, place, object, look, meter)?;
    put_slots(out, place.depth + 1, 0, slots_of(object), look.names)
}

/// Adds so many levels of the tree from a place on.
fn put_tree(
    out: &mut Vec<u8>,
    state: &PlainState,
    levels: u32,
    place: &Place,
    look: &Look<'_>,
    meter: &mut Meter,
) -> Result<(), NoMemory>
    requires { place.now.depth + levels < 2 ^ 62 }
    ensures { OnOk result (out.new.items
        ≡ out.old.items ++ tree_from look.now.names.now look.now.asked (state_of state.now) levels place.now) }
{
    if levels == 0 {
        return Ok(());
    }
    put_lines(out, state, place, look, meter)?;
    for id in state.list(place.id) {
        put_tree(out, state, levels - 1, &place.below(*id), look, meter)?;
    }
    Ok(())
}

/// The tree of a state: each object and category by the first name that is bound to it, or by its number, and each object marked
/// that the thread which is asked about may delete. Want of memory is the only error.
fn whole_tree(state: &PlainState, look: &Look<'_>) -> Result<Vec<u8>, NoMemory>
    ensures { IfOk result (λ text. text.items ≡ whole_tree look.now.names.now look.now.asked (state_of state.now)) }
{
    let mut meter = Meter::new(state.alloc())?;
    let mut text = Vec::new(state.alloc());
    let levels = state.quota(ObjectId::root());
    put_tree(&mut text, state, levels, &Place::root(), look, &mut meter)?;
    Ok(text)
}

/// The tree of a state, with each object and category by the first name that is bound to it, or by its number. Want of memory is
/// the only error.
pub fn named_tree(state: &PlainState, names: &[Named]) -> Result<Vec<u8>, NoMemory>
    ensures { IfOk result (λ text. text.items ≡ spec.named_tree names.now (state_of state.now)) }
{
    let look = Look {
        names,
        asked: None,
        is_coloured: false,
    };
    whole_tree(state, &look)
}

/// The objects that the first `after` events of a dump lead to, or all of them where no count is told, as a tree: with the names
/// that are known, in colours where they are wanted, and with a mark at each object that the thread which is asked about may
/// unreference from a container that lists it. The errors come in this order: the text is no dump, its checkpoint can't be
/// restored, the thread is not live there; or there is no memory.
#[tactic(auto, using(crate::proofs::TreeLaws::no_state))]
pub fn tree(
    alloc: Global,
    text: &[u8],
    after: Option<u64>,
    look: &Look<'_>,
) -> Result<Vec<u8>, ShowFault>
    ensures { IsTree look.now text.now after result }
{
    let state = state_after(alloc, text, after)?;
    if !is_there(&state, look.asked) {
        return Err(ShowFault::NoThread);
    }
    let told = whole_tree(&state, look)?;
    Ok(painted_if(alloc, look.is_coloured, told)?)
}

//! The state that the first events of a dump lead to.
ghost use Rattle.std.specs.Prelude.{◌≡◌, IfOk, IfSome, is_some};
ghost use Rattle.auditor.specs.Verdict.{begins};
ghost use Rattle.plain_state.specs.StateOf.{state_of};
ghost use Rattle.shown_dumps.specs.States.{first_of, state_after, IsDumpIn, IsStateAfter};

use crate::states::faults::ShowFault;
use crate::states::making::make_all;
use auditor::clean_dumps::begin;
use base::{Meter, NoMemory};
use dump_text::{Dump, DumpError, read_dump};
use kernel_rules::histories::Event;
use plain_state::PlainState;
use std::alloc::Global;

/// The dump that a text spells. The errors are the line at which it stops being one, and want of memory.
pub fn dump_in(alloc: Global, text: &[u8]) -> Result<Dump, ShowFault>
    ensures { IsDumpIn text.now result }
{
    match read_dump(alloc, text) {
        Ok(dump) => Ok(dump),
        Err(DumpError::Line(line)) => Err(ShowFault::Unreadable(line)),
        Err(DumpError::Memory) => Err(ShowFault::Memory),
    }
}

/// The first `after` of events, or all of them where they are fewer, or where no count is told.
#[tactic(auto, using(std::proofs::lemmas::List::take_min))]
fn first_of(after: Option<u64>, events: &[Event]) -> &[Event]
    ensures { result.now ≡ first_of after events.now }
{
    match after {
        None => events,
        Some(after) => events.split_at((after as usize).min(events.len())).0,
    }
}

/// The state that the first `after` events of a dump lead to by the rules, or all of them where they are fewer, or where no count
/// is told, exactly where its events can begin. Replies and tables of the dump are not looked at. Want of memory is the only error.
pub fn state_in(
    alloc: Global,
    dump: &Dump,
    after: Option<u64>,
) -> Result<Option<PlainState>, NoMemory>
    ensures test { IfOk result (λ led. is_some led ≡ begins dump.now) }
    ensures state { IfOk result (λ led. IfSome led (λ state. state_of state ≡ state_after dump.now after)) }
{
    let Some(mut state) = begin(alloc, &dump.limits, &dump.checkpoint)? else {
        return Ok(None);
    };
    let mut meter = Meter::new(alloc)?;
    make_all(
        &mut state,
        first_of(after, dump.events.as_slice()),
        &mut meter,
    )?;
    Ok(Some(state))
}

/// The state that the first `after` events of the dump that a text spells lead to. The errors come in this order: the text is no
/// dump, its checkpoint can't be restored; or there is no memory.
pub fn state_after(alloc: Global, text: &[u8], after: Option<u64>) -> Result<PlainState, ShowFault>
    ensures { IsStateAfter text.now after result }
{
    let dump = dump_in(alloc, text)?;
    match state_in(alloc, &dump, after)? {
        Some(state) => Ok(state),
        None => Err(ShowFault::IllFormed),
    }
}

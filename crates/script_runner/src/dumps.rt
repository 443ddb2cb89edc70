//! The dump of a run.
ghost use Rattle.std.specs.Prelude.{◌≡◌, ◌≤◌, true, IfOk, IfSome, Some, is_some, length, min, nat_lt, take};
ghost use Rattle.std.specs.List.{list_all};
ghost use Rattle.base.specs.Limits.{in_range};
ghost use Rattle.checkpoints.specs.Restorable.{is_restorable};
ghost use Rattle.checkpoints.specs.Starts.{start_of, IsCheckpointOf};
ghost use Rattle.dump_text.specs.Dump.{IsDump};
ghost use Rattle.dump_text.specs.Line.{IsBootable};
ghost use Rattle.dump_text.specs.Reads.{have_places};
ghost use Rattle.dump_text.specs.Whole.{AreRead, whole_dump};
ghost use Rattle.kernel_rules.specs.History.{IsLegalFrom, state_from};
ghost use Rattle.kernel_rules.specs.Scratch.{scratch};
ghost use Rattle.script_runner.specs.Dumps.{are_given, folded, IsPlayed, IsRunDump};

use crate::reads::SeenRead;
use crate::replays::told_reads;
use base::{Limits, NoMemory};
use checkpoints::{Checkpoint, later_are_legal};
use dump_text::{PlacedRead, legal_is_dump};
use kept_events::{KeptEvent, events_of};
use kernel_rules::Tables;
use kernel_rules::histories::Event;
use plain_core::checkpoint;
use std::alloc::Global;

/// Whether each event is of a thread below an id.
fn are_below(events: &[Event], next_id: u64) -> bool
    ensures { result ≡ list_all (λ e. nat_lt e.thread next_id) events.now }
{
    for event in events {
        if next_id <= event.thread.number() {
            return false;
        }
    }
    true
}

/// The checkpoint of events, exactly where each of them is of a thread that was given by their end.
fn checkpoint_of(
    alloc: Global,
    limits: &Limits,
    events: &[Event],
) -> Result<Option<Checkpoint>, NoMemory>
    requires { in_range limits.now ≡ true }
    ensures made { IfOk result (λ made. IfSome made (IsCheckpointOf limits.now events.now)) }
    ensures restorable { IfOk result (λ made. IfSome made (λ c. is_restorable limits.now c ≡ true)) }
    ensures test { IfOk result (λ made. is_some made ≡ are_given limits.now events.now) }
{
    let made = checkpoint(alloc, limits, events)?;
    if are_below(events, made.next_id) {
        Ok(Some(made))
    } else {
        Ok(None)
    }
}

/// How many of the events are asked for: as many, or all.
fn at_most(first: u32, events: &[KeptEvent]) -> usize
    ensures { result ≡ min first (length events.now) }
{
    (first as usize).min(events.len())
}

/// Where a dump begins.
#[derive(Drop)]
struct Beginning {
    /// How many of the first events the checkpoint tells.
    count: usize,
    /// Their checkpoint.
    checkpoint: Checkpoint,
}

/// Where the dump of events begins, of whose first as many are to be told by a checkpoint.
fn beginning_of(
    alloc: Global,
    limits: &Limits,
    first: u32,
    events: &[KeptEvent],
) -> Result<Beginning, NoMemory>
    requires { in_range limits.now ≡ true }
    ensures within { IfOk result (λ b. b.count ≤ length events.now) }
    ensures folded { IfOk result (λ b. folded limits.now first events.now ≡ b.count) }
    ensures made { IfOk result (λ b. IsCheckpointOf limits.now (take b.count events.now) b.checkpoint) }
    ensures restorable { IfOk result (λ b. is_restorable limits.now b.checkpoint ≡ true) }
{
    let count = at_most(first, events);
    let (before, _) = events.split_at(count);
    let before = events_of(alloc, before)?;
    match checkpoint_of(alloc, limits, before.as_slice())? {
        Some(made) => Ok(Beginning {
            count,
            checkpoint: made,
        }),
        None => {
            let boot = checkpoint(alloc, limits, &[])?;
            Ok(Beginning {
                count: 0,
                checkpoint: boot,
            })
        }
    }
}

/// The dump of events that begin at a checkpoint, as text, with the reads among them and the tables of the state that they
/// lead to.
fn dump_from(
    alloc: Global,
    limits: &Limits,
    checkpoint: Checkpoint,
    events: &[KeptEvent],
    reads: Vec<PlacedRead>,
    tables: Tables,
) -> Result<Vec<u8>, NoMemory>
    requires limits { IsBootable limits.now }
    requires restorable { is_restorable limits.now checkpoint ≡ true }
    requires legal { IsLegalFrom (start_of limits.now checkpoint) events.now }
    requires reads { AreRead (start_of limits.now checkpoint) events.now reads.items }
    requires places { have_places (Some checkpoint) events.now reads.items ≡ true }
    requires tables { tables ≡ scratch (state_from (start_of limits.now checkpoint).state events.now) }
    ensures { IfOk result
        (λ bytes. IsDump bytes.items (whole_dump limits.now (Some checkpoint) events.now reads.items)) }
{
    legal_is_dump();
    let events = events_of(alloc, events)?;
    let bytes = dump_text::dump_of(alloc, limits, Some(checkpoint), events, reads, tables)?;
    Ok(bytes)
}

/// The dump of a journal, as text, with the tables of the state that it leads to from a boot with these limits. Its first
/// events, as many as are asked for or all, are told by their checkpoint; none where one of them is of a thread that was
/// never given, which no seat has. Of the reads it tells, each after the events that its thread had seen, those that saw the
/// first events and were answered as the rules say. They have to come by rising length, at each length by rising thread, as
/// `seen_reads` has them; one that doesn't is left out. Want of memory is the only error.
pub fn dump_of(
    alloc: Global,
    limits: &Limits,
    first: u32,
    events: &[KeptEvent],
    reads: &[SeenRead],
    tables: Tables,
) -> Result<Vec<u8>, NoMemory>
    requires { IsPlayed limits.now events.now tables }
    ensures { IfOk result (λ bytes. IsRunDump limits.now first events.now reads.now bytes.items) }
{
    later_are_legal();
    let Beginning { count, checkpoint } = beginning_of(alloc, limits, first, events)?;
    let told = told_reads(alloc, limits, events, count, reads)?;
    let (_, after) = events.split_at(count);
    dump_from(alloc, limits, checkpoint, after, told, tables)
}

//! The dump of a list of events, and of reads among them.
ghost use Rattle.std.specs.Prelude.{◌≡◌, ◌<◌, ◌+◌, ◌^◌, ◌++◌, IfOk, OnOk, length};
ghost use Rattle.dump_text.specs.Lists.{dump_with};
ghost use Rattle.dump_text.specs.Dump.{dump_text};
ghost use Rattle.dump_text.specs.Fits.{FitsWords};
ghost use Rattle.dump_text.specs.Whole.{placed_from, placed, start_with, whole_dump};
ghost use Rattle.kernel_rules.specs.History.{state_from};
ghost use Rattle.kernel_rules.specs.Scratch.{scratch};

use crate::tables::{Dump, DumpTables, PlacedRead, Stored};
use crate::writing::write_dump;
use base::{Limits, NoMemory};
use checkpoints::Checkpoint;
use kernel_rules::Tables as Kept;
use kernel_rules::histories::Event;
use label_lattice::RawLabel;
use std::alloc::Global;

/// Puts labels at the end with their places, the first of which is given.
fn place(out: &mut Vec<Stored>, first: usize, labels: &[RawLabel]) -> Result<(), NoMemory>
    requires { first + length labels.now < 2 ^ 63 }
    ensures { OnOk result (out.new.items ≡ out.old.items ++ placed_from first labels.now) }
{
    match labels {
        [] => Ok(()),
        [label, rest @ ..] => {
            out.push(Stored {
                index: first,
                label: *label,
            })?;
            place(out, first + 1, rest)
        }
    }
}

/// The tables of a kernel, each label with its place. Want of memory is the only error.
pub(crate) fn placed_tables(alloc: Global, tables: Kept) -> Result<DumpTables, NoMemory>
    ensures { IfOk result (λ out. out ≡ placed tables) }
{
    let mut labels = Vec::new(alloc);
    place(&mut labels, 0, tables.labels.as_slice())?;
    Ok(DumpTables {
        live: tables.live,
        uses: tables.uses,
        maps: tables.shown,
        labels,
        orders: tables.orders,
    })
}

/// A dump with these limits, this checkpoint, these events, these reads among them, and the tables of a kernel, each label with
/// its place. Want of memory is the only error.
pub fn dump_with(
    alloc: Global,
    limits: &Limits,
    checkpoint: Option<Checkpoint>,
    events: Vec<Event>,
    reads: Vec<PlacedRead>,
    tables: Kept,
) -> Result<Dump, NoMemory>
    ensures { IfOk result (λ dump. dump
        ≡ dump_with limits.now checkpoint events.items reads.items (placed tables)) }
{
    let tables = placed_tables(alloc, tables)?;
    Ok(Dump {
        limits: *limits,
        checkpoint,
        events,
        reads,
        tables,
    })
}

/// The text of the dump of events that begin at the checkpoint, or at a boot with these limits where there is none, with the
/// reads among them and the tables of the state that they lead to. Want of memory is the only error.
pub fn dump_of(
    alloc: Global,
    limits: &Limits,
    checkpoint: Option<Checkpoint>,
    events: Vec<Event>,
    reads: Vec<PlacedRead>,
    tables: Kept,
) -> Result<Vec<u8>, NoMemory>
    requires { tables ≡ scratch (state_from (start_with limits.now checkpoint).state events.items) }
    ensures text { IfOk result (λ text. text.items
        ≡ dump_text (whole_dump limits.now checkpoint events.items reads.items)) }
    ensures fits { OnOk result
        (FitsWords (whole_dump limits.now checkpoint events.items reads.items)) }
{
    let dump = dump_with(alloc, limits, checkpoint, events, reads, tables)?;
    let text = write_dump(alloc, &dump)?;
    Ok(text)
}

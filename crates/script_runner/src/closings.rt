//! What stands in the book at the end of a run.
ghost use Rattle.std.specs.Prelude.{◌≡◌, IfOk};
ghost use Rattle.kernel_rules.specs.History.{state_of};
ghost use Rattle.kernel_rules.specs.Scratch.{scratch};
ghost use Rattle.script_runner.specs.Dumps.{IsClosing};

use base::{Meter, NoMemory};
use kept_events::KeptEvent;
use kernel_rules::Tables;
use published_copy::{Book, Naming};
use std::alloc::Global;
use std::sync::Wait;

/// A journal, with the tables of the state that it leads to.
#[derive(Drop)]
pub struct Closing {
    /// The journal.
    pub events: Vec<KeptEvent>,
    /// The tables.
    pub tables: Tables,
}

/// The tables of a book's kernel.
fn tables_of<B: Naming>(alloc: Global, book: &Book<B>) -> Result<Tables, NoMemory>
    ensures { IfOk result (λ tables. tables ≡ scratch (state_of B.boot.limits book.now.journal)) }
{
    let mut meter = Meter::new(alloc)?;
    book.kernel().tables(&mut meter)
}

/// What stands in a book that was closed: its whole journal. The copies' memory is given back, also without memory for the
/// tables.
pub fn closing_of<B: Naming, R: Wait>(
    rt: &R,
    alloc: Global,
    book: Book<B>,
) -> Result<Closing, NoMemory>
    ensures journal { IfOk result (λ closing. closing.events.items ≡ book.journal) }
    ensures closing { IfOk result
        (λ closing. IsClosing B.boot.limits closing.events.items closing.tables) }
{
    let found = tables_of(alloc, &book);
    let events = book.into_events(rt);
    let tables = found?;
    Ok(Closing { events, tables })
}

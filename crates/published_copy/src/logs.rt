//! The log that says which list of events is the boot's one.
ghost use Rattle.std.specs.Prelude.{◌≡◌, [], IfOk};
ghost use Rattle.std.specs.Arc.{arc_value};
ghost use mathlib.Core.List.{IsPrefix};
ghost use Rattle.published_copy.specs.Entries.{weight};
ghost use Rattle.published_copy.specs.Rules.{head_of};

use crate::entries::{Add, Entry, Law, Look, Nothing, Sealing};
use base::NoMemory;
use logbook::{Offer, Seen, Start, Word};
use std::alloc::Global;
use std::sync::Arc;

/// The word whose steps add to the log: its weight.
pub(crate) type Head = Word<Entry, u64, Law>;

/// A beginning of the log that was seen.
pub(crate) type SeenLog = Seen<Entry, u64, Law>;

/// What the log weighs, and what was seen with it, which begins with what was seen before.
pub(crate) fn weighed(head: &Head, told: &SeenLog) -> (u64, SeenLog)
    requires { head.now ≡ head_of told.now.book }
    ensures book { result.1.book ≡ told.now.book }
    ensures begins { IsPrefix told.now.log result.1.log }
    ensures weight { result.0 ≡ weight result.1.log }
{
    let mut seen = told.again();
    let mut offer: Offer<Entry, u64, Law, Nothing> = seen.plain::<Nothing, Sealing, Add>(&Sealing);
    let weight = head.load::<Look, Nothing>(&mut seen, &mut offer);
    (weight, seen)
}

/// A log with no entry, and its head.
pub(crate) fn empty_log(alloc: Global) -> Result<(Arc<Head>, SeenLog), NoMemory>
    ensures { IfOk result (λ log. (log.1.log ≡ []) × (arc_value log.0 ≡ head_of log.1.book)) }
{
    let (seen, mut first, _second) = Seen::open(Start::alone(), 0, 0);
    let head = Arc::new(alloc, Word::tracked(0, &mut first))?;
    Ok((head, seen))
}

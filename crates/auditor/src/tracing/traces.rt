//! Tracing.
ghost use Rattle.std.specs.Prelude.{◌≡◌, IfOk, OnOk, IfSome, IsErrOf, is_some};
ghost use Rattle.auditor.specs.Audited.{IsAudited};
ghost use Rattle.auditor.specs.Verdict.{begins, IsVerdict};
ghost use Rattle.auditor.specs.declared.verdicts.Verdict.TheVariants.{Clean as Legal};
ghost use Rattle.auditor.specs.Traces.{IsReached, Traces};

use crate::Audited;
use crate::clean_dumps::{DumpFault, begin};
use crate::tracing::steps::steps_of;
use base::{Category, NoMemory, ObjectId};
use dump_text::Dump;
use flows::flows_of;
use std::alloc::Global;

/// What flows from an object outside a category reach in a dump, exactly where its events can begin. The error is want of
/// memory.
fn reached_in(
    alloc: Global,
    dump: &Dump,
    start: ObjectId,
    category: Category,
) -> Result<Option<Vec<ObjectId>>, NoMemory>
    ensures test { IfOk result (λ reached. is_some reached ≡ begins dump.now) }
    ensures reached { IfOk result (λ reached. IfSome reached (λ ids.
        IsReached dump.now category.0 start ids.items)) }
{
    let Some(state) = begin(alloc, &dump.limits, &dump.checkpoint)? else {
        return Ok(None);
    };
    let steps = steps_of(alloc, dump.events.as_slice(), dump.reads.as_slice())?;
    let ids = flows_of(alloc, state, steps.as_slice(), category, start)?;
    Ok(Some(ids))
}

/// The ids of all objects that flows from one object outside the category reach in a dump, rising, each once. They begin
/// where the dump's events do: at its checkpoint, or at the boot where it has none. The steps are the calls of the events
/// and the queries of the reads, in the order of the dump. The error is `NotClean` exactly where the dump is not clean, and else
/// want of memory.
pub fn trace(
    alloc: Global,
    audited: &Audited<'_>,
    start: ObjectId,
    category: Category,
) -> Result<Vec<ObjectId>, DumpFault>
    requires { IsAudited audited.now }
    ensures clean { OnOk result (IsVerdict audited.now.bytes.now Legal) }
    ensures exact { IfOk result (λ ids. Traces audited.now.bytes.now category.0 start ids.items) }
    ensures unclean { IsErrOf result DumpFault.NotClean → IsVerdict audited.now.bytes.now Legal → ⊥ }
{
    let dump = audited.clean()?;
    match reached_in(alloc, dump, start, category)? {
        Some(ids) => Ok(ids),
        None => Err(DumpFault::NotClean),
    }
}

//! Which replies hidden threads changed.
ghost use Rattle.std.specs.Prelude.{◌≡◌, map, IfOk, IfSome, OnOk, IsErrOf, is_some};
ghost use Rattle.auditor.specs.Audited.{IsAudited};
ghost use Rattle.auditor.specs.Verdict.{begins, IsVerdict};
ghost use Rattle.auditor.specs.declared.verdicts.Verdict.TheVariants.{Clean as Legal};
ghost use Rattle.hidden_replies.specs.Hidden.{both_from, differences, differing, replied_in};
ghost use Rattle.hidden_replies.specs.Told.{AreTold, begun};
ghost use Rattle.hidden_replies.specs.Places.{placed};

use crate::differences::Difference;
use crate::places::placed;
use crate::runs::{both, differences};
use auditor::Audited;
use auditor::clean_dumps::{DumpFault, begin};
use base::NoMemory;
use dump_text::Dump;
use label_lattice::Label;
use std::alloc::Global;

/// The replies in a dump that differ, exactly where its events can begin. The error is want of memory.
fn told_in(alloc: Global, dump: &Dump, label: &Label) -> Result<Option<Vec<Difference>>, NoMemory>
    ensures test { IfOk result (λ told. is_some told ≡ begins dump.now) }
    ensures told { IfOk result (λ told. IfSome told (λ all. all.items
        ≡ differences label.now (both_from (begun dump.now)) (placed dump.now.events dump.now.reads))) }
    ensures exact { IfOk result (λ told. IfSome told (λ all. map replied_in all.items
        ≡ differing label.now (begun dump.now) (begun dump.now) (placed dump.now.events dump.now.reads))) }
{
    let Some(whole) = begin(alloc, &dump.limits, &dump.checkpoint)? else {
        return Ok(None);
    };
    let Some(purged) = begin(alloc, &dump.limits, &dump.checkpoint)? else {
        return Ok(None);
    };
    let mut runs = both(whole, purged);
    let calls = placed(alloc, dump.events.as_slice(), dump.reads.as_slice())?;
    let told = differences(alloc, &mut runs, label, calls.as_slice())?;
    Ok(Some(told))
}

/// The replies of a clean dump, to calls and to reads, that are others without the calls of hidden threads, in order. A call is
/// hidden where an observer of this label observes its thread neither in the run nor in the run without hidden calls. Each has the exception
/// of the law that nothing is told: the one that holds at its call, or else the first that was met. No exception is met before
/// the first hidden call, and where none is met there is no such reply. The error is `NotClean` exactly where the dump is
/// not clean, and else want of memory.
pub fn hidden_replies(
    alloc: Global,
    audited: &Audited<'_>,
    label: &Label,
) -> Result<Vec<Difference>, DumpFault>
    requires { IsAudited audited.now }
    ensures clean { OnOk result (IsVerdict audited.now.bytes.now Legal) }
    ensures told { IfOk result (λ told. AreTold label.now audited.now.bytes.now told.items) }
    ensures unclean { IsErrOf result DumpFault.NotClean → IsVerdict audited.now.bytes.now Legal → ⊥ }
{
    let dump = audited.clean()?;
    match told_in(alloc, dump, label)? {
        Some(told) => Ok(told),
        None => Err(DumpFault::NotClean),
    }
}

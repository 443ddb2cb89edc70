//! What is shown of a line, or of the first false one.
ghost use Rattle.std.specs.Prelude.{◌≡◌, ◌++◌, IfOk, None};
ghost use Rattle.dump_text.specs.Dump.{IsDump};
ghost use Rattle.shown_dumps.specs.Shown.{IsShown, IsWhyOrNone};
ghost use Rattle.auditor.specs.Audited.{IsAudited};
ghost use Rattle.auditor.specs.Lines.{verdict_line};
ghost use Rattle.auditor.specs.declared.verdicts.Verdict.TheVariants.{Clean as Legal, False as FalseAt};

use crate::states::ShowFault;
use crate::why::explaining::{why, why_in};
use crate::why::telling::Telling;
use auditor::{Audited, Verdict, put_verdict, read_audited};
use base::NoMemory;
use dump_text::{Dump, DumpError};
use std::alloc::Global;

/// Why what a line tells is answered as it is, and nothing where it tells no call and no read.
fn why_or_none(
    alloc: Global,
    text: &[u8],
    dump: &Dump,
    line: u64,
    telling: &Telling<'_>,
) -> Result<Vec<u8>, ShowFault>
    requires { IsDump text.now dump.now }
    ensures { IsWhyOrNone telling.now.names.now telling.now.is_whole text.now line result }
{
    match why_in(alloc, text, dump, line, telling) {
        Err(ShowFault::NoCall) => Ok(Vec::new(alloc)),
        Err(ShowFault::IllFormed) => Ok(Vec::new(alloc)),
        told => told,
    }
}

/// The line of a clean dump's verdict.
fn clean_shown(alloc: Global) -> Result<Vec<u8>, NoMemory>
    ensures { IfOk result (λ text. text.items ≡ verdict_line Legal) }
{
    let mut told = Vec::new(alloc);
    put_verdict(&mut told, Verdict::Clean)?;
    Ok(told)
}

/// The line of a false dump's verdict, and more.
fn false_shown(alloc: Global, line: u64, more: &[u8]) -> Result<Vec<u8>, NoMemory>
    ensures { IfOk result (λ text. text.items ≡ verdict_line (FalseAt line) ++ more.now) }
{
    let mut told = Vec::new(alloc);
    put_verdict(&mut told, Verdict::False(line))?;
    told.extend_from_slice(more)?;
    Ok(told)
}

/// The verdict on an audited dump, and of a false one why what its first false line tells is answered as it is.
fn verdict_shown(
    alloc: Global,
    audited: &Audited<'_>,
    telling: &Telling<'_>,
) -> Result<Vec<u8>, ShowFault>
    requires { IsAudited audited.now }
    ensures { IsShown telling.now.names.now telling.now.is_whole None audited.now.bytes.now result }
{
    match audited.false_line {
        None => Ok(clean_shown(alloc)?),
        Some(line) => {
            let more = why_or_none(alloc, audited.bytes, &audited.dump, line, telling)?;
            Ok(false_shown(alloc, line, more.as_slice())?)
        }
    }
}

/// The same of the dump that a text spells.
fn audit_shown(alloc: Global, text: &[u8], telling: &Telling<'_>) -> Result<Vec<u8>, ShowFault>
    ensures { IsShown telling.now.names.now telling.now.is_whole None text.now result }
{
    match read_audited(alloc, text) {
        Ok(audited) => verdict_shown(alloc, &audited, telling),
        Err(DumpError::Line(line)) => Err(ShowFault::Unreadable(line)),
        Err(DumpError::Memory) => Err(ShowFault::Memory),
    }
}

/// Why what a line tells is answered as it is: the reasons of a refusal, or all conditions. Where no line is named, the verdict
/// on the dump, and of a false one the same of its first false line, by the rules' answers.
pub fn why_or_false(
    alloc: Global,
    text: &[u8],
    line: Option<u64>,
    telling: &Telling<'_>,
) -> Result<Vec<u8>, ShowFault>
    ensures { IsShown telling.now.names.now telling.now.is_whole line text.now result }
{
    match line {
        Some(line) => why(alloc, text, line, telling),
        None => audit_shown(alloc, text, telling),
    }
}

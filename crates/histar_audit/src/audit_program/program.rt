//! The program, over a reader, a sink and a writer.
ghost use Rattle.std.specs.Prelude.{◌≡◌, ◌<◌, ℕ, [], IfOk, IfSome, Some, None};
ghost use Rattle.auditor.specs.Audited.{verdict_of, IsAudited};
ghost use Rattle.histar_audit.specs.Told.{begins_later, is_asked, nothing, told_text, verdict_status, IsFound, IsHiddenIn, IsMigration, IsReachedIn, IsTold};
ghost use Rattle.histar_audit.specs.Told.{TellsVerdict};

use crate::audit_program::lines::{Answers, text_of};
use auditor::clean_dumps::DumpFault;
use auditor::tracing::trace;
use auditor::{Audited, Verdict, read_audited};
use base::{Category, NoMemory, ObjectId};
use call_text::Named;
use dump_text::{Dump, DumpError, MigrateFault, boot_checkpoint, head_text, migrate};
use hidden_replies::{Difference, hidden_replies};
use label_lattice::Label;
use program_io::{AuditOptions, Fault, Sink, bytes_of, deliver};
use std::alloc::Global;
use std::io::{Read, Write};

/// The program's name, with which its lines on standard error begin.
pub const NAME: &str = "histar-audit";

/// What is asked of an audit.
#[derive(Clone, Copy)]
pub struct Asked<'a> {
    /// How the dump is audited.
    pub options: AuditOptions,
    /// The label of the observer from whom threads are hidden, where it is asked for what these changed.
    pub hidden: Option<Label>,
    /// The names that objects and categories are told by.
    pub names: &'a [Named],
}

/// How an audit ended.
#[derive(PartialEq, Eq, Debug, Drop)]
pub struct AuditEnd {
    /// 0 where the dump is clean, 1 where a line of it is not true, 2 where it is unreadable, 3 where it can't be read or
    /// the answer can't be written, 4 where there was no memory. (A fault of usage is 2 too; of that the words tell.)
    pub status: u8,
    /// What goes to the migrated dump's file: where that is asked for, and the dump is clean and of format 1, the dump in
    /// format 2, and else nothing.
    pub file: Vec<u8>,
}

/// What an audit finds: the verdict, what goes to the migrated dump's file, and the lines that tell it.
#[derive(Drop)]
struct Found {
    verdict: Verdict,
    file: Vec<u8>,
    text: Vec<u8>,
}

/// The status that tells a verdict.
fn status_of(verdict: Verdict) -> u8
    ensures { result ≡ verdict_status verdict }
{
    match verdict {
        Verdict::Clean => 0,
        Verdict::False(_) => 1,
        Verdict::Unreadable(_) => 2,
    }
}

/// Whether lines after the verdict are asked for: of a clean dump alone.
fn is_asked(asked: bool, verdict: Verdict) -> bool
    ensures { result ≡ is_asked asked verdict }
{
    match verdict {
        Verdict::Clean => asked,
        Verdict::False(_) => false,
        Verdict::Unreadable(_) => false,
    }
}

/// The dump in format 2, where that is asked for, and the dump is clean and of format 1.
fn file_of(
    alloc: Global,
    options: &AuditOptions,
    bytes: &[u8],
    verdict: Verdict,
) -> Result<Vec<u8>, NoMemory>
    ensures { IfOk result (λ file. IsMigration options.now.migrate bytes.now verdict file.items) }
{
    if !options.migrate || verdict != Verdict::Clean {
        return Ok(Vec::new(alloc));
    }
    match migrate(alloc, bytes) {
        Ok(text) => Ok(text),
        Err(MigrateFault::NotFormat1(_)) => Ok(Vec::new(alloc)),
        Err(MigrateFault::Memory) => Err(NoMemory),
    }
}

/// What flows from an object outside a category reach in a clean dump.
fn traced(
    alloc: Global,
    audited: &Audited<'_>,
    flow: (ObjectId, Category),
) -> Result<Vec<ObjectId>, NoMemory>
    requires audited { IsAudited audited.now }
    requires clean { audited.now.false_line ≡ None }
    ensures { IfOk result (λ ids. IsReachedIn (Some flow) audited.now.bytes.now Verdict.Clean ids.items) }
{
    let (start, category) = flow;
    match trace(alloc, audited, start, category) {
        Ok(ids) => Ok(ids),
        Err(DumpFault::NotClean) => Ok(Vec::new(alloc)),
        Err(DumpFault::NoMemory) => Err(NoMemory),
    }
}

/// What flows reach in the dump, where they are asked for and the dump is clean.
fn reached_in(
    alloc: Global,
    audited: &Audited<'_>,
    options: &AuditOptions,
) -> Result<Vec<ObjectId>, NoMemory>
    requires { IsAudited audited.now }
    ensures { IfOk result (λ ids. IsReachedIn options.now.flow audited.now.bytes.now
        (verdict_of audited.now.false_line) ids.items) }
{
    let Some(flow) = options.flow else {
        return Ok(Vec::new(alloc));
    };
    match audited.false_line {
        None => traced(alloc, audited, flow),
        Some(_) => Ok(Vec::new(alloc)),
    }
}

/// The replies of a clean dump that differ without the calls of threads which an observer doesn't observe.
fn changed(alloc: Global, audited: &Audited<'_>, label: &Label) -> Result<Vec<Difference>, NoMemory>
    requires audited { IsAudited audited.now }
    requires clean { audited.now.false_line ≡ None }
    ensures { IfOk result (λ told. IsHiddenIn (Some label.now) audited.now.bytes.now Verdict.Clean told.items) }
{
    match hidden_replies(alloc, audited, label) {
        Ok(told) => Ok(told),
        Err(DumpFault::NotClean) => Ok(Vec::new(alloc)),
        Err(DumpFault::NoMemory) => Err(NoMemory),
    }
}

/// What hidden threads changed in the dump, where that is asked for and the dump is clean.
fn hidden_in(
    alloc: Global,
    audited: &Audited<'_>,
    hidden: Option<Label>,
) -> Result<Vec<Difference>, NoMemory>
    requires { IsAudited audited.now }
    ensures { IfOk result (λ told. IsHiddenIn hidden audited.now.bytes.now
        (verdict_of audited.now.false_line) told.items) }
{
    let Some(label) = hidden else {
        return Ok(Vec::new(alloc));
    };
    match audited.false_line {
        None => changed(alloc, audited, &label),
        Some(_) => Ok(Vec::new(alloc)),
    }
}

/// Whether a dump begins at a checkpoint that is not the boot's.
fn begins_later(alloc: Global, dump: &Dump) -> Result<bool, NoMemory>
    ensures { IfOk result (λ later. later ≡ begins_later dump.now.limits dump.now.checkpoint) }
{
    let Some(checkpoint) = &dump.checkpoint else {
        return Ok(false);
    };
    let boot = boot_checkpoint(alloc, &dump.limits)?;
    let told = head_text(alloc, &dump.limits, checkpoint)?;
    let booted = head_text(alloc, &dump.limits, &boot)?;
    Ok(!(told.as_slice() == booted.as_slice()))
}

/// What is found of a dump that was read.
fn found_in(alloc: Global, audited: &Audited<'_>, asked: &Asked<'_>) -> Result<Found, NoMemory>
    requires { IsAudited audited.now }
    ensures { IfOk result (λ found. IsFound asked.now found.verdict found.file.items found.text.items audited.now.bytes.now) }
{
    let verdict = audited.verdict();
    let file = file_of(alloc, &asked.options, audited.bytes, verdict)?;
    let reached = reached_in(alloc, audited, &asked.options)?;
    let told = hidden_in(alloc, audited, asked.hidden)?;
    let later = begins_later(alloc, &audited.dump)?;
    let answers = Answers {
        begins_later: is_asked(later, verdict),
        flows: is_asked(asked.options.flow.is_some(), verdict),
        reached: reached.as_slice(),
        hidden: is_asked(asked.hidden.is_some(), verdict),
        told: told.as_slice(),
    };
    let text = text_of(alloc, verdict, &answers, asked.names)?;
    Ok(Found {
        verdict,
        file,
        text,
    })
}

/// What is found of bytes that are no dump from a line on.
fn unreadable(alloc: Global, line: u64) -> Result<Found, NoMemory>
    ensures verdict { IfOk result (λ found. found.verdict ≡ Verdict.Unreadable line) }
    ensures file { IfOk result (λ found. found.file.items ≡ []) }
    ensures text { IfOk result (λ found. found.text.items ≡ told_text [] (Verdict.Unreadable line) nothing) }
{
    let verdict = Verdict::Unreadable(line);
    let nothing = Answers {
        begins_later: false,
        flows: false,
        reached: &[],
        hidden: false,
        told: &[],
    };
    let text = text_of(alloc, verdict, &nothing, &[])?;
    Ok(Found {
        verdict,
        file: Vec::new(alloc),
        text,
    })
}

/// What is found of bytes that are read as no dump. The error is want of memory, also that of the reading.
fn unread(alloc: Global, fault: DumpError) -> Result<Found, NoMemory>
    ensures { IfOk result (λ found. (line : ℕ) × (fault ≡ DumpError.Line line) × (found.verdict ≡ Verdict.Unreadable line)
        × (found.file.items ≡ []) × (found.text.items ≡ told_text [] (Verdict.Unreadable line) nothing)) }
{
    match fault {
        DumpError::Line(line) => {
            let none = unreadable(alloc, line)?;
            Ok(none)
        }
        DumpError::Memory => Err(NoMemory),
    }
}

/// What is found of bytes.
fn find(alloc: Global, bytes: &[u8], asked: &Asked<'_>) -> Result<Found, NoMemory>
    ensures { IfOk result (λ found. IsFound asked.now found.verdict found.file.items found.text.items bytes.now) }
{
    match read_audited(alloc, bytes) {
        Ok(audited) => found_in(alloc, &audited, asked),
        Err(fault) => {
            let none = unread(alloc, fault)?;
            Ok(none)
        }
    }
}

fn run<I: Read, S: Sink>(
    alloc: Global,
    dump: &mut I,
    asked: &Asked<'_>,
    out: &mut S,
) -> Result<Found, Fault>
    ensures { IfOk result (λ found. IfSome (I.remaining dump.old)
        (IsTold (S.contents out.old) (S.contents out.new) asked.now found.verdict found.file.items)) }
{
    let read = bytes_of(alloc, dump)?;
    let found = find(alloc, read.as_slice(), asked)?;
    deliver(out, found.text.as_slice())?;
    Ok(found)
}

/// Audits the dump that a reader gives, and prints `clean`, `false at line N` or `unreadable at line N`. Where a clean dump begins at
/// a checkpoint after the boot, the line `from its checkpoint` follows: the state that it tells was taken as it stands. Where flows are asked
/// for and the dump is clean, a line `reaches ID` follows for each object that they reach, rising. Where an observer's label
/// is told and the dump is clean, a line follows for each reply that differs without the calls of threads that the observer
/// doesn't observe, as `differs at event 9, call 1, thread #5: id #8, else id #7, by next id`. Where there is no such line,
/// `reaches nothing` or `no reply differs` says so. What has a name is told by it. The faults are found in
/// this order, the first one ending the audit with one line on `err`: reading, want of memory, writing. A status below 3 is
/// the verdict's, whose lines were printed and handed on then.
pub fn audit_on<I: Read, S: Sink, E: Write>(
    alloc: Global,
    dump: &mut I,
    asked: &Asked<'_>,
    out: &mut S,
    err: &mut E,
) -> AuditEnd
    ensures { result.status < 3 → IfSome (I.remaining dump.old)
        (TellsVerdict (S.contents out.old) (S.contents out.new) asked.now result.status result.file.items) }
{
    match run(alloc, dump, asked, out) {
        Ok(
            Found {
                verdict,
                file,
                text: _,
            },
        ) => AuditEnd {
            status: status_of(verdict),
            file,
        },
        Err(fault) => AuditEnd {
            status: fault.tell(NAME, err),
            file: Vec::new(alloc),
        },
    }
}

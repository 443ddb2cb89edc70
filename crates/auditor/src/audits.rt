//! Auditing dumps.
ghost use Rattle.std.specs.Prelude.{◌≡◌, ℕ, ◌+◌, List, length, IfOk, IfErr, IfSome, is_some, true, Err};
ghost use Rattle.dump_text.specs.Dump.{IsDump};
ghost use Rattle.dump_text.specs.Reading.{ReadsDump};
ghost use Rattle.dump_text.specs.Reads.{are_placed};
ghost use Rattle.auditor.specs.Audited.{verdict_of, IsAudited};
ghost use Rattle.auditor.specs.declared.verdicts.Verdict.{Verdict as Found};
ghost use Rattle.auditor.specs.declared.verdicts.Verdict.TheVariants.{Clean as Legal, False as FalseAt};
ghost use Rattle.auditor.specs.Migrated.{IsMigrated};
ghost use Rattle.auditor.specs.Told.{IsToldText, IsFound};
ghost use Rattle.auditor.specs.Verdict.{begins, IsVerdict, IsLegalText, TellsFalse};

use crate::differences::first_difference;
use crate::replays::Replay;
use crate::verdicts::Verdict;
use base::NoMemory;
use dump_text::{Dump, DumpError, dump_with, legal_is_dump, one_reading, read_dump, write_dump};
use std::alloc::Global;

/// A dump that was read once, and audited: whoever looks further into it takes it from here.
#[derive(Drop)]
pub struct Audited<'a> {
    /// The bytes.
    pub bytes: &'a [u8],
    /// The dump that they spell.
    pub dump: Dump,
    /// Its first line that is not true, none where it is clean.
    pub false_line: Option<u64>,
}

/// A dump, with the text of its true dump, or of the part of that, where there is one.
#[derive(Drop)]
struct Replayed {
    dump: Dump,
    text: Option<Vec<u8>>,
}

/// The true dump as text: that of the dump's own limits, checkpoint, calls and queries, with the numbers, the replies and the tables
/// of the rules, and with threads of reads that rise at each place; or its part up to an event whose number would be 2^64. There is
/// one exactly where the checkpoint, if there is one, can be restored.
fn play_again(alloc: Global, dump: Dump) -> Result<Replayed, NoMemory>
    requires { are_placed 0 (length dump.events) dump.reads ≡ true }
    ensures dump { IfOk result (λ played. played.dump ≡ dump) }
    ensures test { IfOk result (λ played. is_some played.text ≡ begins dump) }
    ensures text { IfOk result (λ played. IfSome played.text (λ t. IsToldText dump t.items)) }
{
    let Dump {
        limits,
        checkpoint,
        events,
        reads,
        tables,
    } = dump;
    let Some(mut replay) = Replay::begin(alloc, &limits, &checkpoint)? else {
        let dump = Dump {
            limits,
            checkpoint,
            events,
            reads,
            tables,
        };
        return Ok(Replayed { dump, text: None });
    };
    let told = replay.take_all(alloc, events.as_slice(), reads.as_slice())?;
    let left = replay.kernel.tables(&mut replay.meter)?;
    let whole = dump_with(alloc, &limits, checkpoint, replay.events, told, left)?;
    let text = write_dump(alloc, &whole)?;
    let dump = Dump {
        limits,
        checkpoint: whole.checkpoint,
        events,
        reads,
        tables,
    };
    Ok(Replayed {
        dump,
        text: Some(text),
    })
}

/// A dump with its first line that is not true. An event whose number no line can spell is not.
fn compared(alloc: Global, bytes: &[u8], dump: Dump) -> Result<Audited<'_>, NoMemory>
    requires { are_placed 0 (length dump.events) dump.reads ≡ true }
    ensures bytes { IfOk result (λ found. found.bytes.now ≡ bytes.now) }
    ensures dump { IfOk result (λ found. found.dump ≡ dump) }
    ensures line { IfOk result (λ found. IsFound bytes.now dump found.false_line) }
{
    let Replayed { dump, text } = play_again(alloc, dump)?;
    match text {
        None => Ok(Audited {
            bytes,
            dump,
            false_line: Some(3),
        }),
        Some(text) => {
            let false_line = first_difference(bytes, text.as_slice());
            Ok(Audited {
                bytes,
                dump,
                false_line,
            })
        }
    }
}

/// Audits the dump that was read of bytes. Want of memory is the only error.
pub fn audit_dump(alloc: Global, bytes: &[u8], dump: Dump) -> Result<Audited<'_>, NoMemory>
    requires { IsDump bytes.now dump }
    ensures audited { IfOk result IsAudited }
    ensures bytes { IfOk result (λ found. found.bytes.now ≡ bytes.now) }
    ensures dump { IfOk result (λ found. found.dump ≡ dump) }
{
    legal_is_dump();
    one_reading();
    let found = compared(alloc, bytes, dump)?;
    Ok(found)
}

/// The dump that the bytes spell, audited. The errors are the line at which they stop being one, and want of memory.
pub fn read_audited(alloc: Global, bytes: &[u8]) -> Result<Audited<'_>, DumpError>
    ensures audited { IfOk result IsAudited }
    ensures bytes { IfOk result (λ found. found.bytes.now ≡ bytes.now) }
    ensures fault { IfErr result (λ fault. ReadsDump bytes.now (Err fault)) }
{
    let dump = match read_dump(alloc, bytes) {
        Ok(dump) => dump,
        Err(fault) => return Err(fault),
    };
    match audit_dump(alloc, bytes, dump) {
        Ok(found) => Ok(found),
        Err(_) => Err(DumpError::Memory),
    }
}

impl Audited<'_> {
    /// The verdict: clean, or false at the first false line.
    pub fn verdict(&self) -> Verdict
        ensures { result ≡ verdict_of self.now.false_line }
    {
        match self.false_line {
            None => Verdict::Clean,
            Some(line) => Verdict::False(line),
        }
    }
}

/// What the bytes are: the dump of a legal list of events and of reads among them, as the rules answer them; a dump with a
/// first line that is not true; or no dump from some line on. Want of memory is the only error.
pub fn audit(alloc: Global, bytes: &[u8]) -> Result<Verdict, NoMemory>
    ensures verdict { IfOk result (λ verdict. IsVerdict bytes.now verdict) }
    ensures line { IfOk result (λ verdict. TellsFalse bytes.now verdict) }
{
    match read_audited(alloc, bytes) {
        Ok(found) => Ok(found.verdict()),
        Err(DumpError::Line(line)) => Ok(Verdict::Unreadable(line)),
        Err(DumpError::Memory) => Err(NoMemory),
    }
}

/// A law, which does nothing when it is called: bytes have one verdict.
pub fn one_verdict()
    ensures { (bytes : List ℕ) (a b : Found) → IsVerdict bytes a → IsVerdict bytes b → a ≡ b }
{
    one_reading();
}

/// A law, which does nothing when it is called: clean is just what is the dump of a legal list of events and of reads among
/// them, as the rules answer them, as a run of `histar` writes it.
pub fn clean_is_legal()
    ensures legal { (bytes : List ℕ) → IsVerdict bytes Legal → IsLegalText bytes }
    ensures clean { (bytes : List ℕ) → IsLegalText bytes → IsVerdict bytes Legal }
{}

/// A law, which does nothing when it is called: a dump of format 1 that is written in format 2 is clean where it was clean,
/// and false six lines further down where it was false, since the checkpoint has six lines.
pub fn migrated_verdicts()
    ensures clean { (bytes out : List ℕ) → IsMigrated bytes out → IsVerdict bytes Legal → IsVerdict out Legal }
    ensures false_line { (bytes out : List ℕ) (n : ℕ) → IsMigrated bytes out → IsVerdict bytes (FalseAt n)
        → IsVerdict out (FalseAt (n + 6)) }
{
    one_reading();
}

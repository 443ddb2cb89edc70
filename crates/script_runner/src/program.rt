//! The program, over a reader, a sink and a writer.
ghost use Rattle.std.specs.Prelude.{◌≡◌, IfErr, IfOk, IfSome};
ghost use Rattle.call_text.specs.Script.{IsScript};
ghost use Rattle.call_text.specs.Scripts.{kept_numbers, plain_text};
ghost use Rattle.script_runner.specs.Faults.{IsFaultOf, IsQuiet, IsRefusedFor, run_status};
ghost use Rattle.script_runner.specs.Dumps.{IsFile, IsFileOf, IsPlayed};
ghost use Rattle.script_runner.specs.Names.{IsNamesFileOf};
ghost use Rattle.script_runner.specs.Reads.{reads_kept};
ghost use Rattle.script_runner.specs.Runs.{IsRunTold, Writes};

use crate::dumps::dump_of;
use crate::names::BoundNames;
use crate::play::{Played, play_all};
use crate::reads::{Reads, seen_reads};
use base::NoMemory;
use call_text::Script;
use call_text::plain_scripts::{Plain, renumbered};
use check_text::{Checked, Exact, Faults, read_or_tell};
use kept_events::KeptEvent;
use kernel_rules::Tables;
use program_io::{Fault, Options, Sink, bytes_of, deliver};
use std::alloc::Global;
use std::io::{Read, Write};
use std::mem::forget;
use std::sync::Wait;
use std::thread::Threads;

/// The program's name, with which its lines on standard error begin.
pub const NAME: &str = "histar";

/// Why a run ends without a dump, and, but for an output that breaks off, without a reply.
#[derive(Drop)]
pub enum RunFault {
    /// The script has a fault. Nothing was played.
    Script(Faults),
    /// The script can't be read, the replies can't be written, or there was no memory.
    Other(Fault),
}

impl RunFault {
    /// The status that the program ends with: 1 for a fault of the script, and else that of the fault.
    pub fn status(&self) -> u8
        ensures { result ≡ run_status self.now }
    {
        match self {
            RunFault::Script(_) => 1,
            RunFault::Other(fault) => fault.status(),
        }
    }

    /// Tells the fault: in one line, and of a script in further ones what `histar check` tells. The answer is the status, whether
    /// it could be told or not.
    pub fn tell<E: Write>(&self, err: &mut E) -> u8
        ensures { result ≡ run_status self.now }
    {
        match self {
            RunFault::Script(faults) => {
                let _ = writeln!(err, "{NAME}: line {}: script fault", faults.line);
                let _ = err.write_all(faults.text.as_slice());
            }
            RunFault::Other(fault) => {
                fault.tell(NAME, err);
            }
        }
        self.status()
    }
}

impl From<Fault> for RunFault {
    ghost use Rattle.script_runner.specs.declared.program.RunFault.{RunFault};

    ghost from_gives = { λ fault e. e ≡ RunFault.Other fault };

    fn from(fault: Fault) -> RunFault {
        RunFault::Other(fault)
    }
}

impl From<NoMemory> for RunFault {
    ghost use Rattle.script_runner.specs.declared.program.RunFault.{RunFault};
    ghost use Rattle.program_io.specs.declared.faults.Fault.{Fault};

    ghost from_gives = { λ _ e. e ≡ RunFault.Other Fault.Memory };

    fn from(_: NoMemory) -> RunFault {
        RunFault::Other(Fault::Memory)
    }
}

/// What goes to the files of a run.
#[derive(Drop)]
pub struct RunFiles {
    /// The dump, nothing where none is asked for.
    pub dump: Vec<u8>,
    /// The names, nothing where they are not asked for.
    pub names: Vec<u8>,
}

/// What a run writes.
#[derive(Drop)]
struct Texts {
    /// The replies.
    output: Vec<u8>,
    /// What goes to its files.
    files: RunFiles,
}

/// The script that the exact form of bytes spells, with the path that they stand at. The error is the first fault of the script, or
/// want of memory.
fn script_of(alloc: Global, path: &str, bytes: &[u8]) -> Result<Exact, RunFault>
    ensures script { IfOk result (λ exact. IsScript (plain_text bytes.now) exact.script) }
    ensures numbers { IfOk result (λ exact. exact.plain.numbers.items ≡ kept_numbers bytes.now) }
    ensures fault { IfErr result (IsFaultOf path.now bytes.now) }
{
    match read_or_tell(alloc, path, bytes)? {
        Checked::Script(exact) => Ok(exact),
        Checked::Faulty(faults) => Err(RunFault::Script(faults)),
    }
}

/// The dump, where one is asked for.
fn file_of(
    alloc: Global,
    options: &Options,
    events: &[KeptEvent],
    reads: &[Reads],
    tables: Tables,
) -> Result<Vec<u8>, NoMemory>
    requires { IsPlayed options.now.limits events.now tables }
    ensures { IfOk result
        (λ file. IsFileOf options.now.dump options.now.checkpoint options.now.limits events.now (reads_kept reads.now) file.items) }
{
    if !options.dump {
        return Ok(Vec::new(alloc));
    }
    let seen = seen_reads(alloc, reads)?;
    let reads = seen.as_slice();
    dump_of(
        alloc,
        &options.limits,
        options.checkpoint,
        events,
        reads,
        tables,
    )
}

/// The text of the names, where it is asked for.
fn names_of(alloc: Global, options: &Options, names: &BoundNames) -> Result<Vec<u8>, NoMemory>
    ensures { IfOk result (λ file. IsNamesFileOf options.now.names names.now file.items) }
{
    if options.names {
        names.text(alloc)
    } else {
        Ok(Vec::new(alloc))
    }
}

/// Plays a script, and makes all that the run writes.
fn texts_of<R: Threads + Wait + Sync>(
    rt: &R,
    alloc: Global,
    script: &Script,
    options: &Options,
) -> Result<Texts, NoMemory>
    ensures file { IfOk result
        (λ texts. IsFile options.now.dump options.now.checkpoint options.now.limits texts.files.dump.items) }
    ensures run { IfOk result (λ texts. Writes options.now script.now texts.output.items
        texts.files.dump.items texts.files.names.items) }
{
    let Ok(played) = play_all(rt, alloc, script, &options.limits) else {
        return Err(NoMemory);
    };
    let Played {
        output,
        events,
        reads,
        tables,
        names,
    } = played;
    let file = file_of(alloc, options, events.as_slice(), reads.as_slice(), tables);
    let known = names_of(alloc, options, &names);
    forget(events);
    let files = RunFiles {
        dump: file?,
        names: known?,
    };
    Ok(Texts { output, files })
}

/// Plays the script whose exact form the bytes of a reader have, which stand at a path, and writes its replies, by the numbers of
/// the lines as they were written. The answer is what goes to the files: the dump and the names, each where it is asked for, else
/// nothing. The faults are found in this order: reading, the script's, want of memory in playing and in making the texts,
/// writing. No byte goes to `out` before the replies, the dump and the names are whole. Where the workers take turns, output,
/// dump and names are those of the script's run by the rules. Where they share phases, each line that is printed is answered after
/// events that its worker had then seen, which begin those of the dump, and the names are as they are known at the end. The dump
/// tells the queries that the workers were answered. It waits for all threads that it starts. The lines of the script and the events
/// are not given back: that would take as long as to read many of them, and the program ends then.
pub fn histar_on<R: Threads + Wait + Sync, I: Read, S: Sink>(
    rt: &R,
    alloc: Global,
    path: &str,
    script: &mut I,
    options: &Options,
    out: &mut S,
) -> Result<RunFiles, RunFault>
    ensures file { IfOk result
        (λ files. IsFile options.now.dump options.now.checkpoint options.now.limits files.dump.items) }
    ensures run { IfOk result (λ files. IfSome (I.remaining script.old)
        (λ bytes. IsRunTold options.now bytes (S.contents out.old) (S.contents out.new)
        files.dump.items files.names.items)) }
    ensures fault { IfErr result (IsRefusedFor path.now (I.remaining script.old)) }
    ensures quiet { IfErr result (IsQuiet (S.contents out.old) (S.contents out.new)) }
{
    let bytes = bytes_of(alloc, script)?;
    let Exact { script, plain } = script_of(alloc, path, bytes.as_slice())?;
    let Plain { text: _, numbers } = plain;
    let texts = texts_of(rt, alloc, &script, options);
    forget(script);
    let Texts { output, files } = texts?;
    let shown = renumbered(alloc, numbers.as_slice(), output)?;
    deliver(out, shown.as_slice())?;
    Ok(files)
}

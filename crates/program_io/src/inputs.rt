//! Opening an input, and reading it whole.
ghost use Rattle.std.specs.Prelude.{◌≡◌, ◌≢◌, IfErr, IfOk, IfSome};
ghost use Rattle.std.specs.IoError.{error_kind};
ghost use Rattle.program_io.specs.Faults.{input_fault_of, reason_of, source_of, status_of};

use crate::faults::Fault;
use std::alloc::Global;
use std::fs::{File, OpenFile};
use std::io::{ErrorKind, Read, Write};
use std::rt::Files;
use std::{fs, io};

/// Why a file can't be opened, in words.
fn reason(kind: ErrorKind) -> &'static str
    ensures { result.now ≡ reason_of kind }
{
    match kind {
        ErrorKind::NotFound => "no such file",
        ErrorKind::PermissionDenied => "no right to read it",
        _ => "it can't be opened",
    }
}

/// Says in one line which file can't be read and why, as `histar: input fault: FILE: no such file`. The answer is the
/// status of such a fault, whether it could be said or not.
fn say_unread<E: Write>(program: &str, path: &str, why: &str, err: &mut E) -> u8
    ensures { result ≡ status_of Fault.Input }
{
    let _ = writeln!(err, "{program}: {}: {path}: {why}", Fault::Input.text());
    Fault::Input.status()
}

/// The path that is read for an input's path: `-` stands for the standard input.
pub fn source_of(path: &str) -> &str
    ensures { result.now ≡ source_of path.now }
{
    if path == "-" { "/dev/stdin" } else { path }
}

/// Opens the file of an input, or the standard input where its path is `-`. Where it can't be opened, or is a folder, one line says
/// so, and the answer is the status.
pub fn open_input<R: Files, E: Write>(
    rt: &R,
    program: &str,
    path: &str,
    err: &mut E,
) -> Result<R::File, u8>
    ensures { IfErr result (λ status. status ≡ status_of Fault.Input) }
{
    let source = source_of(path);
    if let Ok(found) = fs::metadata(rt, source) {
        if found.is_dir() {
            return Err(say_unread(program, path, "it is a folder", err));
        }
    }
    match File::open(rt, source) {
        Ok(file) => Ok(file),
        Err(error) => Err(say_unread(program, path, reason(error.kind()), err)),
    }
}

/// The fault of an error met in reading: want of memory where it was that, and else the input's.
pub fn input_fault(error: &io::Error) -> Fault
    ensures { result ≡ input_fault_of (error_kind error.now) }
{
    if error.kind() == ErrorKind::OutOfMemory {
        Fault::Memory
    } else {
        Fault::Input
    }
}

/// All bytes that a reader has left, or the fault that reading them ends with, which is never the output's.
pub fn bytes_of<I: Read>(alloc: Global, input: &mut I) -> Result<Vec<u8>, Fault>
    ensures bytes { IfOk result (λ read. IfSome (I.remaining input.old) (λ left. read.items ≡ left)) }
    ensures fault { IfErr result (λ fault. fault ≢ Fault.Output) }
{
    let mut bytes = Vec::new(alloc);
    match input.read_to_end(&mut bytes) {
        Ok(_) => Ok(bytes),
        Err(error) => Err(input_fault(&error)),
    }
}

//! The program, over a reader, a sink and a writer.
ghost use Rattle.std.specs.Prelude.{◌≡◌, ◌≤◌, IfOk, IfSome};
ghost use Rattle.check_text.specs.Checks.{status_of, IsExact, Prints, PrintsPlain};

use crate::checks::{Checked, Exact, check, read_or_tell};
use base::NoMemory;
use call_text::plain_scripts::Plain;
use program_io::{Fault, Sink, bytes_of, deliver};
use std::alloc::Global;
use std::io::{Read, Write};

/// The program's name, with which its lines on standard error begin.
pub const NAME: &str = "histar check";

/// The status that a text is told with.
fn status_of(told: &[u8]) -> u8
    ensures { result ≡ status_of told.now }
{
    if told.is_empty() { 0 } else { 1 }
}

/// Prints what is told of the script that a reader gives, with the path that it stands at. The answer is the status: 0
/// where nothing is told, 1 where something is. Else one line on `err` tells why nothing is, with status 3 where the
/// script can't be read or the text can't be written, 4 where there was no memory.
pub fn check_on<I: Read, S: Sink, E: Write>(
    alloc: Global,
    path: &str,
    script: &mut I,
    out: &mut S,
    err: &mut E,
) -> u8
    ensures { result ≤ 1 → IfSome (I.remaining script.old)
        (Prints path.now (S.contents out.old) (S.contents out.new) result) }
{
    let bytes = match bytes_of(alloc, script) {
        Ok(bytes) => bytes,
        Err(fault) => return fault.tell(NAME, err),
    };
    let told = match check(alloc, path, bytes.as_slice()) {
        Ok(told) => told,
        Err(fault) => return Fault::from(fault).tell(NAME, err),
    };
    match deliver(out, told.as_slice()) {
        Ok(()) => status_of(told.as_slice()),
        Err(fault) => fault.tell(NAME, err),
    }
}

/// The exact form of bytes that spell a script then, or what is told of their faults.
fn exact_or_told(
    alloc: Global,
    path: &str,
    bytes: &[u8],
) -> Result<Result<Vec<u8>, Vec<u8>>, NoMemory>
    ensures { IfOk result (λ found. IfOk found (λ text. IsExact bytes.now text.items)) }
{
    match read_or_tell(alloc, path, bytes)? {
        Checked::Script(exact) => {
            let Exact { script: _, plain } = exact;
            let Plain { text, numbers: _ } = plain;
            Ok(Ok(text))
        }
        Checked::Faulty(faults) => Ok(Err(faults.text)),
    }
}

/// Prints the exact form of the script that a reader gives, with the path that it stands at. The answer is the status: 0 where it
/// was printed; 1 where the script has a fault, of which `err` gets what `check` tells. Else one line on `err` tells why nothing is
/// printed, with status 3 where the script can't be read or the text can't be written, 4 where there was no memory.
pub fn plain_on<I: Read, S: Sink, E: Write>(
    alloc: Global,
    path: &str,
    script: &mut I,
    out: &mut S,
    err: &mut E,
) -> u8
    ensures { result ≡ 0 → IfSome (I.remaining script.old)
        (PrintsPlain (S.contents out.old) (S.contents out.new)) }
{
    let bytes = match bytes_of(alloc, script) {
        Ok(bytes) => bytes,
        Err(fault) => return fault.tell(NAME, err),
    };
    let found = match exact_or_told(alloc, path, bytes.as_slice()) {
        Ok(found) => found,
        Err(fault) => return Fault::from(fault).tell(NAME, err),
    };
    let text = match found {
        Ok(text) => text,
        Err(told) => {
            let _ = err.write_all(told.as_slice());
            return 1;
        }
    };
    match deliver(out, text.as_slice()) {
        Ok(()) => 0,
        Err(fault) => fault.tell(NAME, err),
    }
}

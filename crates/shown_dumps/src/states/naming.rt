//! The names of a run, as they are read.
ghost use Rattle.std.specs.Prelude.{IfOk, IfSome};
ghost use Rattle.call_text.specs.RunNames.{AreNames};

use call_text::Named;
use call_text::names_text::{NamesError, read_names};
use program_io::{Fault, bytes_of};
use std::alloc::Global;
use std::io::{Read, Write};

/// The names that a reader gives, which stand at a path. Else one line on `err`, which begins with the program's name, tells why there
/// are none, and the error is the status that the program ends with: 2 where the bytes are no text of names, 3 where they can't be read, 4 where there was no
/// memory.
pub fn names_on<I: Read, E: Write>(
    alloc: Global,
    program: &str,
    path: &str,
    input: &mut I,
    err: &mut E,
) -> Result<Vec<Named>, u8>
    ensures { IfOk result (λ names. IfSome (I.remaining input.old) (λ bytes. AreNames bytes names.items)) }
{
    let bytes = match bytes_of(alloc, input) {
        Ok(bytes) => bytes,
        Err(fault) => return Err(fault.tell(program, err)),
    };
    match read_names(alloc, bytes.as_slice()) {
        Ok(names) => Ok(names),
        Err(NamesError::Line(line)) => {
            let _ = writeln!(err, "{program}: {path}: unreadable at line {line}");
            Err(2)
        }
        Err(NamesError::Memory) => Err(Fault::Memory.tell(program, err)),
    }
}

//! What `clap` answers to arguments that it doesn't take.
ghost use Rattle.clap.specs.Words.{kind_of};
ghost use Rattle.program_args.specs.Answers.{IsStatusOf};

use clap::Error;
use clap::error::ErrorKind;
use program_io::{Fault, Sink, deliver};
use std::alloc::Global;
use std::io::Write;

/// Tells what `clap` answers to arguments that it doesn't take, and answers the status that the program ends with: 4 for want
/// of memory; for help, which goes to `out`, 0, or 3 where it can't be printed; and for a fault of usage, which goes to
/// `err`, 2.
pub fn tell_answer<S: Sink, E: Write>(
    alloc: Global,
    program: &str,
    answer: &Error,
    out: &mut S,
    err: &mut E,
) -> u8
    ensures { IsStatusOf (kind_of answer.now) result }
{
    if answer.kind() == ErrorKind::OutOfMemory {
        return Fault::Memory.tell(program, err);
    }
    if answer.use_stderr() {
        let _ = write!(err, "{answer}");
        return 2;
    }
    let Ok(text) = format!(in alloc; "{answer}") else {
        return Fault::Memory.tell(program, err);
    };
    match deliver(out, text.as_bytes()) {
        Ok(()) => 0,
        Err(fault) => fault.tell(program, err),
    }
}

//! The program, over a reader, a sink and a writer.
ghost use Rattle.std.specs.Prelude.{IfOk, IfSome};
ghost use Rattle.page_text.specs.Shown.{PageShows};

use crate::pages::page;
use base::{Category, ObjectId};
use call_text::Named;
use program_io::{Sink, bytes_of};
use shown_dumps::dot::DotFault;
use shown_dumps::states::{NAME, show_on};
use std::alloc::Global;
use std::io::{Read, Write};

/// The page of the dump that a reader gives, with the names that are known, and with what flows from an object outside a category
/// reach, where they are asked for. Nothing goes to `out`. The error is the status that the program ends with, after one line on
/// `err`: 1 where the checkpoint can't be restored, or flows are asked for of a dump that is not clean, 2 where the bytes are no
/// dump, 3 where the dump can't be read, 4 where there was no memory.
pub fn page_on<I: Read, S: Sink, E: Write>(
    alloc: Global,
    dump: &mut I,
    flow: Option<(ObjectId, Category)>,
    names: &[Named],
    out: &mut S,
    err: &mut E,
) -> Result<Vec<u8>, u8>
    ensures { IfOk result (λ told. IfSome (I.remaining dump.old) (λ text. PageShows names.now flow text told.items)) }
{
    let bytes = match bytes_of(alloc, dump) {
        Ok(bytes) => bytes,
        Err(fault) => return Err(fault.tell(NAME, err)),
    };
    match page(alloc, bytes.as_slice(), flow, names) {
        Ok(text) => Ok(text),
        Err(DotFault::Unshown(fault)) => Err(show_on(Err(fault), out, err)),
        Err(DotFault::NotClean) => {
            let _ = writeln!(err, "{NAME}: not a clean dump");
            Err(1)
        }
    }
}

//! The program, over a reader, a sink and a writer.
ghost use Rattle.std.specs.Prelude.{◌≡◌, IfSome};
ghost use Rattle.shown_dumps.specs.DotShown.{PrintsDot};

use crate::dot::dots::dot;
use crate::dot::faults::DotFault;
use crate::states::{NAME, ShowFault, show_on};
use base::{Category, ObjectId};
use call_text::Named;
use program_io::{Sink, bytes_of};
use std::alloc::Global;
use std::io::{Read, Write};

/// Shows the objects that the dump which a reader gives leads to as a graph, with the names that are known, and in red what flows
/// from an object outside a category reach, where they are asked for. The answer is the status: 0 where the graph was printed and
/// handed on. Else one line on `err` tells why not, with status 1 where the checkpoint can't be restored, or flows are asked for
/// of a dump that is not clean, 2 where the bytes are no dump, 3 where the dump can't be read or the graph can't be written, 4
/// where there was no memory.
pub fn dot_on<I: Read, S: Sink, E: Write>(
    alloc: Global,
    dump: &mut I,
    flow: Option<(ObjectId, Category)>,
    names: &[Named],
    out: &mut S,
    err: &mut E,
) -> u8
    ensures { result ≡ 0 → IfSome (I.remaining dump.old)
        (PrintsDot names.now flow (S.contents out.old) (S.contents out.new)) }
{
    let bytes = match bytes_of(alloc, dump) {
        Ok(bytes) => bytes,
        Err(fault) => return fault.tell(NAME, err),
    };
    match dot(alloc, bytes.as_slice(), flow, names) {
        Ok(text) => show_on(Ok(text), out, err),
        Err(DotFault::Unshown(fault)) => show_on(Err(fault), out, err),
        Err(DotFault::NotClean) => {
            let _ = writeln!(err, "{NAME}: not a clean dump");
            1
        }
    }
}

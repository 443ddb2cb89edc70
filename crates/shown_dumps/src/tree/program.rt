//! The program, over a reader, a sink and a writer.
ghost use Rattle.std.specs.Prelude.{◌≡◌, IfSome};
ghost use Rattle.shown_dumps.specs.TreeShown.{PrintsTree};

use crate::states::{NAME, show_on};
use crate::tree::looks::Look;
use crate::tree::trees::tree;
use program_io::{Sink, bytes_of};
use std::alloc::Global;
use std::io::{Read, Write};

/// Shows the tree of the objects that the first `after` events of the dump that a reader gives lead to, or all of them where no
/// count is told, with the names that are known, in colours where they are wanted, and what a thread may delete marked, where one
/// is asked about. The answer is the status: 0 where the tree was printed and handed on. Else one line on `err` tells why not, with
/// status 1 where the checkpoint can't be restored, 2 where the bytes are no dump or no live thread has the id, 3 where the dump
/// can't be read or the tree can't be written, 4 where there was no memory.
pub fn tree_on<I: Read, S: Sink, E: Write>(
    alloc: Global,
    dump: &mut I,
    after: Option<u64>,
    look: &Look<'_>,
    out: &mut S,
    err: &mut E,
) -> u8
    ensures { result ≡ 0 → IfSome (I.remaining dump.old)
        (PrintsTree look.now after (S.contents out.old) (S.contents out.new)) }
{
    let bytes = match bytes_of(alloc, dump) {
        Ok(bytes) => bytes,
        Err(fault) => return fault.tell(NAME, err),
    };
    let shown = tree(alloc, bytes.as_slice(), after, look);
    show_on(shown, out, err)
}

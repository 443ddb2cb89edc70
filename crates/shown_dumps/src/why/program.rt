//! The program, over a reader, a sink and a writer.
ghost use Rattle.std.specs.Prelude.{◌≡◌, IfSome};
ghost use Rattle.shown_dumps.specs.Shown.{Shows};

use crate::states::{NAME, show_on};
use crate::why::shown::why_or_false;
use crate::why::telling::Telling;
use program_io::{Sink, bytes_of};
use std::alloc::Global;
use std::io::{Read, Write};

/// Shows why what a line of the dump that a reader gives tells is answered as it is, or the verdict and the same of the first
/// false line where no line is named: the reasons of a refusal, or all conditions, by the names that are known. The answer is the
/// status: 0 where that was printed and handed on. Else one line on `err` tells why nothing is shown, with status 1 where the
/// checkpoint can't be restored, 2 where the bytes are no dump or the line tells no call and no read, 3 where the dump can't be
/// read or the text can't be written, 4 where there was no memory.
pub fn why_on<I: Read, S: Sink, E: Write>(
    alloc: Global,
    dump: &mut I,
    line: Option<u64>,
    telling: &Telling<'_>,
    out: &mut S,
    err: &mut E,
) -> u8
    ensures { result ≡ 0 → IfSome (I.remaining dump.old)
        (Shows telling.now.names.now telling.now.is_whole line (S.contents out.old) (S.contents out.new)) }
{
    let bytes = match bytes_of(alloc, dump) {
        Ok(bytes) => bytes,
        Err(fault) => return fault.tell(NAME, err),
    };
    let shown = why_or_false(alloc, bytes.as_slice(), line, telling);
    show_on(shown, out, err)
}

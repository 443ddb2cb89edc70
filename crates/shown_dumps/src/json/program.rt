//! The program, over a reader, a sink and a writer.
ghost use Rattle.std.specs.Prelude.{◌≡◌, IfSome};
ghost use Rattle.shown_dumps.specs.Json.{PrintsJson};

use crate::json::jsons::json;
use crate::states::{NAME, show_on};
use program_io::{Sink, bytes_of};
use std::alloc::Global;
use std::io::{Read, Write};

/// Shows the dump that a reader gives as JSON. The answer is the status: 0 where that was printed and handed on. Else one line
/// on `err` tells why not, with status 2 where the bytes are no dump, 3 where the dump can't be read or the text can't be
/// written, 4 where there was no memory.
pub fn json_on<I: Read, S: Sink, E: Write>(
    alloc: Global,
    dump: &mut I,
    out: &mut S,
    err: &mut E,
) -> u8
    ensures { result ≡ 0 → IfSome (I.remaining dump.old)
        (PrintsJson (S.contents out.old) (S.contents out.new)) }
{
    let bytes = match bytes_of(alloc, dump) {
        Ok(bytes) => bytes,
        Err(fault) => return fault.tell(NAME, err),
    };
    let shown = json(alloc, bytes.as_slice());
    show_on(shown, out, err)
}

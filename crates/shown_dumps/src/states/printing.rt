//! What is printed, and the statuses that the program ends with.
ghost use Rattle.std.specs.Prelude.{◌≡◌, ◌++◌, [], Ok, OnOk};
ghost use Rattle.std.specs.Global.{Vec};
ghost use Rattle.call_text.specs.Reply.{reply_text};
ghost use Rattle.call_text.specs.ReplyWord.{value_text};
ghost use Rattle.shown_dumps.specs.Printed.{fault_status, IsPrinted};

use crate::states::faults::ShowFault;
use base::NoMemory;
use call_text::{Known, NameList, Named, Value, put_reply};
use kernel_rules::Reply;
use program_io::{Fault, Sink, deliver};
use std::io::Write;
use text_words::{put_name, put_number};

/// The program's name, with which its lines on standard error begin.
pub const NAME: &str = "histar show";

/// Adds a reply, with each object and category by its number.
pub fn put_bare(out: &mut Vec<u8>, reply: &Reply) -> Result<(), NoMemory>
    ensures { OnOk result (out.new.items ≡ out.old.items ++ reply_text [] reply.now) }
{
    put_reply(out, reply, &NameList { named: &[] })
}

/// Adds a reply, with each object and category by the first name that is bound to it, or by its number.
pub fn put_named(out: &mut Vec<u8>, reply: &Reply, named: &[Named]) -> Result<(), NoMemory>
    ensures { OnOk result (out.new.items ≡ out.old.items ++ reply_text named.now reply.now) }
{
    put_reply(out, reply, &NameList { named })
}

/// Adds an object or a category by the first name that is bound to it, or by its number behind a `#`.
pub fn put_value(out: &mut Vec<u8>, value: &Value, named: &[Named]) -> Result<(), NoMemory>
    ensures { OnOk result (out.new.items ≡ out.old.items ++ value_text named.now value.now) }
{
    if let Some(name) = (NameList { named }).name_of(value) {
        put_name(out, &name)?;
        return Ok(());
    }
    out.push(b'#')?;
    match value {
        Value::Object(id) => put_number(out, id.number())?,
        Value::Category(category) => put_number(out, category.0)?,
    }
    Ok(())
}

/// Tells in one line why nothing is shown, and answers the status that the program ends with.
fn tell<E: Write>(fault: ShowFault, err: &mut E) -> u8
    ensures { result ≡ fault_status fault }
{
    match fault {
        ShowFault::Memory => Fault::Memory.tell(NAME, err),
        ShowFault::IllFormed => {
            let _ = writeln!(
                err,
                "{NAME}: false at line 3: the checkpoint can't be restored"
            );
            1
        }
        ShowFault::Unreadable(line) => {
            let _ = writeln!(err, "{NAME}: unreadable at line {line}");
            2
        }
        ShowFault::NoCall => {
            let _ = writeln!(err, "{NAME}: no call at this line");
            2
        }
        ShowFault::NoThread => {
            let _ = writeln!(err, "{NAME}: no thread of this id");
            2
        }
    }
}

/// Prints what is shown, and hands it on. The answer is the status: 0 where that was done. Else one line on `err` tells why
/// not, with status 1 where the checkpoint can't be restored, 2 where the bytes are no dump, the line tells no call or no thread
/// has the id, 3 where the text can't be written, 4 where there was no memory.
pub fn show_on<S: Sink, E: Write>(shown: Result<Vec<u8>, ShowFault>, out: &mut S, err: &mut E) -> u8
    ensures { result ≡ 0 → IsPrinted shown (S.contents out.old) (S.contents out.new) }
{
    let text = match shown {
        Ok(text) => text,
        Err(fault) => return tell(fault, err),
    };
    match deliver(out, text.as_slice()) {
        Ok(()) => 0,
        Err(fault) => fault.tell(NAME, err),
    }
}

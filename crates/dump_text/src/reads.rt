//! Reads: queries with what they were answered.
ghost use Rattle.std.specs.Prelude.{◌≡◌, ◌++◌, IfOk, OnOk};
ghost use Rattle.text_words.specs.Reading.{Reads};
ghost use Rattle.dump_text.specs.Read.{read_text, IsRead, FitsRead, ReadsAsked};

use crate::events::call_and_reply;
use crate::queries::{put_query, read_query};
use crate::read_replies::ReadReply;
use crate::reply_reading::read_read_reply;
use crate::reply_writing::put_read_reply;
use base::{NoMemory, ObjectId};
use call_text::parted;
use kernel_rules::Query;
use std::alloc::{AllocError, Global};
use text_words::{put_number, read_number};

/// A query of a thread, and what it was answered.
#[derive(Clone, Copy)]
pub struct Read {
    /// The thread that asked.
    pub thread: ObjectId,
    /// What it asked.
    pub query: Query,
    /// What it was answered.
    pub reply: ReadReply,
}

/// The query and the reply that the text spells, as those of a thread.
fn read_asked(alloc: Global, thread: ObjectId, text: &[u8]) -> Result<Option<Read>, AllocError>
    ensures { IfOk result (λ found. ReadsAsked thread text.now found) }
{
    let Some((query, reply)) = call_and_reply(text) else {
        return Ok(None);
    };
    let Some(query) = read_query(alloc, query)? else {
        return Ok(None);
    };
    let Some(reply) = read_read_reply(alloc, reply)? else {
        return Ok(None);
    };
    Ok(Some(Read {
        thread,
        query,
        reply,
    }))
}

/// The read that the text spells.
pub fn read_read(alloc: Global, text: &[u8]) -> Result<Option<Read>, AllocError>
    ensures { IfOk result (λ found. Reads read_text IsRead text.now found) }
{
    let Some((thread, more)) = parted(text, b' ') else {
        return Ok(None);
    };
    let Some(thread) = read_number(thread, u64::MAX) else {
        return Ok(None);
    };
    let found = read_asked(alloc, ObjectId::new(thread), more)?;
    Ok(found)
}

/// Adds the spelling of the read, whose parts are in their ranges by their types.
pub fn put_read(out: &mut Vec<u8>, read: &Read) -> Result<(), NoMemory>
    ensures text { OnOk result (out.new.items ≡ out.old.items ++ read_text read.now) }
    ensures fits { OnOk result (FitsRead read.now) }
{
    put_number(out, read.thread.number())?;
    out.push(b' ')?;
    put_query(out, &read.query)?;
    out.extend_from_slice(b" => ")?;
    put_read_reply(out, &read.reply)?;
    Ok(())
}

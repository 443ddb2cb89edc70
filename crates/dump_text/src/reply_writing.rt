//! Writing the replies of queries.
ghost use Rattle.std.specs.Prelude.{◌≡◌, ◌∷◌, ◌++◌, codes, map, OnOk};
ghost use Rattle.std.specs.List.{flat_map, AllByRecursion};
ghost use Rattle.call_text.specs.ReplyWord.{refusal_text};
ghost use Rattle.text_words.specs.Arg.{arg_text, FitsArg};
ghost use Rattle.dump_text.specs.ReadReply.{read_reply_text, FitsReadReply};
ghost use Rattle.dump_text.specs.Word.{arg_of};
ghost use Rattle.dump_text.specs.declared.words.Word.TheVariants.{Object as Numbered};
ghost use Rattle.dump_text.specs.declared.read_replies.ReadReply.TheVariants as told;

use crate::read_replies::{ListReply, OwnReply, ReadReply};
use crate::state_writing::flag_of;
use crate::words::{Word, put_further, put_words};
use base::{NoMemory, ObjectId, Refusal};
use call_text::{NameList, put_reply};
use kernel_rules::{Mapping, Reply};

/// Adds what a thread is.
fn put_own(out: &mut Vec<u8>, own: &OwnReply) -> Result<(), NoMemory>
    ensures text { OnOk result (out.new.items ≡ out.old.items ++ read_reply_text (told.Own own.now)) }
    ensures fits { OnOk result (FitsReadReply (told.Own own.now)) }
{
    let more = [
        Word::Label(own.thread.clearance),
        Word::Label(own.thread.verify),
        Word::Object(own.thread.space.container),
        Word::Object(own.thread.space.object),
        Word::Wide(own.thread.entry_point),
        Word::Wide(own.thread.closure),
    ];
    put_words(out, b"self ", &Word::Label(own.label), &more)?;
    Ok(())
}

/// Adds ids, each after a space.
fn put_ids(out: &mut Vec<u8>, ids: &[ObjectId]) -> Result<(), NoMemory>
    ensures text { OnOk result (out.new.items ≡ out.old.items
        ++ flat_map (λ w. 32 ∷ arg_text (arg_of w)) (map Numbered ids.now)) }
    ensures fits { OnOk result (AllByRecursion (λ w. FitsArg (arg_of w)) (map Numbered ids.now)) }
{
    for id in ids {
        put_further(out, &[Word::Object(*id)])?;
    }
    Ok(())
}

/// Adds ids that a container lists.
fn put_listed(out: &mut Vec<u8>, listed: &ListReply) -> Result<(), NoMemory>
    ensures text { OnOk result (out.new.items
        ≡ out.old.items ++ read_reply_text (told.Listed listed.now)) }
    ensures fits { OnOk result (FitsReadReply (told.Listed listed.now)) }
{
    put_words(out, b"list ", &Word::Wide(listed.count), &[])?;
    put_ids(out, listed.ids.as_slice())?;
    Ok(())
}

/// Adds what a slot maps.
fn put_mapping(out: &mut Vec<u8>, mapping: &Mapping) -> Result<(), NoMemory>
    ensures text { OnOk result (out.new.items
        ≡ out.old.items ++ read_reply_text (told.Mapping mapping.now)) }
    ensures fits { OnOk result (FitsReadReply (told.Mapping mapping.now)) }
{
    let more = [
        Word::Object(mapping.entry.container),
        Word::Object(mapping.entry.object),
        Word::Number(mapping.first),
        Word::Number(mapping.count),
        Word::Rights(mapping.rights),
    ];
    put_words(out, b"mapping ", &Word::Number(mapping.page), &more)?;
    Ok(())
}

/// Adds why a kernel refused.
fn put_refused(out: &mut Vec<u8>, refusal: Refusal) -> Result<(), NoMemory>
    ensures { OnOk result (out.new.items ≡ out.old.items ++ (codes "refused " ++ refusal_text refusal)) }
{
    put_reply(out, &Reply::Refused(refusal), &NameList { named: &[] })
}

/// Adds the spelling of the reply, whose parts are in their ranges by their types.
pub fn put_read_reply(out: &mut Vec<u8>, reply: &ReadReply) -> Result<(), NoMemory>
    ensures text { OnOk result (out.new.items ≡ out.old.items ++ read_reply_text reply.now) }
    ensures fits { OnOk result (FitsReadReply reply.now) }
{
    match reply {
        ReadReply::Own(own) => put_own(out, own)?,
        ReadReply::Label(label) => put_words(out, b"label ", &Word::Label(label.label), &[])?,
        ReadReply::Quota(quota) => {
            let more = [
                Word::Number(quota.used),
                Word::Number(flag_of(quota.fixed)),
                Word::Number(flag_of(quota.immutable)),
            ];
            put_words(out, b"quota ", &Word::Number(quota.quota), &more)?;
        }
        ReadReply::Listed(listed) => put_listed(out, listed)?,
        ReadReply::Parent(parent) => {
            put_words(out, b"parent ", &Word::Object(parent.container), &[])?;
        }
        ReadReply::Pages(pages) => put_words(out, b"pages ", &Word::Number(pages.pages), &[])?,
        ReadReply::Bytes(bytes) => put_words(out, b"data ", &Word::Data(*bytes), &[])?,
        ReadReply::Mapping(mapping) => put_mapping(out, mapping)?,
        ReadReply::Unmapped => out.extend_from_slice(b"mapping none")?,
        ReadReply::Refused(refusal) => put_refused(out, *refusal)?,
    }
    Ok(())
}

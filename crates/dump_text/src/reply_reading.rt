//! Reading the replies of queries.
ghost use Rattle.std.specs.Prelude.{IfOk, codes, length, ◌++◌};
ghost use Rattle.text_words.specs.Reading.{Reads};
ghost use Rattle.dump_text.specs.Allowed.{AreAllowed, Anything};
ghost use Rattle.dump_text.specs.ReadReply.{read_reply_text, IsReadReply, own_words, own_kinds};
ghost use Rattle.dump_text.specs.ReadReply.{listed_words, listed_kinds, HasFew};
ghost use Rattle.dump_text.specs.Word.{words_text};

use crate::line_words::read_worded;
use crate::read_replies::{
    LabelReply, ListReply, OwnReply, PagesReply, ParentReply, QuotaReply, ReadReply,
};
use crate::reports::read_refused;
use base::Data;
use kernel_rules::Mapping;
use std::alloc::{AllocError, Global};
use text_words::is_same;
use text_words::spoken_calls::ArgKind;

/// The kinds of the words of a list: its length, and 16 ids.
const LISTED: [ArgKind; 17] = [
    ArgKind::Wide,
    ArgKind::Object,
    ArgKind::Object,
    ArgKind::Object,
    ArgKind::Object,
    ArgKind::Object,
    ArgKind::Object,
    ArgKind::Object,
    ArgKind::Object,
    ArgKind::Object,
    ArgKind::Object,
    ArgKind::Object,
    ArgKind::Object,
    ArgKind::Object,
    ArgKind::Object,
    ArgKind::Object,
    ArgKind::Object,
];

/// What a thread is.
fn read_own(alloc: Global, text: &[u8]) -> Result<Option<OwnReply>, AllocError>
    ensures { IfOk result (λ found. Reads (λ o. codes "self " ++ words_text (own_words o))
        (AreAllowed own_kinds own_words Anything) text.now found) }
{
    read_worded::<OwnReply>(
        alloc,
        text,
        b"self ",
        &[
            ArgKind::Label,
            ArgKind::Label,
            ArgKind::Label,
            ArgKind::Object,
            ArgKind::Object,
            ArgKind::Wide,
            ArgKind::Wide,
        ],
    )
}

/// Ids that a container lists: as many as the text has.
fn read_listed(alloc: Global, text: &[u8]) -> Result<Option<ListReply>, AllocError>
    ensures { IfOk result (λ found. Reads (λ l. codes "list " ++ words_text (listed_words l))
        (λ l. AreAllowed (listed_kinds (length l.ids)) listed_words HasFew l) text.now found) }
{
    for count in 1..18 {
        let kinds = &LISTED[..count];
        if let Some(listed) = read_worded::<ListReply>(alloc, text, b"list ", kinds)? {
            return Ok(Some(listed));
        }
    }
    Ok(None)
}

/// The reply of a query that the text spells.
pub fn read_read_reply(alloc: Global, text: &[u8]) -> Result<Option<ReadReply>, AllocError>
    ensures { IfOk result (λ found. Reads read_reply_text IsReadReply text.now found) }
{
    if is_same(text, b"mapping none") {
        return Ok(Some(ReadReply::Unmapped));
    }
    if let Some(bytes) = read_worded::<Data>(alloc, text, b"data ", &[ArgKind::Data])? {
        return Ok(Some(ReadReply::Bytes(bytes)));
    }
    if let Some(refusal) = read_refused(text) {
        return Ok(Some(ReadReply::Refused(refusal)));
    }
    if let Some(own) = read_own(alloc, text)? {
        return Ok(Some(ReadReply::Own(own)));
    }
    if let Some(label) = read_worded::<LabelReply>(alloc, text, b"label ", &[ArgKind::Label])? {
        return Ok(Some(ReadReply::Label(label)));
    }
    if let Some(quota) = read_worded::<QuotaReply>(
        alloc,
        text,
        b"quota ",
        &[
            ArgKind::Number,
            ArgKind::Number,
            ArgKind::Number,
            ArgKind::Number,
        ],
    )? {
        return Ok(Some(ReadReply::Quota(quota)));
    }
    if let Some(listed) = read_listed(alloc, text)? {
        return Ok(Some(ReadReply::Listed(listed)));
    }
    if let Some(parent) = read_worded::<ParentReply>(alloc, text, b"parent ", &[ArgKind::Object])? {
        return Ok(Some(ReadReply::Parent(parent)));
    }
    if let Some(pages) = read_worded::<PagesReply>(alloc, text, b"pages ", &[ArgKind::Number])? {
        return Ok(Some(ReadReply::Pages(pages)));
    }
    if let Some(mapping) = read_worded::<Mapping>(
        alloc,
        text,
        b"mapping ",
        &[
            ArgKind::Number,
            ArgKind::Object,
            ArgKind::Object,
            ArgKind::Number,
            ArgKind::Number,
            ArgKind::Rights,
        ],
    )? {
        return Ok(Some(ReadReply::Mapping(mapping)));
    }
    Ok(None)
}

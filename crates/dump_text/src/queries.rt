//! Queries, each object by its number.
ghost use Rattle.std.specs.Prelude.{◌≡◌, ◌++◌, [], IfOk, OnOk};
ghost use Rattle.text_words.specs.Reading.{Reads};
ghost use Rattle.call_text.specs.Resolve.{resolved};
ghost use Rattle.dump_text.specs.Query.{query_text, IsQuery, query_of};

use crate::calls::put_on_entry;
use crate::words::{Word, put_spoken};
use call_text::{Asked, NameList, resolve};
use kernel_rules::Query;
use std::alloc::{AllocError, Global};
use text_words::spoken_calls::{SpokenCall, Verb, read_spoken};

/// The query that the call asks where no name is known.
fn query_of(call: &SpokenCall<'_>) -> Option<Query>
    ensures { result ≡ query_of (resolved call.now []) }
{
    match resolve(call, &NameList { named: &[] }) {
        Ok(Asked::Read(query)) => Some(query),
        _ => None,
    }
}

/// The query that the text spells.
pub fn read_query(alloc: Global, text: &[u8]) -> Result<Option<Query>, AllocError>
    ensures { IfOk result (λ found. Reads query_text IsQuery text.now found) }
{
    let mut args = Vec::new(alloc);
    let Some(verb) = read_spoken(alloc, text, &mut args)? else {
        return Ok(None);
    };
    Ok(query_of(&SpokenCall::new(verb, args.as_slice())))
}

/// Adds the spelling of the query, which has one: each word is in its range by its type.
#[tactic(auto, using(crate::proofs::WordLemmas::spoken_fits))]
pub fn put_query(out: &mut Vec<u8>, query: &Query) -> Result<(), AllocError>
    ensures text { OnOk result (out.new.items ≡ out.old.items ++ query_text query.now) }
    ensures fits { OnOk result (IsQuery query.now) }
{
    match *query {
        Query::SelfGet => put_spoken(out, Verb::SelfGet, &[]),
        Query::ObjLabel { entry } => put_on_entry(out, Verb::ObjLabel, entry, &[]),
        Query::ObjQuota { entry } => put_on_entry(out, Verb::ObjQuota, entry, &[]),
        Query::ContainerList { container, from } => {
            let words = [Word::Object(container), Word::Number(from)];
            put_spoken(out, Verb::ContainerList, &words)
        }
        Query::ContainerParent { container } => {
            put_spoken(out, Verb::ContainerParent, &[Word::Object(container)])
        }
        Query::SegmentLen { entry } => put_on_entry(out, Verb::SegmentLen, entry, &[]),
        Query::SegmentRead {
            entry,
            offset,
            count,
        } => {
            let further = [Word::Number(offset), Word::Number(count)];
            put_on_entry(out, Verb::SegmentRead, entry, &further)
        }
        Query::MetaGet { entry } => put_on_entry(out, Verb::MetaGet, entry, &[]),
        Query::AsGet { space, slot } => {
            put_on_entry(out, Verb::AsGet, space, &[Word::Number(slot)])
        }
        Query::Load { address, count } => {
            put_spoken(out, Verb::Load, &[Word::Wide(address), Word::Number(count)])
        }
    }
}

//! Replies as text.
ghost use Rattle.std.specs.Prelude.{◌≡◌, ◌++◌, ◌∷◌, [], map, IfOk, OnOk};
ghost use Rattle.call_text.specs.ReplyWord.{words_text};
ghost use Rattle.call_text.specs.Reply.{own_words, quota_words, mapping_words, reply_text, making};

use crate::known_names::{Known, NameList, Named, Value};
use crate::reply_words::{Head, Word, put_further, put_words};
use base::{Category, Data, NoMemory, ObjectId, Refusal};
use kernel_rules::{Entry, Mapping, Reply};
use label_lattice::Label;
use std::alloc::Global;

/// Adds a category that was made.
#[inline(never)]
fn put_category<K: Known>(out: &mut Vec<u8>, category: Category, names: &K) -> Result<(), NoMemory>
    ensures { OnOk result (out.new.items ≡ out.old.items
        ++ words_text (K.names names.now) Head.Cat (Word.Category category ∷ [])) }
{
    put_words(out, Head::Cat, &[Word::Category(category)], names)
}

/// Adds an object, after the first word.
#[inline(never)]
fn put_object<K: Known>(
    out: &mut Vec<u8>,
    first: Head,
    id: ObjectId,
    names: &K,
) -> Result<(), NoMemory>
    ensures { OnOk result (out.new.items ≡ out.old.items
        ++ words_text (K.names names.now) first (Word.Object id ∷ [])) }
{
    put_words(out, first, &[Word::Object(id)], names)
}

/// Adds where a thread runs and what it was handed.
#[inline(never)]
fn put_entered<K: Known>(
    out: &mut Vec<u8>,
    entry_point: u64,
    closure: u64,
    names: &K,
) -> Result<(), NoMemory>
    ensures { OnOk result (out.new.items ≡ out.old.items
        ++ words_text (K.names names.now) Head.Entered (Word.Number entry_point ∷ Word.Number closure ∷ [])) }
{
    let words = [Word::Number(entry_point), Word::Number(closure)];
    put_words(out, Head::Entered, &words, names)
}

/// Adds bytes.
#[inline(never)]
fn put_bytes<K: Known>(out: &mut Vec<u8>, bytes: &Data, names: &K) -> Result<(), NoMemory>
    ensures { OnOk result (out.new.items ≡ out.old.items
        ++ words_text (K.names names.now) Head.Data (Word.Data bytes.now ∷ [])) }
{
    put_words(out, Head::Data, &[Word::Data(*bytes)], names)
}

/// The words of what a thread is.
fn own_words(
    label: &Label,
    clearance: &Label,
    verify: &Label,
    space: &Entry,
    entry_point: u64,
    closure: u64,
) -> [Word; 7]
    ensures { result ≡ own_words label.now clearance.now verify.now space.now entry_point closure }
{
    [
        Word::Label(*label),
        Word::Label(*clearance),
        Word::Label(*verify),
        Word::Object(space.container),
        Word::Object(space.object),
        Word::Number(entry_point),
        Word::Number(closure),
    ]
}

/// Adds what a thread is, in these words.
#[inline(never)]
fn put_own<K: Known>(out: &mut Vec<u8>, words: &[Word; 7], names: &K) -> Result<(), NoMemory>
    ensures { OnOk result (out.new.items ≡ out.old.items ++ words_text (K.names names.now) Head.Own words.now) }
{
    put_words(out, Head::Own, words, names)
}

/// Adds the label of an object.
#[inline(never)]
fn put_label<K: Known>(out: &mut Vec<u8>, label: &Label, names: &K) -> Result<(), NoMemory>
    ensures { OnOk result (out.new.items ≡ out.old.items
        ++ words_text (K.names names.now) Head.Label (Word.Label label.now ∷ [])) }
{
    put_words(out, Head::Label, &[Word::Label(*label)], names)
}

/// Adds what an object may use and uses.
#[inline(never)]
fn put_quota<K: Known>(
    out: &mut Vec<u8>,
    quota: u32,
    used: u32,
    fixed: bool,
    immutable: bool,
    names: &K,
) -> Result<(), NoMemory>
    ensures { OnOk result (out.new.items ≡ out.old.items
        ++ words_text (K.names names.now) Head.Quota (quota_words quota used fixed immutable)) }
{
    let words = [
        Word::Number(u64::from(quota)),
        Word::Number(u64::from(used)),
        Word::Flag(fixed),
        Word::Flag(immutable),
    ];
    put_words(out, Head::Quota, &words, names)
}

/// Adds the length of a segment.
#[inline(never)]
fn put_pages<K: Known>(out: &mut Vec<u8>, pages: u32, names: &K) -> Result<(), NoMemory>
    ensures { OnOk result (out.new.items ≡ out.old.items
        ++ words_text (K.names names.now) Head.Pages (Word.Number pages ∷ [])) }
{
    put_words(out, Head::Pages, &[Word::Number(u64::from(pages))], names)
}

/// Adds why a call was refused.
#[inline(never)]
fn put_refused<K: Known>(out: &mut Vec<u8>, refusal: Refusal, names: &K) -> Result<(), NoMemory>
    ensures { OnOk result (out.new.items ≡ out.old.items
        ++ words_text (K.names names.now) Head.Refused (Word.Refusal refusal ∷ [])) }
{
    put_words(out, Head::Refused, &[Word::Refusal(refusal)], names)
}

/// Adds how many ids a container lists, and some of them.
#[inline(never)]
fn put_listed<K: Known>(
    out: &mut Vec<u8>,
    count: u64,
    ids: &[ObjectId],
    names: &K,
) -> Result<(), NoMemory>
    ensures { OnOk result (out.new.items ≡ out.old.items
        ++ words_text (K.names names.now) Head.List (Word.Number count ∷ map Word.Object ids.now)) }
{
    put_words(out, Head::List, &[Word::Number(count)], names)?;
    for id in ids {
        put_further(out, &Word::Object(*id), names)?;
    }
    Ok(())
}

/// Adds what a slot maps.
#[inline(never)]
fn put_mapping<K: Known>(
    out: &mut Vec<u8>,
    mapping: &Option<Mapping>,
    names: &K,
) -> Result<(), NoMemory>
    ensures { OnOk result (out.new.items ≡ out.old.items
        ++ words_text (K.names names.now) Head.Mapping (mapping_words mapping.now)) }
{
    let Some(mapping) = mapping else {
        return put_words(out, Head::Mapping, &[Word::Nothing], names);
    };
    let words = [
        Word::Number(u64::from(mapping.page)),
        Word::Object(mapping.entry.container),
        Word::Object(mapping.entry.object),
        Word::Number(u64::from(mapping.first)),
        Word::Number(u64::from(mapping.count)),
        Word::Rights(mapping.rights),
    ];
    put_words(out, Head::Mapping, &words, names)
}

/// Adds the reply.
pub fn put_reply<K: Known>(out: &mut Vec<u8>, reply: &Reply, names: &K) -> Result<(), NoMemory>
    ensures { OnOk result (out.new.items
        ≡ out.old.items ++ reply_text (K.names names.now) reply.now) }
{
    // (a function sets room to zero for the words of all its arms: so each arm's words are made in a function of its own)
    match reply {
        Reply::Done => put_words(out, Head::Ok, &[], names),
        Reply::Category(category) => put_category(out, *category, names),
        Reply::Object(id) => put_object(out, Head::Id, *id, names),
        Reply::Entered {
            entry_point,
            closure,
        } => put_entered(out, *entry_point, *closure, names),
        Reply::Bytes(bytes) => put_bytes(out, bytes, names),
        Reply::Own {
            label,
            clearance,
            verify,
            space,
            entry_point,
            closure,
        } => {
            let words = own_words(label, clearance, verify, space, *entry_point, *closure);
            put_own(out, &words, names)
        }
        Reply::Label(label) => put_label(out, label, names),
        Reply::Quota {
            quota,
            used,
            fixed,
            immutable,
        } => put_quota(out, *quota, *used, *fixed, *immutable, names),
        Reply::Listed { count, ids } => put_listed(out, *count, ids.as_slice(), names),
        Reply::Parent(id) => put_object(out, Head::Parent, *id, names),
        Reply::Pages(pages) => put_pages(out, *pages, names),
        Reply::Mapping(mapping) => put_mapping(out, mapping, names),
        Reply::Refused(refusal) => put_refused(out, *refusal, names),
    }
}

/// Adds the reply of a call that made this object or category, as `put_reply` does.
pub fn put_made<K: Known>(out: &mut Vec<u8>, made: &Value, names: &K) -> Result<(), NoMemory>
    ensures { OnOk result (out.new.items
        ≡ out.old.items ++ reply_text (K.names names.now) (making made.now)) }
{
    match made {
        Value::Category(category) => put_category(out, *category, names),
        Value::Object(id) => put_object(out, Head::Id, *id, names),
    }
}

/// The one spelling of the reply. An object or a category is printed as the first name in the list
/// that is bound to it, and as `#` and its number where there is none.
pub fn write_reply(alloc: Global, reply: &Reply, names: &[Named]) -> Result<Vec<u8>, NoMemory>
    ensures { IfOk result (λ out. out.items ≡ reply_text names.now reply.now) }
{
    let mut out = Vec::new(alloc);
    put_reply(&mut out, reply, &NameList { named: names })?;
    Ok(out)
}

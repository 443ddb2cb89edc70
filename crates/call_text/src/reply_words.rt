//! The words of replies.
ghost use Rattle.std.specs.Prelude.{◌≡◌, ◌++◌, ◌∷◌, [], OnOk};
ghost use Rattle.call_text.specs.ReplyWord.{head_text, word_text, words_text, value_text};
ghost use Rattle.call_text.specs.ReplyWord.{pair_text, label_text, flag_text, refusal_text};

use crate::known_names::{Known, Value};
use base::{Category, Data, Meter, NoMemory, ObjectId, Refusal, Rights};
use label_lattice::{Label, Pair, RawLabel};
use std::alloc::AllocError;
use text_words::{put_data, put_level, put_name, put_number, put_rights};

/// A reply's first word.
#[derive(Clone, Copy, PartialEq, Eq)]
pub enum Head {
    Ok,
    Cat,
    Id,
    Entered,
    /// `self`, for what a thread is.
    Own,
    Label,
    Quota,
    List,
    Parent,
    Pages,
    Data,
    Mapping,
    Refused,
}

/// A further word of a reply.
#[derive(Clone, Copy)]
pub enum Word {
    Object(ObjectId),
    Category(Category),
    Number(u64),
    /// 0 or 1.
    Flag(bool),
    Label(Label),
    Data(Data),
    Rights(Rights),
    /// `none`, for what isn't there.
    Nothing,
    /// A refusal's number and name.
    Refusal(Refusal),
}

impl Head {
    fn text(self) -> &'static str
        ensures { result.now ≡ head_text self }
    {
        match self {
            Head::Ok => "ok",
            Head::Cat => "cat",
            Head::Id => "id",
            Head::Entered => "entered",
            Head::Own => "self",
            Head::Label => "label",
            Head::Quota => "quota",
            Head::List => "list",
            Head::Parent => "parent",
            Head::Pages => "pages",
            Head::Data => "data",
            Head::Mapping => "mapping",
            Head::Refused => "refused",
        }
    }
}

/// Adds the name of the value, or its number where it has none.
fn put_value<K: Known>(out: &mut Vec<u8>, value: &Value, names: &K) -> Result<(), AllocError>
    ensures { OnOk result (out.new.items
        ≡ out.old.items ++ value_text (K.names names.now) value.now) }
{
    if let Some(name) = names.name_of(value) {
        return put_name(out, &name);
    }
    out.push(b'#')?;
    match value {
        Value::Object(id) => put_number(out, id.number()),
        Value::Category(category) => put_number(out, category.0),
    }
}

/// Adds the category with its level, and a comma.
fn put_pair<K: Known>(out: &mut Vec<u8>, pair: &Pair, names: &K) -> Result<(), AllocError>
    ensures { OnOk result (out.new.items
        ≡ out.old.items ++ (pair_text (K.names names.now) pair.now ++ 44 ∷ [])) }
{
    put_value(out, &Value::Category(pair.category), names)?;
    out.push(b':')?;
    put_level(out, pair.level)?;
    out.push(b',')?;
    Ok(())
}

/// Adds the label.
fn put_raw_label<K: Known>(out: &mut Vec<u8>, label: &RawLabel, names: &K) -> Result<(), AllocError>
    ensures { OnOk result (out.new.items
        ≡ out.old.items ++ label_text (K.names names.now) label.now) }
{
    out.push(b'{')?;
    for place in 0..label.pairs.len() {
        put_pair(out, &label.pairs.pair_at(place), names)?;
    }
    put_level(out, label.default)?;
    out.push(b'}')?;
    Ok(())
}

/// Adds the label, which is read over a meter that nobody sees.
fn put_label<K: Known>(out: &mut Vec<u8>, label: &Label, names: &K) -> Result<(), NoMemory>
    ensures { OnOk result (out.new.items
        ≡ out.old.items ++ word_text (K.names names.now) (Word.Label label.now)) }
{
    let mut meter = Meter::new(*out.allocator())?;
    put_raw_label(out, &label.to_raw(&mut meter), names)?;
    Ok(())
}

/// Adds 0 or 1.
fn put_flag(out: &mut Vec<u8>, flag: bool) -> Result<(), AllocError>
    ensures { OnOk result (out.new.items ≡ out.old.items ++ flag_text flag) }
{
    out.push(if flag { b'1' } else { b'0' })?;
    Ok(())
}

/// Adds the refusal's number and name.
fn put_refusal(out: &mut Vec<u8>, refusal: Refusal) -> Result<(), AllocError>
    ensures { OnOk result (out.new.items ≡ out.old.items ++ refusal_text refusal) }
{
    put_number(out, u64::from(refusal.number()))?;
    out.push(b' ')?;
    out.extend_from_slice(refusal.name().as_bytes())
}

/// Adds the word.
fn put_word<K: Known>(out: &mut Vec<u8>, word: &Word, names: &K) -> Result<(), NoMemory>
    ensures { OnOk result (out.new.items
        ≡ out.old.items ++ word_text (K.names names.now) word.now) }
{
    match word {
        Word::Object(id) => put_value(out, &Value::Object(*id), names)?,
        Word::Category(category) => put_value(out, &Value::Category(*category), names)?,
        Word::Number(number) => put_number(out, *number)?,
        Word::Flag(flag) => put_flag(out, *flag)?,
        Word::Label(label) => put_label(out, label, names)?,
        Word::Data(bytes) => put_data(out, bytes)?,
        Word::Rights(rights) => put_rights(out, *rights)?,
        Word::Nothing => out.extend_from_slice(b"none")?,
        Word::Refusal(refusal) => put_refusal(out, *refusal)?,
    }
    Ok(())
}

/// Adds a space and the word.
pub fn put_further<K: Known>(out: &mut Vec<u8>, word: &Word, names: &K) -> Result<(), NoMemory>
    ensures { OnOk result (out.new.items
        ≡ out.old.items ++ 32 ∷ word_text (K.names names.now) word.now) }
{
    out.push(b' ')?;
    put_word(out, word, names)
}

/// Adds the words, parted by single spaces.
pub fn put_words<K: Known>(
    out: &mut Vec<u8>,
    first: Head,
    more: &[Word],
    names: &K,
) -> Result<(), NoMemory>
    ensures { OnOk result (out.new.items
        ≡ out.old.items ++ words_text (K.names names.now) first more.now) }
{
    out.extend_from_slice(first.text().as_bytes())?;
    for word in more {
        put_further(out, word, names)?;
    }
    Ok(())
}

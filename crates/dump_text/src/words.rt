//! Words that name no object or category but by its number, and their spelling.
ghost use Rattle.std.specs.Prelude.{◌≡◌, ◌≤◌, ◌++◌, ◌∷◌, [], length, OnOk};
ghost use Rattle.std.specs.List.{flat_map, AllByRecursion};
ghost use Rattle.text_words.specs.DataWord.{IsData};
ghost use Rattle.text_words.specs.Label.{pair_text, label_text, IsPair, IsLabel};
ghost use Rattle.text_words.specs.Arg.{arg_text, FitsArg};
ghost use Rattle.text_words.specs.Spoken.{spoken_text};
ghost use Rattle.dump_text.specs.Call.{spoken_as};
ghost use Rattle.dump_text.specs.Word.{arg_of, spoken_pair, spoken_label, words_text};

use base::{Data, ObjectId, Rights, TypeSet};
use label_lattice::{Pair, RawLabel};
use std::alloc::AllocError;
use text_words::spoken_calls::Verb;
use text_words::{put_data, put_level, put_number, put_rights, put_signed, put_types};

/// A word of a dump.
#[derive(Clone, Copy)]
pub enum Word {
    /// An object, as `#4`.
    Object(ObjectId),
    /// A number below 2^32.
    Number(u32),
    /// A number below 2^64.
    Wide(u64),
    /// A number from -2^31, below 2^31.
    Signed(i32),
    Label(RawLabel),
    Data(Data),
    Types(TypeSet),
    Rights(Rights),
}

/// Adds a category with its level, and a comma.
fn put_pair(out: &mut Vec<u8>, pair: &Pair) -> Result<(), AllocError>
    ensures text { OnOk result (out.new.items
        ≡ out.old.items ++ (pair_text (spoken_pair pair.now) ++ 44 ∷ [])) }
    ensures fits { OnOk result (IsPair (spoken_pair pair.now)) }
{
    out.push(b'#')?;
    put_number(out, pair.category.0)?;
    out.push(b':')?;
    put_level(out, pair.level)?;
    out.push(b',')?;
    Ok(())
}

/// Adds the spelling of the label.
fn put_label(out: &mut Vec<u8>, label: &RawLabel) -> Result<(), AllocError>
    ensures text { OnOk result (out.new.items
        ≡ out.old.items ++ label_text (spoken_label label.now)) }
    ensures fits { OnOk result (IsLabel (spoken_label label.now)) }
{
    out.push(b'{')?;
    for place in 0..label.pairs.len() {
        put_pair(out, &label.pairs.pair_at(place))?;
    }
    put_level(out, label.default)?;
    out.push(b'}')?;
    Ok(())
}

/// Adds the spelling of the object.
fn put_object(out: &mut Vec<u8>, id: ObjectId) -> Result<(), AllocError>
    ensures text { OnOk result (out.new.items
        ≡ out.old.items ++ arg_text (arg_of (Word.Object id))) }
    ensures fits { OnOk result (FitsArg (arg_of (Word.Object id))) }
{
    out.push(b'#')?;
    put_number(out, id.number())
}

/// Tells of bytes what their type tells: each is below 256.
pub fn are_bytes(bytes: &[u8])
    requires { length bytes.now ≤ 64 }
    ensures { IsData bytes.now }
{}

/// Adds the spelling of the word, which is in its range by its type.
pub fn put_word(out: &mut Vec<u8>, word: &Word) -> Result<(), AllocError>
    ensures text { OnOk result (out.new.items ≡ out.old.items ++ arg_text (arg_of word.now)) }
    ensures fits { OnOk result (FitsArg (arg_of word.now)) }
{
    match word {
        Word::Object(id) => put_object(out, *id),
        Word::Number(number) => put_number(out, u64::from(*number)),
        Word::Wide(number) => put_number(out, *number),
        Word::Signed(number) => put_signed(out, *number),
        Word::Label(label) => put_label(out, label),
        Word::Data(bytes) => {
            are_bytes(bytes.as_slice());
            put_data(out, bytes)
        }
        Word::Types(set) => put_types(out, *set),
        Word::Rights(rights) => put_rights(out, *rights),
    }
}

/// Adds the words, each after a space.
pub fn put_further(out: &mut Vec<u8>, words: &[Word]) -> Result<(), AllocError>
    ensures text { OnOk result (out.new.items
        ≡ out.old.items ++ flat_map (λ w. 32 ∷ arg_text (arg_of w)) words.now) }
    ensures fits { OnOk result (AllByRecursion (λ w. FitsArg (arg_of w)) words.now) }
{
    for word in words {
        out.push(b' ')?;
        put_word(out, word)?;
    }
    Ok(())
}

/// Adds a call with its words, parted by single spaces.
pub fn put_spoken(out: &mut Vec<u8>, verb: Verb, words: &[Word]) -> Result<(), AllocError>
    ensures text { OnOk result (out.new.items
        ≡ out.old.items ++ spoken_text (spoken_as verb words.now)) }
    ensures fits { OnOk result (AllByRecursion (λ w. FitsArg (arg_of w)) words.now) }
{
    out.extend_from_slice(verb.name().as_bytes())?;
    put_further(out, words)?;
    Ok(())
}

/// Adds the beginning, and after it the words, parted by single spaces.
pub fn put_words(
    out: &mut Vec<u8>,
    beginning: &[u8],
    first: &Word,
    more: &[Word],
) -> Result<(), AllocError>
    ensures text { OnOk result (out.new.items
        ≡ out.old.items ++ (beginning.now ++ words_text (first.now ∷ more.now))) }
    ensures fits { OnOk result
        (AllByRecursion (λ w. FitsArg (arg_of w)) (first.now ∷ more.now)) }
{
    out.extend_from_slice(beginning)?;
    put_word(out, first)?;
    put_further(out, more)?;
    Ok(())
}

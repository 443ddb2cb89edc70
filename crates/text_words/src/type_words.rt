//! Sets of kinds: `-`, or the letters of `csatgd` for the kinds in the set, in this order.
ghost use Rattle.std.specs.Prelude.{◌≡◌, ◌++◌, IsTrue, ◌↔◌, OnOk};
ghost use Rattle.text_words.specs.Reading.{Reads};
ghost use Rattle.text_words.specs.TypeWord.{letters, letters_of, types_text, set_of, gathered};

use crate::compared::is_same;
use base::{Kind, TypeSet};
use std::alloc::AllocError;

/// The letters, in the order in which they are written.
const LETTERS: [(u8, Kind); 6] = [
    (b'c', Kind::Container),
    (b's', Kind::Segment),
    (b'a', Kind::AddressSpace),
    (b't', Kind::Thread),
    (b'g', Kind::Gate),
    (b'd', Kind::Device),
];

/// The kind that a letter stands for, and none for other bytes.
fn set_of(letter: u8) -> TypeSet
    ensures { result ≡ set_of letter }
{
    match letter {
        b'c' => TypeSet::of(Kind::Container),
        b's' => TypeSet::of(Kind::Segment),
        b'a' => TypeSet::of(Kind::AddressSpace),
        b't' => TypeSet::of(Kind::Thread),
        b'g' => TypeSet::of(Kind::Gate),
        b'd' => TypeSet::of(Kind::Device),
        _ => TypeSet::none(),
    }
}

/// The set of the kinds whose letters stand in the word, in any order.
fn gathered(word: &[u8]) -> TypeSet
    ensures { result ≡ gathered word.now }
{
    let mut set = TypeSet::none();
    for letter in word {
        set = set | set_of(*letter);
    }
    set
}

/// Whether the word has the set's letters and nothing else.
fn spells(word: &[u8], set: TypeSet) -> bool
    ensures { IsTrue result ↔ (word.now ≡ letters_of set letters) }
{
    let mut rest = word;
    for (letter, kind) in LETTERS {
        if set.has(kind) {
            let [first, after @ ..] = rest else {
                return false;
            };
            if *first != letter {
                return false;
            }
            rest = after;
        }
    }
    rest.is_empty()
}

/// The set of kinds that the word spells.
pub fn read_types(word: &[u8]) -> Option<TypeSet>
    ensures { Reads types_text (λ _. Unit) word.now result }
{
    if is_same(word, b"-") {
        return Some(TypeSet::none());
    }
    let set = gathered(word);
    if word.is_empty() || !spells(word, set) {
        return None;
    }
    Some(set)
}

/// Adds the set's letters.
fn put_letters(out: &mut Vec<u8>, set: TypeSet) -> Result<(), AllocError>
    ensures { OnOk result (out.new.items ≡ out.old.items ++ letters_of set letters) }
{
    for (letter, kind) in LETTERS {
        if set.has(kind) {
            out.push(letter)?;
        }
    }
    Ok(())
}

/// Adds the spelling of the set of kinds.
pub fn put_types(out: &mut Vec<u8>, set: TypeSet) -> Result<(), AllocError>
    ensures { OnOk result (out.new.items ≡ out.old.items ++ types_text set) }
{
    let before = out.len();
    put_letters(out, set)?;
    if out.len() == before {
        out.push(b'-')?;
    }
    Ok(())
}

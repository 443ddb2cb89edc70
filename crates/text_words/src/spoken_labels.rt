//! Labels as a script writes them: `{c:3,#7:*,1}`.
ghost use Rattle.std.specs.Prelude.{◌≡◌, ◌≤◌, ◌++◌, ◌∷◌, [], ℕ, List, length, IfOk};
ghost use Rattle.std.specs.Prelude.{OnOk, IfSome, IfNone};
ghost use Rattle.text_words.specs.Reading.{Reads};
ghost use Rattle.text_words.specs.Label.{pair_text, IsPair, inside_text, label_text, IsLabel};

use crate::level_words::{put_level, read_level};
use crate::parting::parted;
use crate::references::{Reference, put_reference, read_reference};
use base::Level;
use std::alloc::{AllocError, Global};
use std::marker::Model;

/// A category with its level.
#[derive(Clone, Copy)]
pub struct SpokenPair {
    /// The category, by its number or a name.
    pub category: Reference,
    /// Its level.
    pub level: Level,
}

/// A label: up to 24 pairs, kept as they were written, and the level of all other categories. A contract sees its pairs
/// as a list, and its default.
#[derive(Drop)]
pub struct SpokenLabel {
    pairs: Vec<SpokenPair>,
    default: Level,
}

impl Model for SpokenLabel {
    ghost use Rattle.std.specs.Prelude.{◌≤◌, length};
    ghost use Rattle.text_words.specs.Label.{LabelValue};

    ghost Value = { LabelValue };

    ghost view = { λ a. record { pairs = a.pairs.items; default = a.default } };

    ghost invariant = { λ a. length a.pairs.items ≤ 24 };
}

impl SpokenLabel {
    /// The pairs, at most 24.
    pub fn pairs(&self) -> &[SpokenPair]
        ensures value { result.now ≡ self.now.pairs }
        ensures few { length self.now.pairs ≤ 24 }
    {
        self.pairs.as_slice()
    }

    /// The level of all other categories.
    pub fn default(&self) -> Level
        ensures { result ≡ self.now.default }
    {
        self.default
    }
}

/// A category and its level, as `#5:3`.
fn read_pair(word: &[u8]) -> Option<SpokenPair>
    ensures { Reads pair_text IsPair word.now result }
{
    let [category @ .., b':', level] = word else {
        return None;
    };
    let Some(level) = read_level(&[*level]) else {
        return None;
    };
    let Some(category) = read_reference(category) else {
        return None;
    };
    Some(SpokenPair { category, level })
}

/// What stands in the braces.
fn inside(word: &[u8]) -> Option<&[u8]>
    ensures some { IfSome result (λ r. word.now ≡ 123 ∷ (r.now ++ 125 ∷ [])) }
    ensures none { IfNone result ((r : List ℕ) → word.now ≡ 123 ∷ (r ++ 125 ∷ []) → ⊥) }
{
    match word {
        [b'{', middle @ .., b'}'] => Some(middle),
        _ => None,
    }
}

/// The label whose pairs and default the text spells, parted by commas.
fn read_inside(alloc: Global, text: &[u8]) -> Result<Option<SpokenLabel>, AllocError>
    ensures { IfOk result (λ found. Reads inside_text IsLabel text.now found) }
{
    let mut pairs = Vec::new(alloc);
    let mut rest = text;
    while let Some((part, after)) = parted(rest, b',') {
        if pairs.len() >= 24 {
            return Ok(None);
        }
        let Some(SpokenPair { category, level }) = read_pair(part) else {
            return Ok(None);
        };
        pairs.push(SpokenPair { category, level })?;
        rest = after;
    }
    let Some(default) = read_level(rest) else {
        return Ok(None);
    };
    Ok(Some(SpokenLabel { pairs, default }))
}

/// The label that the word spells.
pub fn read_label(alloc: Global, word: &[u8]) -> Result<Option<SpokenLabel>, AllocError>
    ensures { IfOk result (λ found. Reads label_text IsLabel word.now found) }
{
    let Some(text) = inside(word) else {
        return Ok(None);
    };
    read_inside(alloc, text)
}

/// Adds the spelling of a pair, and a comma.
fn put_pair(out: &mut Vec<u8>, pair: &SpokenPair) -> Result<(), AllocError>
    ensures { OnOk result (out.new.items ≡ out.old.items ++ (pair_text pair.now ++ 44 ∷ [])) }
{
    put_reference(out, &pair.category)?;
    out.push(b':')?;
    put_level(out, pair.level)?;
    out.push(b',')?;
    Ok(())
}

/// Adds the spelling of the label.
pub fn put_label(out: &mut Vec<u8>, label: &SpokenLabel) -> Result<(), AllocError>
    ensures { OnOk result (out.new.items ≡ out.old.items ++ label_text label.now) }
{
    out.push(b'{')?;
    for pair in label.pairs() {
        put_pair(out, pair)?;
    }
    put_level(out, label.default())?;
    out.push(b'}')?;
    Ok(())
}

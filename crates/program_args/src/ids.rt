//! Arguments that are an id or a category, typed as `#4` or as `4`.
ghost use Rattle.std.specs.Prelude.{◌≡◌, ◌++◌, false, IfOk, OnOk, map, string_bytes};
ghost use Rattle.program_args.specs.Ids.{bare, parts_of, takes_id, without_marks};

use std::alloc::{AllocError, Global};

/// Whether a word is an option whose value is an id or a category.
fn takes_id(word: &str) -> bool
    ensures { result ≡ takes_id word.now }
{
    word == "--from"
        || word == "--category"
        || word == "--next-id"
        || word == "--next-category"
        || word == "--as"
}

/// A value without the mark of an id.
fn bare(value: &str) -> &str
    ensures { result.now ≡ bare value.now }
{
    let Some((before, number)) = value.split_once('#') else {
        return value;
    };
    if before.is_empty() { number } else { value }
}

/// Adds a word, or the two words that an option and its value are.
fn put_parts<'a>(out: &mut Vec<&'a str>, word: &'a str) -> Result<(), AllocError>
    ensures { OnOk result (map (λ w. w.now) out.new.items ≡ map (λ w. w.now) out.old.items ++ parts_of word.now) }
{
    let Some((option, value)) = word.split_once('=') else {
        out.push(word)?;
        return Ok(());
    };
    if !takes_id(option) {
        out.push(word)?;
        return Ok(());
    }
    out.push(option)?;
    out.push(bare(value))?;
    Ok(())
}

/// The words, each id and each category without its mark.
pub fn without_marks<'a>(alloc: Global, words: &'a [String]) -> Result<Vec<&'a str>, AllocError>
    ensures { IfOk result (λ plain. map (λ w. w.now) plain.items ≡ without_marks false (map string_bytes words.now)) }
{
    let mut plain = Vec::new(alloc);
    let mut is_id = false;
    for word in words {
        let word = word.as_str();
        if is_id {
            plain.push(bare(word))?;
        } else {
            put_parts(&mut plain, word)?;
        }
        is_id = !is_id && takes_id(word);
    }
    Ok(plain)
}

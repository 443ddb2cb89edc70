//! Objects and categories in a script: a number, or a name that an earlier line binds.
ghost use Rattle.std.specs.Prelude.{◌≡◌, ◌++◌, OnOk};
ghost use Rattle.text_words.specs.Reading.{Reads};
ghost use Rattle.text_words.specs.Reference.{reference_text, IsReference};

use crate::names::{Name, put_name, read_name};
use crate::numbers::{put_number, read_number};
use std::alloc::AllocError;

/// An object or a category, as a script names it.
#[derive(Clone, Copy)]
pub enum Reference {
    /// By its number, as `#7`.
    Number(u64),
    /// By a name.
    Name(Name),
}

/// The object or category that the word spells.
pub fn read_reference(word: &[u8]) -> Option<Reference>
    ensures { Reads reference_text IsReference word.now result }
{
    match word {
        [b'#', digits @ ..] => match read_number(digits, u64::MAX) {
            Some(number) => Some(Reference::Number(number)),
            None => None,
        },
        _ => match read_name(word) {
            Some(name) => Some(Reference::Name(name)),
            None => None,
        },
    }
}

/// Adds the spelling of the object or category.
pub fn put_reference(out: &mut Vec<u8>, reference: &Reference) -> Result<(), AllocError>
    ensures { OnOk result (out.new.items ≡ out.old.items ++ reference_text reference.now) }
{
    match reference {
        Reference::Number(number) => {
            out.push(b'#')?;
            put_number(out, *number)
        }
        Reference::Name(name) => put_name(out, name),
    }
}

//! Reading names.
ghost use Rattle.std.specs.Global.{Vec as VecValue};
ghost use Rattle.std.specs.Prelude.{◌≡◌, ℕ, List, Result as ResultValue, IfOk, Some};
ghost use Rattle.text_words.specs.Reading.{Reads};
ghost use Rattle.call_text.specs.declared.known_names.Named.{Named as NamedValue};
ghost use Rattle.call_text.specs.Names.{Binds};
ghost use Rattle.call_text.specs.RunNames.{made_text, named_text, IsMade, IsNamed, AreNames, NamesFaultAt};
ghost use Rattle.call_text.specs.declared.names_text.errors.NamesError.{NamesError as ErrorValue};
ghost use Rattle.call_text.specs.NameReading.{ReadsNames, AreRead};

use crate::lines::after_equals;
use crate::names_text::errors::NamesError;
use crate::{Named, Value};
use base::{Category, ObjectId};
use indexmap::IndexSet;
use std::alloc::{AllocError, Global};
use text_words::{Name, parted, read_name, read_number};

/// What a text says that a name is bound to.
fn read_made(text: &[u8]) -> Option<Value>
    ensures { Reads made_text IsMade text.now result }
{
    match text {
        [b'i', b'd', b' ', b'#', digits @ ..] => match read_number(digits, u64::MAX) {
            Some(number) => Some(Value::Object(ObjectId::new(number))),
            None => None,
        },
        [b'c', b'a', b't', b' ', b'#', digits @ ..] => match read_number(digits, u64::MAX) {
            Some(number) => Some(Value::Category(Category(number))),
            None => None,
        },
        _ => None,
    }
}

/// The name that a line without its end spells, with what it is bound to.
fn read_named(text: &[u8]) -> Option<Named>
    ensures { Reads named_text IsNamed text.now result }
{
    let Some((first, after)) = parted(text, b' ') else {
        return None;
    };
    let Some(made) = after_equals(after) else {
        return None;
    };
    let Some(name) = read_name(first) else {
        return None;
    };
    let Some(value) = read_made(made) else {
        return None;
    };
    Some(Named { name, value })
}

/// Notes a name, and tells whether it was not noted before.
fn note(known: &mut IndexSet<Name>, name: &Name) -> Result<bool, AllocError>
    ensures { IfOk result (λ fresh. Binds (Some name.now) known.old.keys known.new.keys fresh) }
{
    let fresh = known.insert(*name)?;
    Ok(fresh)
}

/// The names that bytes spell, in their order. `Line` tells the first line at which they stop being the beginning of a text of
/// names: it is no name's, lacks its end, or has a name that an earlier line has.
pub fn read_names(alloc: Global, bytes: &[u8]) -> Result<Vec<Named>, NamesError>
    ensures { ReadsNames bytes.now result }
{
    let mut known = IndexSet::new(alloc);
    let mut names = Vec::new(alloc);
    let mut rest = bytes;
    let mut line = 1u64;
    while !rest.is_empty() {
        let Some((text, after)) = parted(rest, b'\n') else {
            return Err(NamesError::Line(line));
        };
        let Some(named) = read_named(text) else {
            return Err(NamesError::Line(line));
        };
        if !note(&mut known, &named.name)? {
            return Err(NamesError::Line(line));
        }
        names.push(named)?;
        line += 1;
        rest = after;
    }
    Ok(names)
}

/// A law, which does nothing when it is called: bytes spell names in one way, what spells names has no faulty line, and the
/// first faulty line is one.
pub fn one_reading()
    ensures value { (bytes : List ℕ) (a b : List NamedValue) → AreNames bytes a → AreNames bytes b → a ≡ b }
    ensures fault { (bytes : List ℕ) (n : ℕ) (a : List NamedValue) → NamesFaultAt bytes n → AreNames bytes a → ⊥ }
    ensures line { (bytes : List ℕ) (n m : ℕ) → NamesFaultAt bytes n → NamesFaultAt bytes m → n ≡ m }
{}

/// A law, which does nothing when it is called: what is written as names is read as these names, unless memory runs out.
pub fn written_is_read()
    ensures { (bytes : List ℕ) (names : List NamedValue) (read : ResultValue (VecValue NamedValue) ErrorValue)
        → AreNames bytes names → ReadsNames bytes read → AreRead names read }
{}

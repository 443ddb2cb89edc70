//! The names that a script binds.
use anyhow::Result;
use base::{Category, ObjectId};
use call_text::{Known, Named, Value};
use happy_calls::look::Look;
use script_runner::BoundNames;
use std::alloc::Global;
use text_words::Name;

/// Whether the names answer as a list of them would.
fn are_known(names: &BoundNames) -> bool {
    let root = Name::from_slice(b"root");
    let c = Name::from_slice(b"c");
    let known = match (names.value_of(&root), names.value_of(&c)) {
        (Some(first), Some(second)) => {
            first.is_same(&Value::Object(ObjectId::root()))
                && second.is_same(&Value::Category(Category(7)))
        }
        _ => false,
    };
    known
        && names.value_of(&Name::from_slice(b"d")).is_none()
        && names.name_of(&Value::Category(Category(7))) == Some(c)
        && names.name_of(&Value::Category(Category(1))).is_none()
        && names.name_of(&Value::Object(ObjectId::root())) == Some(root)
}

// A name that is bound stays bound, and of two names of one value the first is told. Where an
// allocation is refused, the name that is bound again is bound once.
fn want_of_memory_binds_no_name_by_half(alloc: Global, look: &mut Look) -> Result<()> {
    look.part("want_of_memory_binds_no_name_by_half");
    let mut names = match BoundNames::start(alloc) {
        Ok(names) => names,
        Err(_) => BoundNames::start(alloc)?,
    };
    for (name, value) in [
        (b"c".as_slice(), Value::Category(Category(7))),
        (b"again", Value::Category(Category(7))),
        (b"c", Value::Object(ObjectId::root())),
    ] {
        let named = Named {
            name: Name::from_slice(name),
            value,
        };
        if names.bind(&named).is_err() {
            names.bind(&named)?;
        }
    }
    look.sees(are_known(&names));
    let mut later = BoundNames::none(alloc);
    if later.bind_all(&names).is_err() {
        later.bind_all(&names)?;
    }
    look.sees(are_known(&later));
    Ok(())
}

/// Plays what is made again where there was no memory.
pub fn again(alloc: Global, look: &mut Look) -> Result<()> {
    want_of_memory_binds_no_name_by_half(alloc, look)
}

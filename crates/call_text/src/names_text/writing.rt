//! Writing names.
ghost use Rattle.std.specs.Prelude.{◌≡◌, ◌++◌, ◌∷◌, [], IfOk, OnOk};
ghost use Rattle.call_text.specs.RunNames.{made_text, named_text, IsMade, IsNamed, StandOnce, AreNames};

use crate::{Named, Value};
use base::NoMemory;
use std::alloc::{AllocError, Global};
use text_words::put_number;

/// Adds what a name is bound to.
fn put_value(out: &mut Vec<u8>, value: &Value) -> Result<(), AllocError>
    ensures text { OnOk result (out.new.items ≡ out.old.items ++ made_text value.now) }
    ensures fits { OnOk result (IsMade value.now) }
{
    match value {
        Value::Object(id) => {
            out.extend_from_slice(b"id #")?;
            put_number(out, id.number())
        }
        Value::Category(category) => {
            out.extend_from_slice(b"cat #")?;
            put_number(out, category.0)
        }
    }
}

/// Adds the line of a name, with its end.
fn put_named(out: &mut Vec<u8>, named: &Named) -> Result<(), AllocError>
    ensures text { OnOk result (out.new.items ≡ out.old.items ++ (named_text named.now ++ 10 ∷ [])) }
    ensures fits { OnOk result (IsNamed named.now) }
{
    out.extend_from_slice(named.name.as_slice())?;
    out.extend_from_slice(b" = ")?;
    put_value(out, &named.value)?;
    out.push(b'\n')?;
    Ok(())
}

/// The text of names, in their order, none of which stands twice. Read again, it is these names. Want of memory is the only error.
pub fn write_names(alloc: Global, names: &[Named]) -> Result<Vec<u8>, NoMemory>
    requires { StandOnce names.now }
    ensures { IfOk result (λ out. AreNames out.items names.now) }
{
    let mut out = Vec::new(alloc);
    for named in names {
        put_named(&mut out, named)?;
    }
    Ok(out)
}

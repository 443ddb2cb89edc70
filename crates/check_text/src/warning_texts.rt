//! What is printed of warnings.
ghost use Rattle.std.specs.Prelude.{◌≡◌, ◌++◌, OnOk};
ghost use Rattle.check_text.specs.WarningTexts.{kind_text, name_in, said_text, warning_text, warned_text, warnings_text};

use crate::places::{Source, put_place};
use crate::script_checks::{Warned, Warning};
use base::NoMemory;
use text_words::{Name, put_name};

/// As what a name is not bound.
fn kind_text(category: bool) -> &'static str
    ensures { result.now ≡ kind_text category }
{
    if category {
        " is not bound to a category here"
    } else {
        " is not bound to an object here"
    }
}

/// The name that is told of.
fn name_in(warning: &Warning) -> Name
    ensures { result ≡ name_in warning.now }
{
    match warning {
        Warning::Unused(name) => *name,
        Warning::NoWorker(name) => *name,
        Warning::Unbound(mention) => mention.name,
    }
}

/// What is told of it.
fn said_text(warning: &Warning) -> &'static str
    ensures { result.now ≡ said_text warning.now }
{
    match warning {
        Warning::Unused(_) => " is bound and never used",
        Warning::NoWorker(_) => " is a worker that is not bound before this phase",
        Warning::Unbound(mention) => kind_text(mention.category),
    }
}

/// Adds what is told.
fn put_warning(out: &mut Vec<u8>, warning: &Warning) -> Result<(), NoMemory>
    ensures { OnOk result (out.new.items ≡ out.old.items ++ warning_text warning.now) }
{
    put_name(out, &name_in(warning))?;
    out.extend_from_slice(said_text(warning).as_bytes())?;
    Ok(())
}

/// Adds a warning: `PATH:LINE: warning: ` and what is told.
fn put_warned(out: &mut Vec<u8>, source: &Source<'_>, warned: &Warned) -> Result<(), NoMemory>
    ensures { OnOk result (out.new.items
        ≡ out.old.items ++ warned_text source.now.path.now source.now.numbers.now warned.now) }
{
    put_place(out, source, warned.line)?;
    out.extend_from_slice(b" warning: ")?;
    put_warning(out, &warned.warning)?;
    out.push(b'\n')?;
    Ok(())
}

/// Adds warnings, a line each.
pub fn put_warnings(
    out: &mut Vec<u8>,
    source: &Source<'_>,
    warnings: &[Warned],
) -> Result<(), NoMemory>
    ensures { OnOk result (out.new.items
        ≡ out.old.items ++ warnings_text source.now.path.now source.now.numbers.now warnings.now) }
{
    for warned in warnings {
        put_warned(out, source, warned)?;
    }
    Ok(())
}

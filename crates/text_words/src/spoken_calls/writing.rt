//! Writing calls.
ghost use Rattle.std.specs.Prelude.{◌≡◌, ◌++◌, OnOk};
ghost use Rattle.text_words.specs.Arg.{arg_text};
ghost use Rattle.text_words.specs.Spoken.{spoken_text};

use crate::spoken_calls::args::Arg;
use crate::spoken_calls::spoken::SpokenCall;
use crate::{put_data, put_label, put_number, put_reference, put_rights, put_signed, put_types};
use std::alloc::AllocError;

/// Adds the word of the argument.
fn put_arg(out: &mut Vec<u8>, arg: &Arg) -> Result<(), AllocError>
    ensures { OnOk result (out.new.items ≡ out.old.items ++ arg_text arg.now) }
{
    match arg {
        Arg::Object(reference) => put_reference(out, reference),
        Arg::Number(number) => put_number(out, u64::from(*number)),
        Arg::Wide(number) => put_number(out, *number),
        Arg::Signed(number) => put_signed(out, *number),
        Arg::Label(label) => put_label(out, label),
        Arg::Data(bytes) => put_data(out, bytes),
        Arg::Types(set) => put_types(out, *set),
        Arg::Rights(rights) => put_rights(out, *rights),
    }
}

/// Adds the spelling of the call.
pub fn put_spoken(out: &mut Vec<u8>, call: &SpokenCall<'_>) -> Result<(), AllocError>
    ensures { OnOk result (out.new.items ≡ out.old.items ++ spoken_text call.now) }
{
    out.extend_from_slice(call.verb().name().as_bytes())?;
    for arg in call.args() {
        out.push(b' ')?;
        put_arg(out, arg)?;
    }
    Ok(())
}

//! A dump as JSON.
ghost use Rattle.std.specs.Prelude.{◌≡◌, IfOk};
ghost use Rattle.shown_dumps.specs.Json.{text_data, json_text, IsJson};
ghost use Rattle.serde_json.specs.View.{view};

use crate::json::pieces::line_values;
use crate::states::{ShowFault, dump_in};
use serde_json::Value;
use std::alloc::{AllocError, Global};

/// The lines of a text as one value.
fn text_value(alloc: Global, text: &[u8]) -> Result<Value, AllocError>
    ensures { IfOk result (λ value. view value ≡ text_data text.now) }
{
    Ok(Value::Array(line_values(alloc, text)?))
}

/// The lines of a text as JSON, and the end of a line.
fn text_json(alloc: Global, text: &[u8]) -> Result<Vec<u8>, AllocError>
    ensures { IfOk result (λ told. told.items ≡ json_text text.now) }
{
    let value = text_value(alloc, text)?;
    let mut told = value.to_vec(alloc)?;
    told.push(b'\n')?;
    Ok(told)
}

/// The dump that a text spells as JSON, as one line. The errors are the line at which the text stops being a dump, and want of
/// memory.
pub fn json(alloc: Global, text: &[u8]) -> Result<Vec<u8>, ShowFault>
    ensures { IsJson text.now result }
{
    let _dump = dump_in(alloc, text)?;
    match text_json(alloc, text) {
        Ok(told) => Ok(told),
        Err(_) => Err(ShowFault::Memory),
    }
}

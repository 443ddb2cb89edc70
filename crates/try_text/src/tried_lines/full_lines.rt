//! A line of a dialogue as a line of a script.
ghost use Rattle.std.specs.Prelude.{◌≡◌, ◌++◌, drop, IfOk, OnOk};
ghost use Rattle.text_words.specs.Lacks.{lacks};
ghost use Rattle.check_text.specs.Lines.{before_byte};
ghost use Rattle.try_text.specs.FullLines.{with_worker, full_line};

use base::NoMemory;
use check_text::{binding, cut};
use std::alloc::Global;
use text_words::parted;

/// Whether the first word is no worker, since it has no colon.
fn lacks_worker(text: &[u8]) -> bool
    ensures { result ≡ lacks 58 (before_byte 32 text.now) }
{
    let (word, _) = cut(text, b' ');
    match parted(word, b':') {
        Some(_) => false,
        None => true,
    }
}

/// Adds the text, with the worker boot where it names none.
fn put_with_worker(out: &mut Vec<u8>, text: &[u8]) -> Result<(), NoMemory>
    ensures { OnOk result (out.new.items ≡ out.old.items ++ with_worker text.now) }
{
    if lacks_worker(text) {
        out.extend_from_slice(b"boot: ")?;
    }
    out.extend_from_slice(text)?;
    Ok(())
}

/// What stands after two bytes.
fn after_two(text: &[u8]) -> &[u8]
    ensures { result.now ≡ drop 2 text.now }
{
    match text {
        [_, _, rest @ ..] => rest,
        _ => &[],
    }
}

/// The line of a script that a line of a dialogue stands for: where it names no worker, that is boot. The error is want of
/// memory.
pub fn full_line(alloc: Global, text: &[u8]) -> Result<Vec<u8>, NoMemory>
    ensures { IfOk result (λ full. full.items ≡ full_line text.now) }
{
    let mut full = Vec::new(alloc);
    let Some(name) = binding(text) else {
        put_with_worker(&mut full, text)?;
        return Ok(full);
    };
    full.extend_from_slice(name)?;
    full.extend_from_slice(b" = ")?;
    put_with_worker(&mut full, after_two(cut(text, b' ').1))?;
    Ok(full)
}

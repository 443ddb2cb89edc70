//! The place that a line of output begins with.
ghost use Rattle.std.specs.Prelude.{◌≡◌, ◌++◌, OnOk};
ghost use Rattle.check_text.specs.Places.{place_text};

use base::NoMemory;
use call_text::plain_scripts::number_at;
use text_words::put_number;

/// Where a script stands, and which of its lines were written where.
#[derive(Clone, Copy)]
pub struct Source<'a> {
    /// The path.
    pub path: &'a str,
    /// The numbers of the lines as they were written, where these are kept.
    pub numbers: &'a [u32],
}

/// Adds `PATH:LINE:`, by the line's number as it was written.
pub fn put_place(out: &mut Vec<u8>, source: &Source<'_>, line: u32) -> Result<(), NoMemory>
    ensures { OnOk result (out.new.items
        ≡ out.old.items ++ place_text source.now.path.now source.now.numbers.now line) }
{
    out.extend_from_slice(source.path.as_bytes())?;
    out.push(b':')?;
    put_number(out, u64::from(number_at(source.numbers, line)))?;
    out.push(b':')?;
    Ok(())
}

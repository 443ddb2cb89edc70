//! A line as people write it.
ghost use Rattle.std.specs.Prelude.{◌≡◌, ◌++◌, OnOk};
ghost use Rattle.text_words.specs.DataWord.{data_text};
ghost use Rattle.call_text.specs.Lines.{is_silent, plain_line};

use base::NoMemory;
use text_words::parted;

/// Whether a line says nothing: it is empty, or a comment.
pub fn is_silent(line: &[u8]) -> bool
    ensures { result ≡ is_silent line.now }
{
    match line {
        [] => true,
        [first, ..] => *first == b'#',
    }
}

/// Adds bytes as data.
fn put_text(out: &mut Vec<u8>, text: &[u8]) -> Result<(), NoMemory>
    ensures { OnOk result (out.new.items ≡ out.old.items ++ data_text text.now) }
{
    if text.is_empty() {
        out.push(b'-')?;
        return Ok(());
    }
    let digits = hex::encode(*out.allocator(), text)?;
    out.extend_from_slice(digits.as_bytes())?;
    Ok(())
}

/// Adds the exact form of a line without its end: each text in quotes as data. A quote that none closes stays. Want of memory is
/// the only error.
pub fn put_plain(out: &mut Vec<u8>, line: &[u8]) -> Result<(), NoMemory>
    ensures { OnOk result (out.new.items ≡ out.old.items ++ plain_line line.now) }
{
    let mut rest = line;
    while let Some((before, quoted)) = parted(rest, b'"') {
        out.extend_from_slice(before)?;
        let Some((text, after)) = parted(quoted, b'"') else {
            out.push(b'"')?;
            out.extend_from_slice(quoted)?;
            return Ok(());
        };
        put_text(out, text)?;
        rest = after;
    }
    out.extend_from_slice(rest)?;
    Ok(())
}

//! The lines that tell verdicts.
ghost use Rattle.std.specs.Prelude.{◌≡◌, ◌∷◌, [], ◌++◌, decimal, OnOk};
ghost use Rattle.auditor.specs.Lines.{verdict_line};

use crate::verdicts::Verdict;
use base::NoMemory;
use text_words::put_number;

/// Adds a line that ends with a number. The error is want of memory.
pub fn put_numbered(text: &mut Vec<u8>, words: &[u8], number: u64) -> Result<(), NoMemory>
    ensures { OnOk result (text.new.items ≡ text.old.items ++ (words.now ++ decimal number ++ 10 ∷ [])) }
{
    text.extend_from_slice(words)?;
    put_number(text, number)?;
    text.push(b'\n')?;
    Ok(())
}

/// Adds the line that tells a verdict. The error is want of memory.
pub fn put_verdict(text: &mut Vec<u8>, verdict: Verdict) -> Result<(), NoMemory>
    ensures { OnOk result (text.new.items ≡ text.old.items ++ verdict_line verdict) }
{
    match verdict {
        Verdict::Clean => {
            text.extend_from_slice(b"clean\n")?;
            Ok(())
        }
        Verdict::False(line) => put_numbered(text, b"false at line ", line),
        Verdict::Unreadable(line) => put_numbered(text, b"unreadable at line ", line),
    }
}

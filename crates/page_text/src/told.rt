//! The lines of a dump that tell calls and reads.
ghost use Rattle.std.specs.Prelude.{◌≡◌, drop};
ghost use Rattle.page_text.specs.Told.{begins_with, is_told, told_in, first_of};

use crate::first_lines::first_line;

/// Whether a text begins with a word.
fn begins_with(word: &[u8], text: &[u8]) -> bool
    ensures { result ≡ begins_with word.now text.now }
{
    match word {
        [] => true,
        [first, word @ ..] => match text {
            [] => false,
            [byte, text @ ..] => *first == *byte && begins_with(word, text),
        },
    }
}

/// Whether a line tells an event, a batch, a call of a batch or a read.
fn is_told(line: &[u8]) -> bool
    ensures { result ≡ is_told line.now }
{
    begins_with(b"event ", line)
        || begins_with(b"batch ", line)
        || begins_with(b"call ", line)
        || begins_with(b"read ", line)
}

/// The first line that tells calls or a read, and what stands after it. Both are empty where there is none.
pub fn first_told(text: &[u8]) -> (&[u8], &[u8])
    ensures line { result.0.now ≡ first_of (told_in text.now) }
    ensures rest { told_in result.1.now ≡ drop 1 (told_in text.now) }
{
    let mut rest = text;
    'lines: while let Some((line, more)) = first_line(rest) {
        if is_told(line) {
            return (line, more);
        }
        rest = more;
    }
    (&[], &[])
}

/// What stands after the first `count` such lines.
pub fn after_told(count: usize, text: &[u8]) -> &[u8]
    ensures { told_in result.now ≡ drop count (told_in text.now) }
{
    let mut rest = text;
    for _ in 0..count {
        rest = first_told(rest).1;
    }
    rest
}

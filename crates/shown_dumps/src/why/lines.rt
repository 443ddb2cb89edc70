//! The lines of a text.
ghost use Rattle.std.specs.Prelude.{◌≡◌};
ghost use Rattle.shown_dumps.specs.Lines.{before_end, after_end, after_lines};

use text_words::parted;

/// What stands before the first end of a line, and what after it.
pub fn first_line(text: &[u8]) -> (&[u8], &[u8])
    ensures line { result.0.now ≡ before_end text.now }
    ensures rest { result.1.now ≡ after_end text.now }
{
    let Some((line, rest)) = parted(text, b'\n') else {
        return (text, &[]);
    };
    (line, rest)
}

/// What stands after the first `count` lines.
pub fn after_lines(count: u64, text: &[u8]) -> &[u8]
    ensures { result.now ≡ after_lines count text.now }
{
    let mut rest = text;
    for _ in 0..count {
        rest = first_line(rest).1;
    }
    rest
}

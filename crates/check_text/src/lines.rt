//! The lines of a text, and the name that a line binds.
ghost use Rattle.std.specs.Prelude.{◌≡◌, option_map};
ghost use Rattle.check_text.specs.Lines.{before_byte, after_byte, after_lines, is_equals, binding, binding_line, binds};

use text_words::parted;

/// What stands before the first such byte, and what after it.
pub fn cut(text: &[u8], byte: u8) -> (&[u8], &[u8])
    ensures before { result.0.now ≡ before_byte byte text.now }
    ensures after { result.1.now ≡ after_byte byte text.now }
{
    let Some((before, after)) = parted(text, byte) else {
        return (text, &[]);
    };
    (before, after)
}

/// What stands after the first `count` lines.
pub fn after_lines(count: u32, text: &[u8]) -> &[u8]
    ensures { result.now ≡ after_lines count text.now }
{
    let mut rest = text;
    for _ in 0..count {
        rest = cut(rest, b'\n').1;
    }
    rest
}

/// Whether the text begins with an equals sign and a space.
fn is_equals(text: &[u8]) -> bool
    ensures { result ≡ is_equals text.now }
{
    match text {
        [first, second, ..] => *first == b'=' && *second == b' ',
        _ => false,
    }
}

/// The name that a line binds: what stands before a space, an equals sign and a space.
pub fn binding(line: &[u8]) -> Option<&[u8]>
    ensures { option_map (λ name. name.now) result ≡ binding line.now }
{
    let (name, after) = cut(line, b' ');
    if is_equals(after) { Some(name) } else { None }
}

/// Whether a line binds the name.
fn binds(name: &[u8], line: &[u8]) -> bool
    ensures { result ≡ binds name.now line.now }
{
    match binding(line) {
        Some(other) => other == name,
        None => false,
    }
}

/// The first of the first `count` lines that binds the name, from 1.
pub fn binding_line(count: u32, name: &[u8], text: &[u8]) -> Option<u32>
    ensures { result ≡ binding_line 1 count name.now text.now }
{
    let mut rest = text;
    for before in 0..count {
        let (line, more) = cut(rest, b'\n');
        if binds(name, line) {
            return Some(before + 1);
        }
        rest = more;
    }
    None
}

//! The words of a dialogue.
ghost use Rattle.std.specs.Prelude.{◌≡◌};
ghost use Rattle.std.specs.Str.{bytes_eq};
ghost use Rattle.try_text.specs.Words.{is_save, word_of, path_in};

use call_text::plain_scripts::is_silent;
use check_text::{binding, cut};

/// What a line of a dialogue is.
#[derive(Clone, Copy, PartialEq, Eq)]
pub enum Word {
    /// Nothing, a comment, or what parts two phases of a script.
    Nothing,
    /// It asks why the last call was answered so.
    Why,
    /// It asks for the objects.
    Tree,
    /// It takes the last call back.
    Undo,
    /// It asks for a text of help.
    Help,
    /// It ends the dialogue.
    Quit,
    /// It saves the dialogue.
    Save,
    /// A call.
    Call,
}

/// The path of a file to save to.
pub fn path_in(line: &[u8]) -> &[u8]
    ensures { result.now ≡ path_in line.now }
{
    cut(line, b' ').1
}

/// Whether the line saves: it begins with `save`, a path follows, and it binds no name.
fn is_save(line: &[u8]) -> bool
    ensures { result ≡ is_save line.now }
{
    is_word(cut(line, b' ').0, "save") && !path_in(line).is_empty() && binding(line).is_none()
}

/// Whether the line is this word.
fn is_word(line: &[u8], word: &str) -> bool
    ensures { result ≡ bytes_eq line.now word.now }
{
    line == word.as_bytes()
}

/// What a line of a dialogue is.
pub fn word_of(line: &[u8]) -> Word
    ensures { result ≡ word_of line.now }
{
    if is_silent(line) || is_word(line, "--") {
        return Word::Nothing;
    }
    if is_word(line, "why") {
        return Word::Why;
    }
    if is_word(line, "tree") {
        return Word::Tree;
    }
    if is_word(line, "undo") {
        return Word::Undo;
    }
    if is_word(line, "help") {
        return Word::Help;
    }
    if is_word(line, "quit") {
        return Word::Quit;
    }
    if is_save(line) {
        Word::Save
    } else {
        Word::Call
    }
}

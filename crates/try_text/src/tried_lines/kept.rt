//! Lines that were asked.
ghost use Rattle.std.specs.Prelude.{◌≡◌, slice_get};
ghost use Rattle.try_text.specs.Standing.{first_line};

use call_text::{Line, Script};
use text_words::Name;

/// A line that was asked.
#[derive(Drop)]
pub struct TriedLine {
    /// The name that it bound to what its call made.
    pub binds: Option<Name>,
    /// The line, as a script of its own.
    pub script: Script,
}

/// The first line of a script.
pub fn first_line(script: &Script) -> Option<Line<'_>>
    ensures { result ≡ first_line script.now }
{
    match script.phases.as_slice() {
        [] => None,
        [phase, ..] => phase.line(0),
    }
}

impl TriedLine {
    /// The line.
    pub fn line(&self) -> Option<Line<'_>>
        ensures { result ≡ first_line self.now.script }
    {
        first_line(&self.script)
    }
}

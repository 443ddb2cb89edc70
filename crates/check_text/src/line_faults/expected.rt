//! What may stand at a place of a line.
ghost use Rattle.std.specs.Prelude.{◌≡◌, ◌+◌, ◌<◌, ◌^◌, IfSome};
ghost use Rattle.check_text.specs.Faults.{further};

use text_words::spoken_calls::ArgKind;

/// What may stand at a place of a line.
#[derive(Clone, Copy, PartialEq, Eq)]
pub enum Expected {
    /// The first word: `--`, a worker with its colon, or a name that is to be bound.
    Beginning,
    /// The equals sign after a name.
    Equals,
    /// A worker with its colon, after an equals sign.
    Worker,
    /// The word of a call.
    Call {
        /// Whether a name is bound to what the call makes, so that it has to make something.
        binds: bool,
        /// Whether its batch goes on, so that it has to be a write call.
        more: bool,
    },
    /// An argument.
    Argument(ArgKind),
    /// The line's end.
    End,
}

/// Where a line stops being the beginning of a well-formed one.
#[derive(Clone, Copy, PartialEq, Eq)]
pub struct LineFault {
    /// How many bytes stand before that place: those of the words that are right, without the space after them.
    pub before: usize,
    /// What may stand there.
    pub expected: Expected,
}

/// The fault of what stands after so many bytes, as one of the whole.
pub(crate) fn further(found: Option<LineFault>, bytes: usize) -> Option<LineFault>
    requires { IfSome found (λ f. bytes + f.before < 2 ^ 64) }
    ensures { result ≡ further bytes found }
{
    match found {
        None => None,
        Some(fault) => Some(LineFault {
            before: bytes + fault.before,
            expected: fault.expected,
        }),
    }
}

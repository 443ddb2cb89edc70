//! Why a line is the first faulty one.
ghost use Rattle.std.specs.Prelude.{◌≡◌, ◌≤◌, IfOk};
ghost use Rattle.call_text.specs.Script.{is_bound, known_names};
ghost use Rattle.check_text.specs.Lines.{binding};
ghost use Rattle.check_text.specs.Reasons.{name_reason, numbered, reason_of, IsReason};

use crate::line_faults::{LineFault, fault_in};
use crate::lines::{after_lines, binding, binding_line, cut};
use call_text::plain_scripts::number_at;
use std::alloc::{AllocError, Global};
use text_words::is_same;

/// The most lines of a script.
pub const MOST_LINES: u32 = 65_536;

/// The most bytes that stand before a line's end.
const LONGEST: usize = 4096;

/// Why a line is the first faulty one.
#[derive(Clone, Copy, PartialEq, Eq)]
pub enum Reason {
    /// It isn't well formed.
    Malformed(LineFault),
    /// No LF ends it.
    NoEnd,
    /// It is too long.
    TooLong,
    /// It stands past the last line of a script.
    TooMany,
    /// It binds a name that is known at the start of each script.
    Reserved,
    /// It binds a name that this line binds, from 1.
    Rebinds(u32),
    /// It may not stand there for a batch: it is a read call in one, a 17th line of one, or the last line of its worker
    /// in the phase and says that its batch goes on.
    Batch,
}

impl Reason {
    /// The reason, by the numbers of the lines as they were written.
    pub fn numbered(self, numbers: &[u32]) -> Reason
        ensures { result ≡ numbered numbers.now self }
    {
        match self {
            Reason::Rebinds(line) => Reason::Rebinds(number_at(numbers, line)),
            reason => reason,
        }
    }
}

/// Whether a name is known at the start of each script.
fn is_reserved(name: &[u8]) -> bool
    ensures { result ≡ is_bound name.now known_names }
{
    is_same(name, b"root") || is_same(name, b"boot") || is_same(name, b"dev")
}

/// Why the name that a line binds, where it does, may not be bound after `count` lines.
fn name_reason(count: u32, line: &[u8], bytes: &[u8]) -> Option<Reason>
    ensures { result ≡ name_reason count bytes.now (binding line.now) }
{
    let name = binding(line)?;
    if is_reserved(name) {
        return Some(Reason::Reserved);
    }
    match binding_line(count, name, bytes) {
        Some(number) => Some(Reason::Rebinds(number)),
        None => None,
    }
}

/// Why line `count + 1` is the first faulty one, where it is and is well formed.
fn reason_of(count: u32, is_ended: bool, line: &[u8], bytes: &[u8]) -> Reason
    ensures { result ≡ reason_of count is_ended line.now bytes.now }
{
    if !is_ended {
        return Reason::NoEnd;
    }
    if line.len() > LONGEST {
        return Reason::TooLong;
    }
    if count >= MOST_LINES {
        return Reason::TooMany;
    }
    name_reason(count, line, bytes).unwrap_or(Reason::Batch)
}

/// Why line `number` of the bytes, from 1, is the first faulty one, where it is.
pub fn find_reason(alloc: Global, bytes: &[u8], number: u32) -> Result<Reason, AllocError>
    ensures { IfOk result (IsReason bytes.now number) }
{
    let count = number.saturating_sub(1);
    let rest = after_lines(count, bytes);
    let (line, _) = cut(rest, b'\n');
    match fault_in(alloc, line)? {
        Some(fault) => Ok(Reason::Malformed(fault)),
        None => Ok(reason_of(count, line.len() < rest.len(), line, bytes)),
    }
}

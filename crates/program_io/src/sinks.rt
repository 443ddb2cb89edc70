//! Writing a text whole, with a count of the writes that failed.
ghost use Rattle.std.specs.Prelude.{◌≡◌, ℕ, ◌<◌, ◌≤◌, List, Option, IfErr, IfSome, OnErr, IfNone, OnOk, length, take};
ghost use Rattle.std.specs.Io.{WritesAtMost};
ghost use Rattle.std.specs.Io.KnownBytes.{Appends, Keeps, WriteAppends};
ghost use Rattle.program_io.specs.Sinks.{counted, has_failed, HasRisen, HasRisenOrStays};

use crate::faults::Fault;
use std::io;
use std::io::{ErrorKind, Write};

/// Where texts go, a write at a time. It counts the writes that failed: those that ended with an error, and those that took
/// none of a text that isn't empty.
pub trait Sink {
    // The bytes that it has taken, where they are known.
    ghost contents: { Self → Option (List ℕ) };

    // How many writes failed.
    ghost failures: { Self → ℕ };

    /// Writes the beginning of a text, and answers how many of its bytes were taken.
    fn write(&mut self, text: &[u8]) -> io::Result<usize>
        ensures bound { WritesAtMost result text.now }
        ensures bytes { WriteAppends (contents self.old) (contents self.new) result text.now }
        ensures count { failures self.new ≡ counted (has_failed result text.now) (failures self.old) };

    /// Hands on what was taken.
    fn flush(&mut self) -> io::Result<()>
        ensures bytes { Keeps (contents self.old) (contents self.new) }
        ensures count { failures self.new ≡ failures self.old };

    /// How many writes failed, 2^64 - 1 where more did.
    fn failed_writes(&self) -> u64
        ensures { result ≡ failures self.now };
}

/// A writer as a sink.
#[derive(Drop)]
pub struct Counted<W: Write> {
    writer: W,
    failures: u64,
}

impl<W: Write> Counted<W> {
    /// A writer of which no write has failed.
    pub fn new(writer: W) -> Counted<W>
        ensures writer { result.writer ≡ writer }
        ensures failures { result.failures ≡ 0 }
    {
        Counted {
            writer,
            failures: 0,
        }
    }

    /// The writer.
    pub fn into_inner(self) -> W
        ensures { result ≡ self.writer }
    {
        self.writer
    }
}

/// Whether a write failed, that ended so.
fn is_failure(ended: &io::Result<usize>, text: &[u8]) -> bool
    ensures { result ≡ has_failed ended.now text.now }
{
    match ended {
        Ok(taken) => *taken == 0 && !text.is_empty(),
        Err(_) => true,
    }
}

impl<W: Write> Sink for Counted<W> {
    ghost contents = { λ s. W.contents s.writer };

    ghost failures = { λ s. s.failures };

    fn write(&mut self, text: &[u8]) -> io::Result<usize> {
        let ended = self.writer.write(text);
        if is_failure(&ended, text) {
            self.failures = self.failures.saturating_add(1);
        }
        ended
    }

    fn flush(&mut self) -> io::Result<()> {
        self.writer.flush()
    }

    fn failed_writes(&self) -> u64 {
        self.failures
    }
}

/// A text that was not written whole.
#[derive(Clone, Copy, PartialEq, Eq, Debug)]
pub struct PutFault {
    /// How many of its bytes were written, from its first on.
    pub written: usize,
}

/// How often an interrupted write is tried again, in a row.
const RETRIES: usize = 100;

/// Writes a beginning of a text, of at least one byte, and answers its length. None where the write fails.
fn put_some<S: Sink>(sink: &mut S, text: &[u8]) -> Option<usize>
    requires { 0 < length text.now }
    ensures some { IfSome result (λ taken. (0 < taken) × (taken ≤ length text.now)
        × Appends (S.contents sink.old) (S.contents sink.new) (take taken text.now)) }
    ensures none { IfNone result (Keeps (S.contents sink.old) (S.contents sink.new)) }
    ensures failed { IfNone result (HasRisen (S.failures sink.old) (S.failures sink.new)) }
    ensures count { HasRisenOrStays (S.failures sink.old) (S.failures sink.new) }
{
    for _ in 0..=RETRIES {
        match sink.write(text) {
            Ok(0) => return None,
            Ok(taken) => return Some(taken),
            Err(error) => {
                if error.kind() != ErrorKind::Interrupted {
                    return None;
                }
            }
        }
    }
    None
}

/// Writes a text whole. Where a write fails, what was written is a beginning of the text. An interrupted write is tried
/// again, at most 100 times in a row; it counts as one that failed, as the next one does then.
pub fn put<S: Sink>(sink: &mut S, text: &[u8]) -> Result<(), PutFault>
    ensures whole { OnOk result (Appends (S.contents sink.old) (S.contents sink.new) text.now) }
    ensures within { IfErr result (λ fault. fault.written < length text.now) }
    ensures beginning { IfErr result (λ fault.
        Appends (S.contents sink.old) (S.contents sink.new) (take fault.written text.now)) }
    ensures failed { OnErr result (HasRisen (S.failures sink.old) (S.failures sink.new)) }
{
    let mut written = 0;
    while written < text.len() {
        match put_some(sink, &text[written..]) {
            Some(taken) => written += taken,
            None => return Err(PutFault { written }),
        }
    }
    Ok(())
}

/// Writes a text whole, and hands it on.
pub fn deliver<S: Sink>(sink: &mut S, text: &[u8]) -> Result<(), Fault>
    ensures whole { OnOk result (Appends (S.contents sink.old) (S.contents sink.new) text.now) }
    ensures fault { IfErr result (λ fault. fault ≡ Fault.Output) }
{
    if put(sink, text).is_err() || sink.flush().is_err() {
        return Err(Fault::Output);
    }
    Ok(())
}

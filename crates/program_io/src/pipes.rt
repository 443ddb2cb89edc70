//! An output whose reader may go away: that is told by the status alone, as when `head` has its lines.
ghost use Rattle.std.specs.Prelude.{◌≡◌, None};

use std::cell::Cell;
use std::io;
use std::io::{ErrorKind, Write};

/// A writer that notes where whoever reads what it writes is gone.
#[derive(Drop)]
pub struct Piped<'a, W: Write> {
    writer: W,
    is_gone: &'a Cell<bool>,
}

impl<'a, W: Write> Piped<'a, W> {
    /// A writer that notes it in the cell.
    pub fn new(writer: W, is_gone: &'a Cell<bool>) -> Piped<'a, W>
        ensures { result.writer ≡ writer }
    {
        Piped { writer, is_gone }
    }

    /// Notes where an error says that the reader is gone.
    fn note(&self, kind: ErrorKind) {
        if kind == ErrorKind::BrokenPipe {
            self.is_gone.set(true);
        }
    }
}

impl<'a, W: Write> Write for Piped<'a, W> {
    ghost contents = { λ s. W.contents s.writer };

    fn write(&mut self, bytes: &[u8]) -> io::Result<usize> {
        let ended = self.writer.write(bytes);
        if let Err(error) = &ended {
            self.note(error.kind());
        }
        ended
    }

    fn flush(&mut self) -> io::Result<()> {
        let ended = self.writer.flush();
        if let Err(error) = &ended {
            self.note(error.kind());
        }
        ended
    }
}

/// A writer of faults, which drops them once whoever reads the output is gone.
#[derive(Drop)]
pub struct Hushed<'a, W: Write> {
    writer: W,
    is_gone: &'a Cell<bool>,
}

impl<'a, W: Write> Hushed<'a, W> {
    /// A writer that looks into the cell.
    pub fn new(writer: W, is_gone: &'a Cell<bool>) -> Hushed<'a, W>
        ensures { result.writer ≡ writer }
    {
        Hushed { writer, is_gone }
    }
}

impl<'a, W: Write> Write for Hushed<'a, W> {
    ghost contents = { λ _. None };

    fn write(&mut self, bytes: &[u8]) -> io::Result<usize> {
        if self.is_gone.get() {
            return Ok(bytes.len());
        }
        self.writer.write(bytes)
    }

    fn flush(&mut self) -> io::Result<()> {
        self.writer.flush()
    }
}

//! Streams that fail, or take their time.
use std::alloc::Global;
use std::io;
use std::io::{ErrorKind, Read, Write};

/// A reader that gives two bytes and then fails.
#[derive(Drop)]
pub struct Breaking {
    is_read: bool,
    kind: ErrorKind,
}

impl Breaking {
    /// One that fails by an error of this kind.
    pub fn by(kind: ErrorKind) -> Breaking {
        Breaking {
            is_read: false,
            kind,
        }
    }
}

impl Read for Breaking {
    fn read(&mut self, buf: &mut [u8]) -> io::Result<usize> {
        if self.is_read || buf.len() < 2 {
            return Err(io::Error::from(self.kind));
        }
        self.is_read = true;
        buf[0] = b'a';
        buf[1] = b'b';
        Ok(2)
    }
}

/// A writer that takes at most seven bytes a write.
#[derive(Drop)]
pub struct Portions {
    /// What it has taken.
    pub taken: Vec<u8>,
    /// How many writes there are before one fails.
    left: u32,
}

impl Portions {
    /// One that has taken nothing, and fails after so many writes.
    pub fn before_failing(alloc: Global, writes: u32) -> Portions {
        Portions {
            taken: Vec::new(alloc),
            left: writes,
        }
    }
}

impl Write for Portions {
    fn write(&mut self, bytes: &[u8]) -> io::Result<usize> {
        if self.left == 0 {
            return Err(io::Error::from(ErrorKind::Other));
        }
        self.left -= 1;
        self.taken.write(&bytes[..bytes.len().min(7)])
    }

    fn flush(&mut self) -> io::Result<()> {
        Ok(())
    }
}

/// A writer that hands on what it has taken only when it is told to.
#[derive(Drop)]
pub struct Holding {
    /// What it has taken and not handed on.
    held: Vec<u8>,
    /// What it has handed on.
    pub handed: Vec<u8>,
}

impl Holding {
    /// One that has taken nothing.
    pub fn nothing(alloc: Global) -> Holding {
        Holding {
            held: Vec::new(alloc),
            handed: Vec::new(alloc),
        }
    }
}

impl Write for Holding {
    fn write(&mut self, bytes: &[u8]) -> io::Result<usize> {
        self.held.write(bytes)
    }

    fn flush(&mut self) -> io::Result<()> {
        self.handed.write_all(self.held.as_slice())?;
        self.held.clear();
        Ok(())
    }
}

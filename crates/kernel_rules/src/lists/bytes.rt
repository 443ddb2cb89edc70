//! The bytes of a segment.
ghost use Rattle.std.specs.Prelude.{◌≡◌, ◌≤◌, ◌+◌, length, replicate, IfOk};
ghost use Rattle.kernel_rules.specs.Written.{written, resized};

use std::alloc::{AllocError, Global};
use std::marker::Model;

/// Bytes that are written in place.
#[derive(Drop)]
pub struct Bytes {
    bytes: Vec<u8>,
}

impl Model for Bytes {
    ghost use Rattle.std.specs.Prelude.{ℕ, List};

    ghost Value = { List ℕ };

    ghost view = { λ a. a.bytes.items };
}

impl Bytes {
    /// So many bytes of 0. The error is want of memory.
    pub fn zeroed(alloc: Global, count: usize) -> Result<Bytes, AllocError>
        ensures { IfOk result (λ bytes. bytes ≡ replicate count 0) }
    {
        Ok(Bytes {
            bytes: vec![in alloc; 0; count]?,
        })
    }

    /// These bytes. The error is want of memory.
    pub fn copied(alloc: Global, given: &[u8]) -> Result<Bytes, AllocError>
        ensures { IfOk result (λ bytes. bytes ≡ given.now) }
    {
        let mut bytes = Bytes::zeroed(alloc, given.len())?;
        bytes.write(0, given);
        Ok(bytes)
    }

    /// These bytes cut off or filled up with zeros to so many. The error is want of memory.
    pub fn resized(&self, alloc: Global, count: usize) -> Result<Bytes, AllocError>
        ensures { IfOk result (λ bytes. bytes ≡ resized count self.now) }
    {
        let old = self.as_slice();
        let kept = if old.len() < count { old.len() } else { count };
        let mut bytes = Bytes::zeroed(alloc, count)?;
        bytes.write(0, &old[..kept]);
        Ok(bytes)
    }

    /// The bytes.
    pub fn as_slice(&self) -> &[u8]
        ensures { result.now ≡ self.now }
    {
        self.bytes.as_slice()
    }

    /// Writes over as many bytes from `at` on.
    pub fn write(&mut self, at: usize, data: &[u8])
        requires { at + length data.now ≤ length self.old }
        ensures { self.new ≡ written at data.now self.old }
    {
        let bytes = self.bytes.as_mut_slice();
        bytes[at..at + data.len()].copy_from_slice(data);
    }
}

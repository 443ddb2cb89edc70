//! Up to 64 bytes, as calls and replies carry them.
ghost use Rattle.std.specs.Prelude.{◌≡◌, ◌≤◌, length};

use std::marker::Model;

/// 0 to 64 bytes, which take no memory. A contract sees the list of the bytes.
#[derive(Clone, Copy)]
pub struct Data {
    len: u8,
    bytes: [u8; 64],
}

impl Model for Data {
    ghost use Rattle.std.specs.Prelude.{◌≡◌, ◌≤◌, ℕ, List, length, take};
    ghost use Rattle.base.specs.Padded.{padded};

    ghost Value = { List ℕ };

    ghost view = { λ a. take a.len a.bytes };

    ghost invariant = { λ a. (a.len ≤ 64) × (length a.bytes ≡ 64)
        × (a.bytes ≡ padded 64 0 (take a.len a.bytes)) };

    ghost inverse = { λ bytes. record { len = length bytes; bytes = padded 64 0 bytes } };
}

impl Data {
    /// The most bytes that a `Data` holds.
    pub const MOST: usize = 64;

    /// The data of these bytes.
    pub fn from_slice(bytes: &[u8]) -> Data
        requires { length bytes.now ≤ 64 }
        ensures { result ≡ bytes.now }
    {
        let mut all = [0; 64];
        all[..bytes.len()].copy_from_slice(bytes);
        Data {
            len: bytes.len() as u8,
            bytes: all,
        }
    }

    /// The bytes.
    pub fn as_slice(&self) -> &[u8]
        ensures value { result.now ≡ self.now }
        ensures few { length self.now ≤ 64 }
    {
        &self.bytes[..self.len as usize]
    }
}

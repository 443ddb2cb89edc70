//! Names that lines of a script bind.
ghost use Rattle.std.specs.Prelude.{◌≡◌, ◌++◌, OnOk};
ghost use Rattle.std.specs.List.{list_all};
ghost use Rattle.text_words.specs.Reading.{Reads};
ghost use Rattle.text_words.specs.Name.{is_name, is_name_byte, is_letter, IsName, name_text};

use std::alloc::AllocError;
use std::hash::{Hash, Hasher};
use std::marker::Model;

/// A name: a letter a to z, and then up to 15 of a to z, 0 to 9 and `_`. It takes no memory. A contract sees the list of
/// its bytes.
#[derive(Clone, Copy, PartialEq, Eq)]
pub struct Name {
    len: u8,
    bytes: [u8; 16],
}

impl Model for Name {
    ghost use Rattle.std.specs.Prelude.{◌≡◌, ◌≤◌, ℕ, List, length, take};
    ghost use Rattle.base.specs.Padded.{padded};
    ghost use Rattle.text_words.specs.Name.{IsName};

    ghost Value = { List ℕ };

    ghost view = { λ a. take a.len a.bytes };

    ghost invariant = { λ a. (a.len ≤ 16) × (length a.bytes ≡ 16)
        × (a.bytes ≡ padded 16 0 (take a.len a.bytes))
        × IsName (take a.len a.bytes) };

    ghost inverse = { λ bytes. record { len = length bytes; bytes = padded 16 0 bytes } };
}

impl Hash for Name {
    ghost use Rattle.std.specs.Prelude.{ℕ, List, [], ◌∷◌};
    ghost use Rattle.std.specs.Cmp.{second_so};
    ghost use Rattle.std.specs.Cmp.Lexicographic.{bytes_decides};
    ghost use Rattle.std.proofs.Common.{ap};
    ghost use Rattle.base.specs.Padded.{padded};

    ghost hash_input = { λ name. padded 16 0 name ∷ [] };

    ghost respects_eq = { λ a b same. ap (λ (bytes : List ℕ). bytes ∷ [])
        ((bytes_decides (padded 16 0 a) (padded 16 0 b)).0 (second_so _ _ same)) };

    // (one write of all bytes: a hasher takes bytes one by one much more slowly)
    fn hash<H: Hasher>(&self, state: &mut H) {
        state.write(&self.bytes);
    }
}

impl Name {
    /// The name with these bytes.
    pub fn from_slice(bytes: &[u8]) -> Name
        requires { IsName bytes.now }
        ensures { result ≡ bytes.now }
    {
        let mut all = [0; 16];
        all[..bytes.len()].copy_from_slice(bytes);
        Name {
            len: bytes.len() as u8,
            bytes: all,
        }
    }

    /// Its bytes.
    pub fn as_slice(&self) -> &[u8]
        ensures value { result.now ≡ self.now }
        ensures name { IsName self.now }
    {
        &self.bytes[..self.len as usize]
    }
}

fn is_letter(byte: u8) -> bool
    ensures { result ≡ is_letter byte }
{
    b'a' <= byte && byte <= b'z'
}

fn is_name_byte(byte: u8) -> bool
    ensures { result ≡ is_name_byte byte }
{
    is_letter(byte) || (b'0' <= byte && byte <= b'9') || byte == b'_'
}

/// Whether each byte may stand in a name.
fn are_name_bytes(bytes: &[u8]) -> bool
    ensures { result ≡ list_all is_name_byte bytes.now }
{
    bytes.iter().all(|byte| is_name_byte(*byte))
}

/// Whether the word is a name.
fn is_name(word: &[u8]) -> bool
    ensures { result ≡ is_name word.now }
{
    let [first, rest @ ..] = word else {
        return false;
    };
    is_letter(*first) && rest.len() <= 15 && are_name_bytes(rest)
}

/// The name that the word is.
pub fn read_name(word: &[u8]) -> Option<Name>
    ensures { Reads name_text IsName word.now result }
{
    if !is_name(word) {
        return None;
    }
    Some(Name::from_slice(word))
}

/// Adds the name.
pub fn put_name(out: &mut Vec<u8>, name: &Name) -> Result<(), AllocError>
    ensures { OnOk result (out.new.items ≡ out.old.items ++ name_text name.now) }
{
    out.extend_from_slice(name.as_slice())
}

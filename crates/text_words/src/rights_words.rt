//! Rights: `-`, `r`, `w` or `rw`.
ghost use Rattle.std.specs.Prelude.{◌≡◌, ◌++◌, OnOk};
ghost use Rattle.text_words.specs.Reading.{Reads};
ghost use Rattle.text_words.specs.RightsWord.{rights_text};

use base::Rights;
use std::alloc::AllocError;

/// The rights that the word spells.
pub fn read_rights(word: &[u8]) -> Option<Rights>
    ensures { Reads rights_text (λ _. Unit) word.now result }
{
    let (read, write) = match word {
        [b'-'] => (false, false),
        [b'r'] => (true, false),
        [b'w'] => (false, true),
        [b'r', b'w'] => (true, true),
        _ => return None,
    };
    Some(Rights { read, write })
}

/// Adds the spelling of the rights.
pub fn put_rights(out: &mut Vec<u8>, rights: Rights) -> Result<(), AllocError>
    ensures { OnOk result (out.new.items ≡ out.old.items ++ rights_text rights) }
{
    let text = match (rights.read, rights.write) {
        (true, true) => "rw",
        (true, false) => "r",
        (false, true) => "w",
        (false, false) => "-",
    };
    out.extend_from_slice(text.as_bytes())
}

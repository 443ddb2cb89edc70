//! JSON in a page.
ghost use Rattle.std.specs.Prelude.{◌≡◌, true, ℕ, List, IfOk};
ghost use Rattle.page_text.specs.Page.{escaped};
ghost use Rattle.text_words.specs.Lacks.{lacks};

use base::NoMemory;
use std::alloc::Global;

/// A law, which does nothing when it is called: no `<` stands in the data of a page, so nothing in it ends its place there.
pub fn data_stays_in_place()
    ensures { (text : List ℕ) → lacks 60 (escaped text) ≡ true }
{}

/// JSON with each `<` written by its number. Want of memory is the only error.
pub fn escaped(alloc: Global, text: &[u8]) -> Result<Vec<u8>, NoMemory>
    ensures { IfOk result (λ told. told.items ≡ escaped text.now) }
{
    let mut told = Vec::new(alloc);
    for byte in text {
        if *byte == b'<' {
            told.extend_from_slice(b"\\u003c")?;
        } else {
            told.push(*byte)?;
        }
    }
    Ok(told)
}

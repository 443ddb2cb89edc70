//! A text up to a byte, and after it.
ghost use Rattle.std.specs.Prelude.{◌≡◌, ◌<◌, ◌++◌, ◌∷◌, true, length, IfSome, IfNone};
ghost use Rattle.text_words.specs.Lacks.{lacks};

use memchr::memchr;

/// What stands before the first such byte, and what after it.
pub fn parted(text: &[u8], byte: u8) -> Option<(&[u8], &[u8])>
    ensures parts { IfSome result (λ r. text.now ≡ r.0.now ++ byte ∷ r.1.now) }
    ensures first { IfSome result (λ r. lacks byte r.0.now ≡ true) }
    ensures shorter { IfSome result (λ r. length r.1.now < length text.now) }
    ensures none { IfNone result (lacks byte text.now ≡ true) }
{
    let Some(end) = memchr(byte, text) else {
        return None;
    };
    Some((&text[..end], &text[end + 1..]))
}

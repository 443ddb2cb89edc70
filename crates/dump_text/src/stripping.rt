//! A text after its beginning.
ghost use Rattle.std.specs.Prelude.{◌≡◌, ◌++◌, ℕ, List, IfSome, IfNone};

use text_words::is_same;

/// What stands after the beginning, where the text has it.
pub fn after<'a>(text: &'a [u8], beginning: &[u8]) -> Option<&'a [u8]>
    ensures some { IfSome result (λ rest. text.now ≡ beginning.now ++ rest.now) }
    ensures none { IfNone result ((rest : List ℕ) → text.now ≡ beginning.now ++ rest → ⊥) }
{
    let len = beginning.len();
    if text.len() < len {
        return None;
    }
    if !is_same(&text[..len], beginning) {
        return None;
    }
    Some(&text[len..])
}

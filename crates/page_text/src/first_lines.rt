//! The first line of a text.
ghost use Rattle.std.specs.Prelude.{◌≡◌, ◌∷◌, ◌<◌, [], length, IfSome, IfNone};
ghost use Rattle.shown_dumps.specs.Pieces.{lines_of};

use text_words::parted;

/// The first line of a text, without its end, and what stands after it.
pub fn first_line(text: &[u8]) -> Option<(&[u8], &[u8])>
    ensures some { IfSome result (λ parts. lines_of text.now ≡ parts.0.now ∷ lines_of parts.1.now) }
    ensures shorter { IfSome result (λ parts. length parts.1.now < length text.now) }
    ensures none { IfNone result (lines_of text.now ≡ []) }
{
    let Some((line, rest)) = parted(text, b'\n') else {
        return None;
    };
    Some((line, rest))
}

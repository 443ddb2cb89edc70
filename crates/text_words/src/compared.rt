//! Comparing words.
ghost use Rattle.std.specs.Prelude.{◌≡◌, IsTrue, ◌↔◌};

/// Whether two words are one.
pub fn is_same(one: &[u8], other: &[u8]) -> bool
    ensures { IsTrue result ↔ (one.now ≡ other.now) }
{
    one == other
}

//! Half a byte for how two labels compare each way.
//!
//! That is enough. Where A is at most B, or is with the star of both raised, it is with B's star raised too. And where
//! each is at most the other with the other's star raised, A is at most B exactly where B is at most A with the star of
//! both raised.
ghost use Rattle.std.specs.Prelude.{◌≡◌, ◌≢◌, ℕ, ◌<◌, ◌+◌, ◌*◌, ◌%◌};
ghost use Rattle.label_intern.specs.Ways.{half_of, told_by, AreWays};

/// What half a byte tells: the order bits of the one label against the other, and eight times those back. Of the bits of
/// the half byte, 2 and 8 say which of the two have 2, and 1 and 4 are those of the first that has it.
static WAYS: [u8; 16] = [
    0, 0, 2, 3, 0, 0, 6, 7, //
    16, 24, 18, 51, 48, 56, 30, 63,
];

/// The half of a byte that a place has.
#[inline(always)]
pub fn half_of(byte: u8, place: usize) -> u8
    ensures half { result ≡ half_of byte place }
    ensures few { result < 16 }
{
    if place % 2 == 0 { byte % 16 } else { byte / 16 }
}

/// A byte with another half at a place.
pub fn with_half(byte: u8, place: usize, half: u8) -> u8
    requires { half < 16 }
    ensures here { half_of result place ≡ half }
    ensures other { (p : ℕ) → p % 2 ≢ place % 2 → half_of result p ≡ half_of byte p }
{
    if place % 2 == 0 {
        byte / 16 * 16 + half
    } else {
        half * 16 + byte % 16
    }
}

/// The order bits that half a byte tells, and eight times those back.
#[inline(always)]
pub fn told_by(half: u8) -> u8
    requires { half < 16 }
    ensures { result ≡ told_by half }
{
    WAYS[usize::from(half)]
}

/// The half byte that tells the order bits of two labels, each way.
pub fn half_for(forth: u8, back: u8) -> u8
    requires { AreWays forth back }
    ensures few { result < 16 }
    ensures told { told_by result ≡ forth + 8 * back }
{
    if back == 0 {
        forth
    } else if forth == 0 {
        back + 6
    } else {
        forth + 8
    }
}

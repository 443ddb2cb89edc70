//! The refusal of a row of conditions.
//!
//! Most calls are refused by nothing. So a row's refusal is inlined into the row, where the compiler knows how many conditions
//! there are. The comparison of two refusals is out of line (`cold`).
ghost use Rattle.std.specs.Prelude.{◌≡◌};
ghost use Rattle.kernel_rules.specs.Rows.{lesser_of, least_of, refusal_of};

use base::Refusal;

// (Most calls are refused by nothing, so what compares two refusals is kept out of the walk over a row, which then comes
// without a loop where the row is written out.)
#[cold]
#[inline(never)]
fn lesser_of(refusal: Refusal, other: Option<Refusal>) -> Refusal
    ensures { result ≡ lesser_of refusal other }
{
    match other {
        None => refusal,
        Some(later) => refusal.lesser(later),
    }
}

/// Of two refusals that may not be there, the one with the smaller number.
#[cold]
#[inline(never)]
pub fn least_of(first: Option<Refusal>, second: Option<Refusal>) -> Option<Refusal>
    ensures { result ≡ least_of first second }
{
    match first {
        None => second,
        Some(refusal) => Some(lesser_of(refusal, second)),
    }
}

/// Of a refusal that may not be there and of the conditions that hold, the one with the least number.
#[inline(always)]
pub fn least_with(found: Option<Refusal>, row: &[(Refusal, bool)]) -> Option<Refusal>
    ensures { result ≡ least_of found (refusal_of row.now) }
{
    let mut least = found;
    for condition in row {
        if condition.1 {
            least = least_of(least, Some(condition.0));
        }
    }
    least
}

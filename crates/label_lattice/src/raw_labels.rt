//! Labels as callers hand them in.
ghost use Rattle.std.specs.Prelude.{◌≡◌, ◌≤◌, ◌<◌, ◌↔◌, ◌⊎◌, ◌&&◌, IsTrue, All, Any};
ghost use Rattle.std.specs.Prelude.{length, nat_lt};
ghost use Rattle.std.specs.List.{list_all};
ghost use Rattle.base.specs.declared.levels.Level.TheVariants.{Star};
ghost use Rattle.label_lattice.specs.Raw.{raw_has_star, all_made};

use crate::exceptions::has_star_in;
use crate::pairings::{Pair, Pairs};
use base::{Category, Level};

/// A label as a caller hands it in: a default, and 0 to 24 pairs in any order. Not each can be
/// stored: `Label::from_raw` and `Label::from_raw_below` tell which.
#[derive(Clone, Copy)]
pub struct RawLabel {
    /// The level of each category that stands in no pair.
    pub default: Level,
    /// Categories with their levels, in any order: 0 to 24 of them.
    pub pairs: Pairs<24>,
}

impl RawLabel {
    /// The raw label of this default and of these pairs, in their order: 0 to 24 of them.
    pub fn new(default: Level, pairs: &[Pair]) -> RawLabel
        requires { length pairs.now ≤ 24 }
        ensures { result ≡ record { default = default; pairs = pairs.now } }
    {
        let mut kept = Pairs::new();
        kept.extend(pairs);
        RawLabel {
            default,
            pairs: kept,
        }
    }

    /// Whether the default or a pair has star, which no container's, segment's or address space's
    /// label may have (HiStar, OSDI 2006). It reads no stored label, so it counts no scan.
    pub fn has_star(&self) -> bool
        ensures star { IsTrue result ↔
            ((self.now.default ≡ Star) ⊎ Any (λ p. p.level ≡ Star) self.now.pairs) }
        ensures test { result ≡ raw_has_star self.now }
    {
        self.default.rank() == 0 || has_star_in(self.pairs.levels())
    }

    /// Whether each category was made: it is from 1 and below the next category that a counter
    /// gives, 1 to 2^61 (this profile's rule). It reads no stored label, so it counts no scan.
    pub fn all_made(&self, next_category: u64) -> bool
        ensures made { IsTrue result ↔
            All (λ p. (1 ≤ p.category.0) × (p.category.0 < next_category)) self.now.pairs }
        ensures test { result ≡ all_made next_category self.now.pairs }
    {
        all_made_in(self.pairs.categories(), next_category)
    }
}

/// Whether each category of the list is from 1 and below a number.
fn all_made_in(categories: &[Category], next_category: u64) -> bool
    ensures { result ≡ list_all (λ c. nat_lt 0 c.0 && nat_lt c.0 next_category) categories.now }
{
    categories
        .iter()
        .all(|category| 0 < category.0 && category.0 < next_category)
}

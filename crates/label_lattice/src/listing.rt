//! How labels are listed: the order of a list of labels, and the bits by which two of them compare.
ghost use Rattle.std.specs.Prelude.{◌≡◌};
ghost use Rattle.std.specs.Cmp.Lexicographic.{slice_cmp};
ghost use Rattle.base.specs.Counts.{scanned};
ghost use Rattle.label_lattice.specs.Bits.{bits_of};
ghost use Rattle.label_lattice.specs.Listing.{pair_cmp};

use crate::labels::Label;
use crate::pairings::{Pair, Pairs};
use crate::ways::BothWays;
use base::Meter;
use std::cmp::Ordering;

/// Pairs by their categories, and then by their levels.
fn compare_pair(one: &Pair, other: &Pair) -> Ordering
    ensures { result ≡ pair_cmp one.now other.now }
{
    let categories = one.category.0.cmp(&other.category.0);
    let levels = one.level.rank().cmp(&other.level.rank());
    categories.then(levels)
}

/// Lists of pairs place by place, a list before those that it begins.
pub fn compare_pairs(one: &Pairs<16>, other: &Pairs<16>) -> Ordering
    ensures { result ≡ slice_cmp pair_cmp one.now other.now }
{
    for place in 0..one.len().min(other.len()) {
        let order = compare_pair(&one.pair_at(place), &other.pair_at(place));
        if order != Ordering::Equal {
            return order;
        }
    }
    one.len().cmp(&other.len())
}

impl Label {
    /// How the label A compares with another B, as a sum of bits, 0 to 7: 1 where A is at most B at
    /// each category, 2 where it is once B's star is raised above all levels, 4 where it is once the
    /// star of both is raised (this profile's numbers). It adds three scans.
    pub fn order_bits(&self, other: &Label, meter: &mut Meter) -> u8
        ensures scans { meter.new ≡ scanned 3 meter.old }
        ensures bits { result ≡ bits_of self.now other.now }
    {
        meter.scan();
        meter.scan();
        meter.scan();
        self.compare(other).forth
    }

    /// How two labels compare each way, by the bits of `order_bits`: at `forth` this label against
    /// the other, at `back` the other against this one. It adds six scans, as two calls of that.
    pub fn order_bits_both_ways(&self, other: &Label, meter: &mut Meter) -> BothWays
        ensures scans { meter.new ≡ scanned 6 meter.old }
        ensures forth { result.forth ≡ bits_of self.now other.now }
        ensures back { result.back ≡ bits_of other.now self.now }
    {
        meter.scan();
        meter.scan();
        meter.scan();
        meter.scan();
        meter.scan();
        meter.scan();
        Label::compare(self, other)
    }
}

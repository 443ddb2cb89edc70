//! Stored labels: how they are made, read and changed.
ghost use Rattle.std.specs.Prelude.{◌≡◌, ℕ, ◌<◌, ◌^◌, ◌↔◌, ◌==◌, nat_le, if◌then◌else◌};
ghost use Rattle.std.specs.Prelude.{IsTrue, IsNone, IfSome, IfOk, length};
ghost use Rattle.std.specs.declared.cmp.Ordering.TheVariants.{Equal};
ghost use Rattle.base.specs.Counts.{scanned};
ghost use Rattle.base.specs.declared.levels.Level.TheVariants.{Star};
ghost use Rattle.base.specs.declared.refusals.Refusal.TheVariants.{BadLabel};
ghost use Rattle.label_lattice.specs.declared.pairings.Pair.{Pair};
ghost use Rattle.label_lattice.specs.Label.{level, level as level_of, has_star, IsStored};
ghost use Rattle.label_lattice.specs.Levels.{level_at};
ghost use Rattle.label_lattice.specs.Listing.{label_cmp};
ghost use Rattle.label_lattice.specs.Placed.{with_level};
ghost use Rattle.label_lattice.specs.Raw.{is_bad, is_bad_below, stored_of, raw_of};
ghost use Rattle.label_lattice.specs.Rule.{rule_test};
ghost use Rattle.label_lattice.specs.Bits.{bits_of};
ghost use Rattle.label_lattice.specs.Walk.{HoldsEverywhere};
ghost use Rattle.label_lattice.specs.Ways.{both_test};
ghost use Rattle.std.specs.Int.{bit_at};

use crate::exceptions::{collect, has_star_in, level_of, place};
use crate::listing::compare_pairs;
use crate::pairings::{Pair, Pairs};
use crate::planes::Planes;
use crate::raw_labels::RawLabel;
use crate::walk::{Rule, compare_everywhere, holds_everywhere};
use crate::ways::{BothWays, compare_levels};
use base::{Category, Level, Meter, Refusal};
use std::cmp::Ordering;
use std::marker::Model;

/// A label that can be stored: a default of 0 to 3, and 0 to 16 exceptions by rising category, none
/// at the default's level. So labels of equal levels are equal. A contract sees the default and the
/// list of the exceptions.
#[derive(Clone, Copy)]
pub struct Label {
    exceptions: Pairs<16>,
    default: Level,
    // Of the block that all exceptions lie in, where there is one.
    planes: Option<Planes>,
}

impl Model for Label {
    ghost use Rattle.std.specs.Prelude.{◌≡◌};
    ghost use Rattle.label_lattice.specs.Label.{LabelValue, IsStored};
    ghost use Rattle.label_lattice.specs.Planes.{planes_of};

    ghost Value = { LabelValue };

    ghost view = { λ l. record { default_level = l.default; exceptions = l.exceptions } };

    ghost invariant = { λ l.
        IsStored (record { default_level = l.default; exceptions = l.exceptions })
        × (planes_of l.default l.exceptions ≡ l.planes) };

    ghost inverse = { λ v. record {
      default = v.default_level;
      exceptions = v.exceptions;
      planes = planes_of v.default_level v.exceptions;
    } };
}

impl Label {
    /// The label that a raw label says, where that is good: its default is 0 to 3, no category
    /// stands in it twice, and at most 16 pairs differ from the default (this profile's rule).
    /// Otherwise the refusal is `BadLabel`. It adds one scan.
    pub fn from_raw(raw: &RawLabel, meter: &mut Meter) -> Result<Label, Refusal>
        ensures scan { meter.new ≡ scanned 1 meter.old }
        ensures value { result ≡ (if is_bad raw.now then Err BadLabel else Ok (stored_of raw.now)) }
        ensures stored { IfOk result IsStored }
        ensures levels { IfOk result
            (λ l. (c : ℕ) → level_of l c ≡ level_at raw.now.default raw.now.pairs c) }
    {
        match Label::if_good(raw, meter) {
            Some(label) => Ok(label),
            None => Err(Refusal::BadLabel),
        }
    }

    /// The label that a raw label says, where that is good, as `from_raw` has it, and `None` where
    /// that refuses it. It adds one scan.
    pub fn if_good(raw: &RawLabel, meter: &mut Meter) -> Option<Label>
        ensures scan { meter.new ≡ scanned 1 meter.old }
        ensures value { result ≡ (if is_bad raw.now then None else Some (stored_of raw.now)) }
        ensures stored { IfSome result IsStored }
        ensures levels { IfSome result
            (λ l. (c : ℕ) → level_of l c ≡ level_at raw.now.default raw.now.pairs c) }
    {
        meter.scan();
        if raw.default.rank() == 0 {
            return None;
        }
        let mut exceptions = Pairs::new();
        if !collect(&mut exceptions, raw.default, &raw.pairs) {
            return None;
        }
        Some(Label {
            exceptions,
            default: raw.default,
            planes: Planes::of(raw.default, &exceptions),
        })
    }

    /// The label that a raw label says, where that is good and names only categories from 1 and
    /// below the next category that a counter gives, 1 to 2^61 (this profile's rule). Otherwise the
    /// refusal is `BadLabel`. It adds one scan.
    pub fn from_raw_below(
        raw: &RawLabel,
        next_category: u64,
        meter: &mut Meter,
    ) -> Result<Label, Refusal>
        ensures scan { meter.new ≡ scanned 1 meter.old }
        ensures value { result ≡
            (if is_bad_below next_category raw.now then Err BadLabel else Ok (stored_of raw.now)) }
        ensures stored { IfOk result IsStored }
        ensures levels { IfOk result
            (λ l. (c : ℕ) → level_of l c ≡ level_at raw.now.default raw.now.pairs c) }
    {
        if !raw.all_made(next_category) {
            meter.scan();
            return Err(Refusal::BadLabel);
        }
        Label::from_raw(raw, meter)
    }

    /// The label as its holder would hand it in: the same default, and the exceptions by rising
    /// category. It is good, and is stored as this label. It adds one scan.
    pub fn to_raw(&self, meter: &mut Meter) -> RawLabel
        ensures scan { meter.new ≡ scanned 1 meter.old }
        ensures raw { result ≡ raw_of self.now }
        ensures stored { IsStored self.now }
    {
        meter.scan();
        let mut pairs = Pairs::new();
        pairs.append(&self.exceptions);
        RawLabel {
            default: self.default,
            pairs,
        }
    }

    /// The level of a category, be it an exception or not (HiStar, OSDI 2006). It adds one scan.
    pub fn level(&self, category: Category, meter: &mut Meter) -> Level
        ensures scan { meter.new ≡ scanned 1 meter.old }
        ensures level { result ≡ level self.now category.0 }
    {
        meter.scan();
        level_of(self.default, &self.exceptions, category)
    }

    /// Whether a category has star, which is ownership (HiStar, OSDI 2006). It adds one scan.
    pub fn has_star(&self, meter: &mut Meter) -> bool
        ensures scan { meter.new ≡ scanned 1 meter.old }
        ensures star { IsTrue result ↔ ((c : ℕ) × (level self.now c ≡ Star)) }
        ensures test { result ≡ has_star self.now }
    {
        meter.scan();
        has_star_in(self.exceptions.levels())
    }

    /// Whether the labels are equal, which they are where each category has the same level in both
    /// (HiStar, OSDI 2006). It adds one scan.
    pub fn same(&self, other: &Label, meter: &mut Meter) -> bool
        ensures scan { meter.new ≡ scanned 1 meter.old }
        ensures equal { IsTrue result ↔ (self.now ≡ other.now) }
        ensures everywhere { IsTrue result ↔ ((c : ℕ) → level self.now c ≡ level other.now c) }
    {
        let (_, _) = (&self.default, &other.default);
        meter.scan();
        Label::holds(Rule::Same, self, other, other)
    }

    /// Where the label stands in a list of labels before or after another: by the defaults, and then
    /// by the lists of exceptions, place by place, a list before those that it begins (this profile's
    /// order). It adds one scan.
    pub fn listing_cmp(&self, other: &Label, meter: &mut Meter) -> Ordering
        ensures scan { meter.new ≡ scanned 1 meter.old }
        ensures order { result ≡ label_cmp self.now other.now }
        ensures equal { (result ≡ Equal) ↔ (self.now ≡ other.now) }
    {
        meter.scan();
        let defaults = self.default.rank().cmp(&other.default.rank());
        let exceptions = compare_pairs(&self.exceptions, &other.exceptions);
        defaults.then(exceptions)
    }

    /// The label with one category at another level, and `None` exactly where that would have 17
    /// exceptions (this profile's limit). The label itself stays as it is. It adds one scan.
    pub fn with(&self, category: Category, level: Level, meter: &mut Meter) -> Option<Label>
        ensures scan { meter.new ≡ scanned 1 meter.old }
        ensures value { let pair : Pair = record { category = category; level = level } in
            let new = with_level self.now pair in
            result ≡ (if nat_le (length new.exceptions) 16 then Some new else None) }
        ensures full { let pair : Pair = record { category = category; level = level } in
            let new = with_level self.now pair in
            IsNone result ↔ (length new.exceptions ≡ 17) }
        ensures stored { IfSome result IsStored }
        ensures levels { IfSome result (λ l. (c : ℕ) →
            level_of l c ≡ (if c == category.0 then level else level_of self.now c)) }
    {
        // For the proof alone: what the type says of the value is known once it is read.
        let _ = &self.default;
        meter.scan();
        self.placed(Pair { category, level })
    }

    /// The label with a category at a level, where it has room.
    fn placed(&self, pair: Pair) -> Option<Label>
        ensures { let new = with_level self.now pair in
            result ≡ (if nat_le (length new.exceptions) 16 then Some new else None) }
    {
        let mut exceptions = self.exceptions;
        if !place(&mut exceptions, self.default, pair) {
            return None;
        }
        Some(Label {
            default: self.default,
            exceptions,
            planes: Planes::of(self.default, &exceptions),
        })
    }

    /// How the labels compare, each way, as one sum: the bits forth, and eight times those back. Where
    /// neither has an exception, the defaults tell; where those of each lie in one block, planes; and
    /// else a walk over both lists.
    fn held(&self, other: &Label) -> u8
        ensures few { result < 2 ^ 6 }
        ensures bits { (k : ℕ) → IsTrue (bit_at result k == 1) ↔
            HoldsEverywhere (both_test k) self.now.default_level self.now.exceptions
            other.now.default_level other.now.exceptions
            other.now.default_level other.now.exceptions }
    {
        if self.exceptions.len() == 0 && other.exceptions.len() == 0 {
            return compare_levels(self.default, other.default);
        }
        let (Some(planes), Some(other_planes)) = (&self.planes, &other.planes) else {
            return compare_everywhere(
                self.default,
                &self.exceptions,
                other.default,
                &other.exceptions,
            );
        };
        let held = compare_levels(self.default, other.default);
        if planes.block == other_planes.block {
            return held & planes.compare(other_planes);
        }
        held & planes.compare_to(other.default) & other_planes.compare_level(u64::MAX, self.default)
    }

    /// How the labels compare, each way.
    pub(crate) fn compare(&self, other: &Label) -> BothWays
        ensures forth { result.forth ≡ bits_of self.now other.now }
        ensures back { result.back ≡ bits_of other.now self.now }
    {
        let held = self.held(other);
        BothWays {
            forth: held % 8,
            back: held / 8,
        }
    }

    /// Whether a rule holds of three labels at each category.
    pub(crate) fn holds(rule: Rule, a: &Label, b: &Label, c: &Label) -> bool
        ensures { IsTrue result ↔
            ((k : ℕ) → IsTrue (rule_test rule (level a.now k) (level b.now k) (level c.now k))) }
    {
        holds_everywhere(
            rule,
            a.default,
            &a.exceptions,
            b.default,
            &b.exceptions,
            c.default,
            &c.exceptions,
        )
    }
}

//! Labels as they are stored.
ghost use Rattle.std.specs.Prelude.{◌≡◌, IfSome};
ghost use Rattle.base.specs.Counts.{ScansAtMost};
ghost use Rattle.label_lattice.specs.Label.{IsStored};
ghost use Rattle.label_lattice.specs.LabelRules.{stored, with_category};

use crate::{Label, RawLabel};
use base::{Category, Level, Meter};

/// The stored label of a raw label, where it has one.
#[tactic(auto, unfolding(crate::specs::LabelRules::stored))]
#[inline(always)]
pub fn stored_of(raw: &RawLabel, meter: &mut Meter) -> Option<Label>
    ensures stored { result ≡ stored raw.now }
    ensures fit { IfSome result IsStored }
    ensures scans { ScansAtMost 1 meter.old meter.new }
{
    Label::if_good(raw, meter)
}

/// The label with a category at a level, where it has room for it.
#[tactic(auto, unfolding(crate::specs::LabelRules::with_category))]
pub fn with_category(
    label: &Label,
    category: Category,
    level: Level,
    meter: &mut Meter,
) -> Option<Label>
    ensures value { result ≡ with_category label.now category level }
    ensures fit { IfSome result IsStored }
    ensures scans { ScansAtMost 1 meter.old meter.new }
{
    label.with(category, level, meter)
}

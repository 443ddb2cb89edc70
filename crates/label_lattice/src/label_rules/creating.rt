//! The labels and clearances that a thread may give to what it makes, and to itself.
ghost use Rattle.std.specs.Prelude.{◌≡◌, option_copied};
ghost use Rattle.base.specs.Counts.{ScansAtMost};
ghost use Rattle.label_lattice.specs.LabelRules.{between, may_clear};

use crate::Label;
use crate::label_rules::orders::{is_below, is_below_join_up};
use base::Meter;

/// Whether a label is at least one and at most another. So is the label of a new object, or a
/// thread's new label, between the thread's label and clearance, and the clearance of a new thread
/// or gate between its label and the maker's clearance (HiStar, OSDI 2006).
pub fn is_between(
    low: Option<&Label>,
    label: Option<&Label>,
    high: Option<&Label>,
    meter: &mut Meter,
) -> bool
    ensures value { result ≡ between
        (option_copied low.entry) (option_copied label.entry) (option_copied high.entry) }
    ensures scans { ScansAtMost 2 meter.old meter.new }
{
    is_below(low, label, meter) && is_below(label, high, meter)
}

/// Whether a thread of this label and clearance may have the asked clearance: it is at least the
/// label, and at most the maximum of the clearance and the label with star raised (HiStar, OSDI
/// 2006).
pub fn may_clear(
    own: Option<&Label>,
    clearance: Option<&Label>,
    asked: Option<&Label>,
    meter: &mut Meter,
) -> bool
    ensures value { result ≡ may_clear
        (option_copied own.entry) (option_copied clearance.entry) (option_copied asked.entry) }
    ensures scans { ScansAtMost 2 meter.old meter.new }
{
    is_below(own, asked, meter) && is_below_join_up(asked, clearance, own, meter)
}

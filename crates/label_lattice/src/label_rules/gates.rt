//! Who may enter a gate.
ghost use Rattle.std.specs.Prelude.{◌≡◌};
ghost use Rattle.base.specs.Counts.{ScansAtMost};
ghost use Rattle.label_lattice.specs.LabelRules.{may_enter};

use crate::Label;
use crate::label_rules::orders::{is_above_floor, is_below, is_below_join};
use base::Meter;

/// The label and the clearance of a thread or a gate, where they are there.
#[derive(Clone, Copy)]
pub struct Bearer {
    /// Its label.
    pub label: Option<Label>,
    /// Its clearance.
    pub clearance: Option<Label>,
}

/// What a thread asks of a gate, where the labels can be stored.
#[derive(Clone, Copy)]
pub struct Asked {
    /// Its new label.
    pub label: Option<Label>,
    /// Its new clearance.
    pub clearance: Option<Label>,
    /// The label that it proves to the gate's owner.
    pub verify: Option<Label>,
}

/// Whether a thread may enter a gate with what it asks. Its label is at most the gate's clearance
/// and at most the verify label; the new label is at least the floor of thread and gate, and at
/// most the new clearance; and that is at most the maximum of both clearances (HiStar, OSDI 2006).
pub fn may_enter(thread: &Bearer, gate: &Bearer, asked: &Asked, meter: &mut Meter) -> bool
    ensures value { result ≡ may_enter thread.now gate.now asked.now }
    ensures scans { ScansAtMost 5 meter.old meter.new }
{
    is_below(thread.label.as_ref(), gate.clearance.as_ref(), meter)
        && is_below(thread.label.as_ref(), asked.verify.as_ref(), meter)
        && is_above_floor(
            thread.label.as_ref(),
            gate.label.as_ref(),
            asked.label.as_ref(),
            meter,
        )
        && is_below(asked.label.as_ref(), asked.clearance.as_ref(), meter)
        && is_below_join(
            asked.clearance.as_ref(),
            thread.clearance.as_ref(),
            gate.clearance.as_ref(),
            meter,
        )
}

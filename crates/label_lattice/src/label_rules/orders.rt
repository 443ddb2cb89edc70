//! The order of labels, as threads and objects are compared.
ghost use Rattle.std.specs.Prelude.{◌≡◌, option_copied};
ghost use Rattle.base.specs.Counts.{ScansAtMost};
ghost use Rattle.label_lattice.specs.LabelRules.{both, all_three, below, visible, shown};
ghost use Rattle.label_lattice.specs.LabelRules.{below_join, below_join_up, above_floor};

use crate::Label;
use base::Meter;

/// Whether the first label is at most the second.
#[tactic(auto, unfolding(crate::specs::LabelRules::below))]
fn is_label_below(a: &Label, b: &Label, meter: &mut Meter) -> bool
    ensures value { result ≡ below a.now b.now }
    ensures scans { ScansAtMost 1 meter.old meter.new }
{
    a.leq(b, meter)
}

/// Whether the first label is at most the second with star raised.
#[tactic(auto, unfolding(crate::specs::LabelRules::visible))]
fn is_label_visible(a: &Label, b: &Label, meter: &mut Meter) -> bool
    ensures value { result ≡ visible a.now b.now }
    ensures scans { ScansAtMost 1 meter.old meter.new }
{
    a.leq_up(b, meter)
}

/// Whether the first label with star raised is at most the second with star raised.
#[tactic(auto, unfolding(crate::specs::LabelRules::shown))]
fn is_label_shown(a: &Label, b: &Label, meter: &mut Meter) -> bool
    ensures value { result ≡ shown a.now b.now }
    ensures scans { ScansAtMost 1 meter.old meter.new }
{
    a.leq_up_up(b, meter)
}

/// Whether the first label is at most the maximum of the others.
#[tactic(auto, unfolding(crate::specs::LabelRules::below_join))]
fn is_label_below_join(a: &Label, b: &Label, c: &Label, meter: &mut Meter) -> bool
    ensures value { result ≡ below_join a.now b.now c.now }
    ensures scans { ScansAtMost 1 meter.old meter.new }
{
    a.leq_join(b, c, meter)
}

/// Whether the first label is at most the maximum of the second and of the third with star raised.
#[tactic(auto, unfolding(crate::specs::LabelRules::below_join_up))]
fn is_label_below_join_up(a: &Label, b: &Label, c: &Label, meter: &mut Meter) -> bool
    ensures value { result ≡ below_join_up a.now b.now c.now }
    ensures scans { ScansAtMost 1 meter.old meter.new }
{
    a.leq_join_up(b, c, meter)
}

/// Whether the third label is at least what a thread of the first may have past a gate of the
/// second.
#[tactic(auto, unfolding(crate::specs::LabelRules::above_floor))]
fn is_label_above_floor(own: &Label, gate: &Label, asked: &Label, meter: &mut Meter) -> bool
    ensures value { result ≡ above_floor own.now gate.now asked.now }
    ensures scans { ScansAtMost 1 meter.old meter.new }
{
    own.floor_leq(gate, asked, meter)
}

/// Whether both labels are there, and the first is at most the second.
pub fn is_below(a: Option<&Label>, b: Option<&Label>, meter: &mut Meter) -> bool
    ensures value { result ≡ both below (option_copied a.entry) (option_copied b.entry) }
    ensures scans { ScansAtMost 1 meter.old meter.new }
{
    match a {
        None => false,
        Some(a) => match b {
            None => false,
            Some(b) => is_label_below(a, b, meter),
        },
    }
}

/// Whether both labels are there, and the first is at most the second with star raised: so a thread
/// of the second observes an object of the first (HiStar, OSDI 2006).
pub fn is_visible(a: Option<&Label>, b: Option<&Label>, meter: &mut Meter) -> bool
    ensures value { result ≡ both visible (option_copied a.entry) (option_copied b.entry) }
    ensures scans { ScansAtMost 1 meter.old meter.new }
{
    match a {
        None => false,
        Some(a) => match b {
            None => false,
            Some(b) => is_label_visible(a, b, meter),
        },
    }
}

/// Whether both labels are there, and the first with star raised is at most the second with star
/// raised: so the label of a thread is shown to another (HiStar, OSDI 2006).
pub fn is_shown(a: Option<&Label>, b: Option<&Label>, meter: &mut Meter) -> bool
    ensures value { result ≡ both shown (option_copied a.entry) (option_copied b.entry) }
    ensures scans { ScansAtMost 1 meter.old meter.new }
{
    match a {
        None => false,
        Some(a) => match b {
            None => false,
            Some(b) => is_label_shown(a, b, meter),
        },
    }
}

/// Whether all labels are there, and the first is at most the maximum of the others.
pub fn is_below_join(
    a: Option<&Label>,
    b: Option<&Label>,
    c: Option<&Label>,
    meter: &mut Meter,
) -> bool
    ensures value { result ≡ all_three below_join
        (option_copied a.entry) (option_copied b.entry) (option_copied c.entry) }
    ensures scans { ScansAtMost 1 meter.old meter.new }
{
    match a {
        None => false,
        Some(a) => match b {
            None => false,
            Some(b) => match c {
                None => false,
                Some(c) => is_label_below_join(a, b, c, meter),
            },
        },
    }
}

/// Whether all labels are there, and the first is at most the maximum of the second and of the
/// third with star raised.
pub fn is_below_join_up(
    a: Option<&Label>,
    b: Option<&Label>,
    c: Option<&Label>,
    meter: &mut Meter,
) -> bool
    ensures value { result ≡ all_three below_join_up
        (option_copied a.entry) (option_copied b.entry) (option_copied c.entry) }
    ensures scans { ScansAtMost 1 meter.old meter.new }
{
    match a {
        None => false,
        Some(a) => match b {
            None => false,
            Some(b) => match c {
                None => false,
                Some(c) => is_label_below_join_up(a, b, c, meter),
            },
        },
    }
}

/// Whether all labels are there, and the third is at least what a thread of the first may have past
/// a gate of the second: star where one of them has it, and elsewhere their maximum (HiStar, OSDI
/// 2006).
pub fn is_above_floor(
    own: Option<&Label>,
    gate: Option<&Label>,
    asked: Option<&Label>,
    meter: &mut Meter,
) -> bool
    ensures value { result ≡ all_three above_floor
        (option_copied own.entry) (option_copied gate.entry) (option_copied asked.entry) }
    ensures scans { ScansAtMost 1 meter.old meter.new }
{
    match own {
        None => false,
        Some(own) => match gate {
            None => false,
            Some(gate) => match asked {
                None => false,
                Some(asked) => is_label_above_floor(own, gate, asked, meter),
            },
        },
    }
}

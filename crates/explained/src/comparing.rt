//! Where the comparison of a part fails, and which conditions hold.
ghost use Rattle.std.specs.Prelude.{◌≡◌, ◌+◌, nat_lt, IfOk};
ghost use Rattle.std.specs.Option.{option_map, option_and_then};
ghost use Rattle.label_lattice.specs.LabelRules.{both, below};
ghost use Rattle.kernel_rules.specs.Conditions.{meets};
ghost use Rattle.explained.specs.Compared.{of_two, of_three, sides, named_of, rest_of};
ghost use Rattle.explained.specs.Laws.{least};
ghost use Rattle.explained.specs.Parts.{agrees, is_against, refuses};

use crate::failing::{Failing, failing_of};
use crate::parts::{Comparison, Finding, Part};
use crate::relations::Relation;
use base::{Meter, NoMemory, Refusal};
use kernel_rules::{Mapping, least_of};
use label_lattice::Label;
use label_lattice::label_rules::{
    is_above_floor, is_below, is_below_join, is_below_join_up, is_shown, is_visible,
};
use std::alloc::Global;

/// Where a comparison of two labels fails.
fn of_two(
    alloc: Global,
    relation: Relation,
    a: &Option<Label>,
    b: &Option<Label>,
    meter: &mut Meter,
) -> Result<Option<Failing>, NoMemory>
    ensures named { IfOk result (λ told. option_map (λ f. f.named.items) told
        ≡ named_of (of_two relation a.now b.now)) }
    ensures rest { IfOk result (λ told. option_and_then (λ f. f.rest) told
        ≡ rest_of (of_two relation a.now b.now)) }
{
    match a {
        None => Ok(None),
        Some(a) => match b {
            None => Ok(None),
            Some(b) => match failing_of(alloc, relation, a, b, b, meter) {
                Ok(told) => Ok(Some(told)),
                Err(want) => Err(want),
            },
        },
    }
}

/// Where a comparison of three labels fails.
fn of_three(
    alloc: Global,
    relation: Relation,
    a: &Option<Label>,
    b: &Option<Label>,
    c: &Option<Label>,
    meter: &mut Meter,
) -> Result<Option<Failing>, NoMemory>
    ensures named { IfOk result (λ told. option_map (λ f. f.named.items) told
        ≡ named_of (of_three relation a.now b.now c.now)) }
    ensures rest { IfOk result (λ told. option_and_then (λ f. f.rest) told
        ≡ rest_of (of_three relation a.now b.now c.now)) }
{
    match a {
        None => Ok(None),
        Some(a) => match b {
            None => Ok(None),
            Some(b) => match c {
                None => Ok(None),
                Some(c) => match failing_of(alloc, relation, a, b, c, meter) {
                    Ok(told) => Ok(Some(told)),
                    Err(want) => Err(want),
                },
            },
        },
    }
}

impl Comparison {
    /// Where it fails: `None` where a label is not there, and else all categories and no other. The
    /// error is want of memory.
    pub fn failing(&self, alloc: Global, meter: &mut Meter) -> Result<Option<Failing>, NoMemory>
        ensures named { IfOk result (λ told. option_map (λ f. f.named.items) told
            ≡ named_of (sides self.now)) }
        ensures rest { IfOk result (λ told. option_and_then (λ f. f.rest) told
            ≡ rest_of (sides self.now)) }
    {
        match self {
            Comparison::Below(a, b) => of_two(alloc, Relation::Below, &a.label, &b.label, meter),
            Comparison::Visible(a, b) => of_two(
                alloc,
                Relation::Visible,
                &a.label,
                &b.label,
                meter,
            ),
            Comparison::Shown(a, b) => of_two(alloc, Relation::Shown, &a.label, &b.label, meter),
            Comparison::BelowJoin(a, b, c) => {
                of_three(
                    alloc,
                    Relation::BelowJoin,
                    &a.label,
                    &b.label,
                    &c.label,
                    meter,
                )
            }
            Comparison::BelowJoinUp(a, b, c) => {
                of_three(
                    alloc,
                    Relation::BelowJoinUp,
                    &a.label,
                    &b.label,
                    &c.label,
                    meter,
                )
            }
            Comparison::AboveFloor(a, b, c) => {
                of_three(
                    alloc,
                    Relation::AboveFloor,
                    &a.label,
                    &b.label,
                    &c.label,
                    meter,
                )
            }
        }
    }

    /// Whether it holds.
    pub fn agrees(&self, meter: &mut Meter) -> bool
        ensures { result ≡ agrees self.now }
    {
        match self {
            Comparison::Below(a, b) => is_below(a.label.as_ref(), b.label.as_ref(), meter),
            Comparison::Visible(a, b) => is_visible(a.label.as_ref(), b.label.as_ref(), meter),
            Comparison::Shown(a, b) => is_shown(a.label.as_ref(), b.label.as_ref(), meter),
            Comparison::BelowJoin(a, b, c) => {
                is_below_join(a.label.as_ref(), b.label.as_ref(), c.label.as_ref(), meter)
            }
            Comparison::BelowJoinUp(a, b, c) => {
                is_below_join_up(a.label.as_ref(), b.label.as_ref(), c.label.as_ref(), meter)
            }
            Comparison::AboveFloor(a, b, c) => {
                is_above_floor(a.label.as_ref(), b.label.as_ref(), c.label.as_ref(), meter)
            }
        }
    }
}

/// Whether a mapping meets what a slot maps.
fn is_met(mapping: &Mapping, other: &Option<Mapping>) -> bool
    ensures { result ≡ meets mapping.now other.now }
{
    let (page, end) = (
        u64::from(mapping.page),
        u64::from(mapping.page) + u64::from(mapping.count),
    );
    match other {
        None => false,
        Some(other) => {
            let first = u64::from(other.page);
            page < first + u64::from(other.count) && first < end
        }
    }
}

/// Whether both together are above a number. (Their sum may be too large to be told.)
fn is_over(used: u128, more: u32, most: u32) -> bool
    ensures { result ≡ nat_lt most (used + more) }
{
    let (more, most) = (u128::from(more), u128::from(most));
    most < used || most - used < more
}

impl Part {
    /// Whether it stands against the call.
    pub fn is_against(&self, meter: &mut Meter) -> bool
        ensures { result ≡ is_against self.now }
    {
        match self {
            Part::Fact(_, against) => *against,
            Part::Compared(labels) => !labels.agrees(meter),
            Part::AtLeast(number, least) => *number < *least,
            Part::AtMost(number, most) => *most < *number,
            Part::Sum(_, used, more, most) => is_over(*used, *more, *most),
            Part::Empty(_, mapping) => mapping.is_some(),
            Part::Apart(_, mapping, other) => is_met(mapping, other),
        }
    }
}

impl Finding {
    /// Whether the condition holds, so that it refuses the call.
    pub fn holds(&self, meter: &mut Meter) -> bool
        ensures { result ≡ refuses self.now.parts }
    {
        for part in self.parts.as_slice() {
            if part.is_against(meter) {
                return true;
            }
        }
        false
    }
}

/// The least number among the findings that hold, and `None` where none does: it is the refusal.
pub fn refusal_among(found: &[Finding], meter: &mut Meter) -> Option<Refusal>
    ensures { result ≡ least found.now }
{
    let mut least = None;
    for finding in found {
        if finding.holds(meter) {
            least = least_of(least, Some(finding.refusal));
        }
    }
    least
}

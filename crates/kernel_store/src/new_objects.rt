//! What refuses a new object.
ghost use Rattle.std.specs.Prelude.{◌≡◌, ◌≤◌, ◌+◌, ◌∷◌, [], ◌||◌, not, is_none, option_copied};
ghost use Rattle.base.specs.declared.refusals.Refusal.TheVariants as refusal;
ghost use Rattle.label_lattice.specs.Raw.{all_made, is_bad_below, raw_has_star};
ghost use Rattle.label_lattice.specs.LabelRules.{both, below, between, stored};
ghost use Rattle.kernel_rules.specs.Conditions.{in_range_of};
ghost use Rattle.kernel_rules.specs.Rows.{row_of, fitting, new_object, new_bearer};
ghost use Rattle.kernel_rules.specs.State.{label_at, clearance_at};
ghost use Rattle.kernel_store.specs.Locations.{Stand};

use crate::conditions::{Condition, at_container, modified, not_immutable};
use crate::names::Named;
use crate::sights::look;
use crate::stores::Store;
use base::{Kind, Meter, Refusal};
use label_lattice::label_rules::{is_below, is_between};
use label_lattice::{Label, RawLabel};

/// A new object, as what refuses one looks at it.
#[derive(Clone, Copy)]
pub struct NewObject<'a> {
    /// What it will be.
    pub kind: Kind,
    /// What it may use, in pages of 256 bytes.
    pub quota: u32,
    /// What it uses itself, in pages of 256 bytes.
    pub pages: u64,
    /// Its label, as it is given.
    pub label: &'a RawLabel,
    /// Its label as it is stored, where it can be.
    pub stored: Option<&'a Label>,
}

/// The new object fits into its container, which is looked at as it is named.
#[inline(always)]
fn fitting<S: Store>(
    state: &S,
    named: Named<S::Location>,
    made: &NewObject,
    meter: &mut Meter,
) -> [Condition; 8]
    requires { Stand (S.stands state.now) named }
    ensures value { result ≡ row_of (S.state state.now) (S.id_of named.caller)
        (fitting made.now.kind (S.id_of named.container) made.now.quota made.now.pages) }
    ensures meter { S.kept meter.new ≡ S.kept meter.old }
{
    let seen = look(state, named, meter);
    let [access] = at_container(&seen);
    let [observed, flowing] = modified(&seen.container);
    let avoided = state.avoids(made.kind, named.container);
    let small = u64::from(made.quota) < made.pages;
    let full = state.is_over(named.container, made.quota);
    let [immutable] = not_immutable(&seen.container);
    let spent = 1 << 61 <= state.next_id().number();
    [
        access,
        observed,
        flowing,
        (Refusal::AvoidType, avoided),
        (Refusal::NoQuota, small),
        (Refusal::NoQuota, full),
        immutable,
        (Refusal::Spent, spent),
    ]
}

fn is_unmade<S: Store>(state: &S, raw: &RawLabel, label: Option<&Label>) -> bool
    requires { option_copied label ≡ stored raw.now }
    ensures { result ≡ (is_none (stored raw.now)
        || not (all_made (S.state state.now).next_category raw.now.pairs)) }
{
    label.is_none() || !raw.all_made(state.next_category())
}

/// Whether a raw label cannot be that of a thread or a gate, a clearance or a verify label.
fn is_unfit<S: Store>(state: &S, raw: &RawLabel, label: Option<&Label>) -> bool
    requires { option_copied label ≡ stored raw.now }
    ensures { result ≡ is_bad_below (S.state state.now).next_category raw.now }
{
    is_unmade(state, raw, label)
}

/// The raw label can be that of a thread or a gate, a clearance or a verify label.
pub fn good_label<S: Store>(state: &S, raw: &RawLabel, label: Option<&Label>) -> [Condition; 1]
    requires { option_copied label ≡ stored raw.now }
    ensures { result ≡ (refusal.BadLabel, is_bad_below (S.state state.now).next_category raw.now)
        ∷ [] }
{
    [(Refusal::BadLabel, is_unfit(state, raw, label))]
}

/// The raw label can be that of a container, a segment or an address space.
#[inline(always)]
fn starless_label<S: Store>(state: &S, raw: &RawLabel, label: Option<&Label>) -> [Condition; 1]
    requires { option_copied label ≡ stored raw.now }
    ensures { result ≡ (
      refusal.BadLabel,
      is_bad_below (S.state state.now).next_category raw.now || raw_has_star raw.now,
    ) ∷ [] }
{
    [(
        Refusal::BadLabel,
        is_unfit(state, raw, label) || raw.has_star(),
    )]
}

/// Whether a stored label is at least the caller's, and at most its clearance.
#[inline(always)]
pub fn is_in_range<S: Store>(
    state: &S,
    caller: S::Location,
    label: Option<&Label>,
    meter: &mut Meter,
) -> bool
    requires { S.stands state.now caller }
    ensures value { result
        ≡ in_range_of (S.state state.now) (S.id_of caller) (option_copied label.entry) }
    ensures meter { S.kept meter.new ≤ S.kept meter.old + 2 }
{
    is_between(state.label(caller), label, state.clearance(caller), meter)
}

/// What refuses a new container, segment or address space in the container that is named. (It is put into the rows that
/// ask, as `refusal_of` is.)
#[inline(always)]
pub fn new_object<S: Store>(
    state: &S,
    named: Named<S::Location>,
    made: &NewObject,
    meter: &mut Meter,
) -> [Condition; 10]
    requires named { Stand (S.stands state.now) named }
    requires label { option_copied made.now.stored ≡ stored made.now.label.now }
    ensures value { result ≡ row_of (S.state state.now) (S.id_of named.caller)
        (new_object made.now.kind (S.id_of named.container) made.now.label.now made.now.quota
        made.now.pages) }
    ensures meter { S.kept meter.new ≤ S.kept meter.old + 2 }
{
    let [
        access,
        observed,
        flowing,
        avoided,
        small,
        room,
        immutable,
        spent,
    ] = fitting(state, named, made, meter);
    let [unfit] = starless_label(state, made.label, made.stored);
    let in_range = is_in_range(state, named.caller, made.stored, meter);
    [
        access,
        observed,
        flowing,
        avoided,
        small,
        room,
        immutable,
        spent,
        unfit,
        (Refusal::LabelRange, !in_range),
    ]
}

fn is_above<S: Store>(
    state: &S,
    caller: S::Location,
    label: Option<&Label>,
    meter: &mut Meter,
) -> bool
    requires { S.stands state.now caller }
    ensures value { result ≡ both below (label_at (S.state state.now) (S.id_of caller))
        (option_copied label.entry) }
    ensures meter { S.kept meter.new ≤ S.kept meter.old + 1 }
{
    is_below(state.label(caller), label, meter)
}

fn is_bounded<S: Store>(
    state: &S,
    caller: S::Location,
    label: Option<&Label>,
    clearance: Option<&Label>,
    meter: &mut Meter,
) -> bool
    requires { S.stands state.now caller }
    ensures value { result ≡ between (option_copied label.entry) (option_copied clearance.entry)
        (clearance_at (S.state state.now) (S.id_of caller)) }
    ensures meter { S.kept meter.new ≤ S.kept meter.old + 2 }
{
    is_between(label, clearance, state.clearance(caller), meter)
}

/// What refuses a new thread or gate, which uses one page itself, in the container that is named: its clearance is given
/// raw, and stored where it can be.
pub fn new_bearer<S: Store>(
    state: &S,
    named: Named<S::Location>,
    made: &NewObject,
    raw_clearance: &RawLabel,
    clearance: Option<&Label>,
    meter: &mut Meter,
) -> [Condition; 12]
    requires named { Stand (S.stands state.now) named }
    requires label { option_copied made.now.stored ≡ stored made.now.label.now }
    requires pages { made.now.pages ≡ 1 }
    requires clearance { option_copied clearance ≡ stored raw_clearance.now }
    ensures value { result ≡ row_of (S.state state.now) (S.id_of named.caller)
        (new_bearer made.now.kind (S.id_of named.container) made.now.label.now made.now.quota
        raw_clearance.now) }
    ensures meter { S.kept meter.new ≤ S.kept meter.old + 3 }
{
    let [
        access,
        observed,
        flowing,
        avoided,
        small,
        room,
        immutable,
        spent,
    ] = fitting(state, named, made, meter);
    let [unfit] = good_label(state, made.label, made.stored);
    let [unfit_clearance] = good_label(state, raw_clearance, clearance);
    let above = is_above(state, named.caller, made.stored, meter);
    let bounded = is_bounded(state, named.caller, made.stored, clearance, meter);
    [
        access,
        observed,
        flowing,
        avoided,
        small,
        room,
        immutable,
        spent,
        unfit,
        unfit_clearance,
        (Refusal::LabelRange, !above),
        (Refusal::ClearanceRange, !bounded),
    ]
}

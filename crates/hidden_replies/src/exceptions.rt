//! Which exception holds at a call.
ghost use Rattle.std.specs.Prelude.{◌≡◌, ◌==◌, ◌||◌, not, option_copied};
ghost use Rattle.std.specs.List.{list_all};
ghost use Rattle.hidden_replies.specs.Exceptions.{is_met, is_seen, hides_none, is_open, same_untold};
ghost use Rattle.hidden_replies.specs.Exceptions.{unless, first_of, of_counts, of_call, of_asked, when_met};
ghost use Rattle.hidden_replies.specs.declared.differences.Channel.TheVariants as channel;
ghost use Rattle.kernel_rules.specs.State.{listed, object_at};
ghost use Rattle.plain_state.specs.StateOf.{state_of};
ghost use Rattle.worlds.specs.Bits.{objects_by};
ghost use Rattle.worlds.specs.Laws.{is_counted, is_unref};
ghost use Rattle.worlds.specs.Seen.{is_within};

use crate::differences::{Channel, Placed};
use base::{Meter, ObjectId};
use call_text::Asked;
use kernel_rules::{Body, Call, Object};
use label_lattice::Label;
use label_lattice::label_rules::{is_shown, is_visible};
use plain_state::PlainState;
use std::cmp::Ordering;

/// Whether the observer of a label observes an object.
pub fn is_seen(state: &PlainState, label: &Label, id: ObjectId, meter: &mut Meter) -> bool
    ensures { result ≡ is_seen label.now (state_of state.now) id }
{
    is_visible(state.label(id), Some(label), meter)
}

/// Whether the observer observes all that a thread observes.
fn is_within(state: &PlainState, label: &Label, thread: ObjectId, meter: &mut Meter) -> bool
    ensures { result ≡ is_within label.now (state_of state.now) thread }
{
    is_shown(state.label(thread), Some(label), meter)
}

/// Whether the observer observes a thread in one of two states at least.
pub fn is_met(
    whole: &PlainState,
    purged: &PlainState,
    label: &Label,
    thread: ObjectId,
    meter: &mut Meter,
) -> bool
    ensures { result ≡ is_met label.now (state_of whole.now) (state_of purged.now) thread }
{
    is_seen(whole, label, thread, meter) || is_seen(purged, label, thread, meter)
}

/// Whether the observer observes none of these objects.
fn sees_none(state: &PlainState, label: &Label, ids: &[ObjectId], meter: &mut Meter) -> bool
    ensures { result ≡ list_all (λ o. not (is_seen label.now (state_of state.now) o)) ids.now }
{
    for id in ids {
        if is_seen(state, label, *id, meter) {
            return false;
        }
    }
    true
}

/// Whether the observer observes nothing that an object lists.
fn lists_none(state: &PlainState, label: &Label, object: &Object, meter: &mut Meter) -> bool
    ensures { result ≡ list_all (λ o. not (is_seen label.now (state_of state.now) o))
        (listed object.now.body) }
{
    match &object.body {
        Body::Container(_, list) => sees_none(state, label, list.as_slice(), meter),
        _ => true,
    }
}

/// Whether the observer observes an object, or nothing that it lists.
fn hides_none(state: &PlainState, label: &Label, object: &Object, meter: &mut Meter) -> bool
    ensures { result ≡ hides_none label.now (state_of state.now) object.now }
{
    is_visible(Some(&object.label), Some(label), meter) || lists_none(state, label, object, meter)
}

/// Whether what the observer doesn't observe lists nothing that it observes.
fn is_open(state: &PlainState, label: &Label, meter: &mut Meter) -> bool
    ensures { result ≡ is_open label.now (state_of state.now) }
{
    for (_, object) in state.records().objects.iter() {
        if !hides_none(state, label, object, meter) {
            return false;
        }
    }
    true
}

/// Whether an object has the same label and flags in two states, or is in neither.
fn same_untold(one: Option<&Object>, other: Option<&Object>, meter: &mut Meter) -> bool
    ensures { result ≡ same_untold (option_copied one.entry) (option_copied other.entry) }
{
    match one {
        None => other.is_none(),
        Some(one) => match other {
            None => false,
            Some(other) => {
                one.label.listing_cmp(&other.label, meter) == Ordering::Equal
                    && one.fixed == other.fixed
                    && one.immutable == other.immutable
            }
        },
    }
}

fn unless(test: bool, exception: Channel) -> Option<Channel>
    ensures { result ≡ unless test exception }
{
    if test { None } else { Some(exception) }
}

/// The first exception, or else the second.
pub fn first_of(one: Option<Channel>, other: Option<Channel>) -> Option<Channel>
    ensures { result ≡ first_of one other }
{
    match one {
        None => other,
        Some(exception) => Some(exception),
    }
}

fn makes_object(call: &Call) -> bool
    ensures { result ≡ (objects_by call.now == 1) }
{
    matches!(
        call,
        Call::ContainerCreate(_)
            | Call::SegmentCreate(_)
            | Call::SegmentCopy(_)
            | Call::AsCreate(_)
            | Call::ThreadCreate(_)
            | Call::GateCreate(_)
    )
}

fn is_counted(call: &Call) -> bool
    ensures { result ≡ is_counted call.now }
{
    makes_object(call)
        || matches!(
            call,
            Call::CatCreate
                | Call::SelfSetLabel { .. }
                | Call::SelfSetClearance { .. }
                | Call::GateEnter { .. }
        )
}

/// The exception for a call that draws an id or names categories.
fn of_counts(whole: &PlainState, purged: &PlainState, call: &Call) -> Option<Channel>
    ensures { result ≡ of_counts (state_of whole.now) (state_of purged.now) call.now }
{
    let id = unless(
        purged.next_id().number() == whole.next_id().number(),
        Channel::NextId,
    );
    let category = unless(
        purged.next_category() == whole.next_category(),
        Channel::NextCategory,
    );
    if makes_object(call) {
        first_of(id, category)
    } else {
        first_of(category, id)
    }
}

/// The exception for a call that names an object which need not be observed.
fn of_named(
    whole: &PlainState,
    purged: &PlainState,
    id: ObjectId,
    meter: &mut Meter,
) -> Option<Channel>
    ensures { result ≡ unless (same_untold (object_at (state_of whole.now) id)
        (object_at (state_of purged.now) id)) channel.Untold }
{
    unless(
        same_untold(whole.object(id), purged.object(id), meter),
        Channel::Untold,
    )
}

/// The exception for a call in both runs by a thread that observes no more than the observer.
fn of_call(
    whole: &PlainState,
    purged: &PlainState,
    label: &Label,
    call: &Call,
    meter: &mut Meter,
) -> Option<Channel>
    ensures { result ≡ of_call label.now (state_of whole.now) (state_of purged.now) call.now }
{
    match call {
        Call::Link { entry, .. } => of_named(whole, purged, entry.object, meter),
        Call::QuotaMove { entry, .. } => of_named(whole, purged, entry.object, meter),
        Call::Unref { .. } => unless(
            is_open(whole, label, meter) && is_open(purged, label, meter),
            Channel::NotOpen,
        ),
        _ => {
            if is_counted(call) {
                of_counts(whole, purged, call)
            } else {
                None
            }
        }
    }
}

/// The exception for what is asked in both runs by such a thread: none for a read.
fn of_asked(
    whole: &PlainState,
    purged: &PlainState,
    label: &Label,
    asked: &Asked,
    meter: &mut Meter,
) -> Option<Channel>
    ensures { result ≡ of_asked label.now (state_of whole.now) (state_of purged.now) asked.now }
{
    match asked {
        Asked::Write(call) => of_call(whole, purged, label, call, meter),
        Asked::Read(_) => None,
    }
}

/// The exception for what is asked in both runs.
pub fn when_met(
    whole: &PlainState,
    purged: &PlainState,
    label: &Label,
    placed: &Placed,
    meter: &mut Meter,
) -> Option<Channel>
    ensures { result ≡ when_met label.now (state_of whole.now) (state_of purged.now)
        placed.now.thread placed.now.asked }
{
    if is_within(whole, label, placed.thread, meter) {
        of_asked(whole, purged, label, &placed.asked, meter)
    } else {
        Some(Channel::Owner)
    }
}

/// The exception for a hidden unreference.
pub fn when_unseen(
    whole: &PlainState,
    label: &Label,
    call: &Call,
    meter: &mut Meter,
) -> Option<Channel>
    ensures { result ≡ unless (not (is_unref call.now) || is_open label.now (state_of whole.now))
        channel.NotOpen }
{
    unless(
        !matches!(call, Call::Unref { .. }) || is_open(whole, label, meter),
        Channel::NotOpen,
    )
}

/// The exception for a hidden thread after its call.
pub fn when_shown(
    whole: &PlainState,
    label: &Label,
    thread: ObjectId,
    meter: &mut Meter,
) -> Option<Channel>
    ensures { result ≡ unless (not (is_seen label.now (state_of whole.now) thread)) channel.Shown }
{
    unless(!is_seen(whole, label, thread, meter), Channel::Shown)
}

//! A run, and the same without the calls of hidden threads.
ghost use Rattle.std.specs.Prelude.{◌≡◌, ◌++◌, [], map, None, IfOk, OnOk, true, false, if◌then◌else◌};
ghost use Rattle.call_text.specs.declared.asking.Asked.TheVariants.{Write};
ghost use Rattle.hidden_replies.specs.Asked.{is_call, reply_to, same_by, state_by};
ghost use Rattle.hidden_replies.specs.Exceptions.{first_of, is_met, when_hidden, when_met};
ghost use Rattle.kernel_rules.specs.Step.{next};
ghost use Rattle.hidden_replies.specs.Hidden.{after, both_from, differences, differing, IsAgreed, replied_in, TellsAll, told, told_by};
ghost use Rattle.hidden_replies.specs.RunsOf.{list_of, runs_of};
ghost use Rattle.label_lattice.specs.Label.{LabelValue};
ghost use Rattle.plain_state.specs.StateOf.{state_of};

use crate::differences::{Channel, Difference, Placed};
use crate::exceptions::{first_of, is_met, when_met, when_shown, when_unseen};
use crate::replies::same_by;
use base::{Meter, NoMemory, ObjectId};
use call_text::Asked;
use kernel_calls::{ask, step};
use kernel_rules::{Call, Mapping, Reply};
use label_lattice::Label;
use plain_state::PlainState;
use std::alloc::Global;

/// A run, and the same without the calls of hidden threads.
#[derive(Drop)]
pub struct Runs {
    /// Where all calls have led to.
    pub whole: PlainState,
    /// Where the calls that are not hidden have led to.
    pub purged: PlainState,
    /// Whether a call was hidden.
    pub parted: bool,
    /// The first exception that was met.
    pub exception: Option<Channel>,
}

/// Two runs that begin in one state.
pub fn both(whole: PlainState, purged: PlainState) -> Runs
    requires { state_of purged ≡ state_of whole }
    ensures whole { (runs_of result).whole ≡ state_of whole }
    ensures purged { (runs_of result).purged ≡ state_of whole }
    ensures runs { runs_of result ≡ both_from (state_of whole) }
    ensures agreed { (l : LabelValue) → IsAgreed l (runs_of result) }
{
    Runs {
        whole,
        purged,
        parted: false,
        exception: None,
    }
}

/// What is told of replies that differ.
fn told_by(
    placed: &Placed,
    reply: &Reply,
    otherwise: &Reply,
    channel: Option<Channel>,
) -> Option<Difference>
    ensures { list_of result ≡ told_by placed.now reply.now otherwise.now channel }
{
    match channel {
        None => None,
        Some(channel) => Some(Difference {
            event: placed.event,
            place: placed.place,
            is_call: is_call(&placed.asked),
            thread: placed.thread,
            reply: *reply,
            otherwise: *otherwise,
            channel,
        }),
    }
}

/// What is told of what is asked, whose replies are these.
fn told_of(
    alloc: Global,
    placed: &Placed,
    reply: &Reply,
    otherwise: &Reply,
    channel: Option<Channel>,
) -> Result<Option<Difference>, NoMemory>
    ensures { IfOk result (λ d. list_of d ≡ (if same_by placed.now.asked reply.now otherwise.now then []
        else told_by placed.now reply.now otherwise.now channel)) }
{
    if same_by(alloc, &placed.asked, reply, otherwise)? {
        return Ok(None);
    }
    Ok(told_by(placed, reply, otherwise, channel))
}

/// Whether a call is asked, and not a read.
fn is_call(asked: &Asked) -> bool
    ensures { result ≡ is_call asked.now }
{
    matches!(asked, Asked::Write(_))
}

/// The rules' reply to what is asked, after which the state is that which it leads to.
fn answer(state: &mut PlainState, placed: &Placed, meter: &mut Meter) -> Result<Reply, NoMemory>
    ensures reply { IfOk result (λ reply. reply ≡ reply_to (state_of state.old) placed.now.thread placed.now.asked) }
    ensures state { OnOk result (state_of state.new ≡ state_by (state_of state.old) placed.now.thread placed.now.asked) }
{
    match &placed.asked {
        Asked::Write(call) => step(state, placed.thread, call, meter),
        Asked::Read(query) => Ok(ask(state, placed.thread, query, meter)),
    }
}

/// The exception for what is asked in both runs: none before the first hidden call.
fn exception_of(runs: &Runs, label: &Label, placed: &Placed, meter: &mut Meter) -> Option<Channel>
    ensures { result ≡ (if (runs_of runs.now).parted then when_met label.now (runs_of runs.now).whole
        (runs_of runs.now).purged placed.now.thread placed.now.asked else None) }
{
    if runs.parted {
        when_met(&runs.whole, &runs.purged, label, placed, meter)
    } else {
        None
    }
}

/// A hidden call, which is made in the whole run alone.
fn take_hidden_call(
    runs: &mut Runs,
    label: &Label,
    thread: ObjectId,
    call: &Call,
    meter: &mut Meter,
) -> Result<(), NoMemory>
    ensures whole { OnOk result ((runs_of runs.new).whole ≡ next (runs_of runs.old).whole thread call.now) }
    ensures purged { OnOk result ((runs_of runs.new).purged ≡ (runs_of runs.old).purged) }
    ensures parted { OnOk result ((runs_of runs.new).parted ≡ true) }
    ensures exception { OnOk result ((runs_of runs.new).exception ≡ first_of (runs_of runs.old).exception
        (when_hidden label.now (runs_of runs.old).whole thread (Write call.now))) }
{
    let unseen = when_unseen(&runs.whole, label, call, meter);
    match step(&mut runs.whole, thread, call, meter) {
        Ok(_) => {}
        Err(fault) => return Err(fault),
    }
    let shown = when_shown(&runs.whole, label, thread, meter);
    runs.parted = true;
    runs.exception = first_of(runs.exception, first_of(unseen, shown));
    Ok(())
}

/// What a hidden thread asks. A read of its changes nothing.
fn take_hidden(
    runs: &mut Runs,
    label: &Label,
    placed: &Placed,
    meter: &mut Meter,
) -> Result<(), NoMemory>
    requires { is_met label.now (runs_of runs.old).whole (runs_of runs.old).purged placed.now.thread ≡ false }
    ensures { OnOk result (runs_of runs.new ≡ after label.now (runs_of runs.old) placed.now) }
{
    match &placed.asked {
        Asked::Write(call) => take_hidden_call(runs, label, placed.thread, call, meter),
        Asked::Read(_) => Ok(()),
    }
}

/// What is asked in both runs, and what is told of it.
fn take_met(
    runs: &mut Runs,
    label: &Label,
    placed: &Placed,
    meter: &mut Meter,
) -> Result<Option<Difference>, NoMemory>
    requires { is_met label.now (runs_of runs.old).whole (runs_of runs.old).purged placed.now.thread ≡ true }
    ensures runs { OnOk result (runs_of runs.new ≡ after label.now (runs_of runs.old) placed.now) }
    ensures told { IfOk result (λ d. list_of d ≡ told label.now (runs_of runs.old) placed.now) }
{
    let alloc = runs.whole.alloc();
    let exception = exception_of(runs, label, placed, meter);
    let reply = match answer(&mut runs.whole, placed, meter) {
        Ok(reply) => reply,
        Err(fault) => return Err(fault),
    };
    let otherwise = match answer(&mut runs.purged, placed, meter) {
        Ok(reply) => reply,
        Err(fault) => return Err(fault),
    };
    let first = first_of(exception, runs.exception);
    runs.exception = first_of(runs.exception, exception);
    told_of(alloc, placed, &reply, &otherwise, first)
}

/// Adds what is told of a call.
fn keep(all: &mut Vec<Difference>, told: Option<Difference>) -> Result<(), NoMemory>
    ensures { OnOk result (all.new.items ≡ all.old.items ++ list_of told) }
{
    let (_named, _too): (Option<Mapping>, Option<Reply>) = (None, None);
    if let Some(difference) = told {
        all.push(difference)?;
    }
    Ok(())
}

/// A call in the runs that it is made in, and what is told of it.
fn make(
    runs: &mut Runs,
    label: &Label,
    placed: &Placed,
    meter: &mut Meter,
) -> Result<Option<Difference>, NoMemory>
    ensures runs { OnOk result (runs_of runs.new ≡ after label.now (runs_of runs.old) placed.now) }
    ensures told { IfOk result (λ d. list_of d ≡ told label.now (runs_of runs.old) placed.now) }
{
    if is_met(&runs.whole, &runs.purged, label, placed.thread, meter) {
        take_met(runs, label, placed, meter)
    } else {
        take_hidden(runs, label, placed, meter)?;
        Ok(None)
    }
}

/// Adds what is told of the next call.
fn take(
    all: &mut Vec<Difference>,
    runs: &mut Runs,
    label: &Label,
    placed: &Placed,
    meter: &mut Meter,
) -> Result<(), NoMemory>
    ensures told { OnOk result (all.new.items
        ≡ all.old.items ++ told label.now (runs_of runs.old) placed.now) }
    ensures runs { OnOk result (runs_of runs.new ≡ after label.now (runs_of runs.old) placed.now) }
    ensures exact { TellsAll label.now (runs_of runs.old) placed.now }
{
    let (_named, _too): (Option<Mapping>, Option<Reply>) = (None, None);
    runs.whole.well_formed();
    runs.purged.well_formed();
    let told = make(runs, label, placed, meter)?;
    keep(all, told)?;
    Ok(())
}

/// What is told of calls, one after another: each reply that differs, where the observer sees the same of both runs before.
/// The error is want of memory.
pub fn differences(
    alloc: Global,
    runs: &mut Runs,
    label: &Label,
    calls: &[Placed],
) -> Result<Vec<Difference>, NoMemory>
    ensures named { IfOk result (λ all. all.items ≡ differences label.now (runs_of runs.old) calls.now) }
    ensures exact { IfOk result (λ all. IsAgreed label.now (runs_of runs.old) → map replied_in all.items
        ≡ differing label.now (runs_of runs.old).whole (runs_of runs.old).purged calls.now) }
{
    let (_named, _too): (Option<Mapping>, Option<Reply>) = (None, None);
    let mut meter = Meter::new(alloc)?;
    let mut all = Vec::new(alloc);
    for placed in calls {
        take(&mut all, runs, label, placed, &mut meter)?;
    }
    Ok(all)
}

//! Why calls and reads of a dump are answered as they are.
ghost use Rattle.std.specs.Prelude.{◌≡◌, ◌+◌, ◌^◌, ◌<◌, ◌≤◌, ◌++◌, ◌∷◌, [], map, take, length, codes, Some, IfOk, OnOk};
ghost use Rattle.std.specs.List.{flat_map};
ghost use Rattle.std.specs.Option.{option_map};
ghost use Rattle.call_text.specs.Reply.{reply_text};
ghost use Rattle.dump_text.specs.Dump.{IsDump};
ghost use Rattle.explained.specs.Explained.{explained, query_explained};
ghost use Rattle.kernel_rules.specs.Step.{answer, next, query_answer};
ghost use Rattle.call_text.specs.NameLines.{named_line};
ghost use Rattle.plain_state.specs.StateOf.{state_of};
ghost use Rattle.shown_dumps.specs.Explained.{call_head, call_explained, read_explained, is_refused, refusal_explained, read_refusal_explained, calls_explained, event_explained, place_explained, IsWhy};
ghost use Rattle.shown_dumps.specs.Parts.{condition_text};
ghost use Rattle.shown_dumps.specs.declared.why.places.Content.TheVariants.{Calls, Asked};

use crate::states::{ShowFault, dump_in, make, make_all, put_named};
use crate::why::lines::{after_lines, first_line};
use crate::why::parts::put_findings;
use crate::why::places::{Content, Place, place_at};
use crate::why::telling::Telling;
use auditor::clean_dumps::begin;
use base::{Meter, NoMemory, ObjectId};
use call_text::Named;
use call_text::names_text::named_line;
use dump_text::{Dump, PlacedRead, Read};
use explained::{explain, explain_query};
use kernel_calls::{ask, step};
use kernel_rules::histories::{Answered, Event};
use kernel_rules::{Call, Mapping, Query, Reply};
use label_lattice::Label;
use plain_state::PlainState;
use std::alloc::Global;

/// Who calls, and how it is told.
#[derive(Clone, Copy)]
struct Caller<'a> {
    thread: ObjectId,
    telling: Telling<'a>,
}

/// The conditions of a call in words.
fn findings_text(
    state: &PlainState,
    caller: &Caller<'_>,
    call: &Call,
    meter: &mut Meter,
) -> Result<Vec<u8>, NoMemory>
    ensures { IfOk result (λ text. text.items
        ≡ flat_map (condition_text caller.now.telling.names.now caller.now.telling.is_whole) (explained (state_of state.now) caller.now.thread call.now)) }
{
    // (types that a finding has, which the proof of its drop names)
    let _label: Option<Label> = None;
    let _mapping: Option<Mapping> = None;
    let found = explain(state, caller.thread, call)?;
    let mut text = Vec::new(state.alloc());
    let Telling { names, is_whole } = caller.telling;
    put_findings(&mut text, is_whole, found.as_slice(), names, meter)?;
    Ok(text)
}

/// Those of a read.
fn query_text(
    state: &PlainState,
    caller: &Caller<'_>,
    query: &Query,
    meter: &mut Meter,
) -> Result<Vec<u8>, NoMemory>
    ensures { IfOk result (λ text. text.items
        ≡ flat_map (condition_text caller.now.telling.names.now caller.now.telling.is_whole) (query_explained (state_of state.now) caller.now.thread query.now)) }
{
    // (types that a finding has, which the proof of its drop names)
    let _label: Option<Label> = None;
    let _mapping: Option<Mapping> = None;
    let found = explain_query(state, caller.thread, query)?;
    let mut text = Vec::new(state.alloc());
    let Telling { names, is_whole } = caller.telling;
    put_findings(&mut text, is_whole, found.as_slice(), names, meter)?;
    Ok(text)
}

/// Adds the line that tells a call or a read, and the rules' answer, with the names that are known. The error is want of memory.
pub fn put_head(
    out: &mut Vec<u8>,
    line: &[u8],
    reply: &Reply,
    names: &[Named],
) -> Result<(), NoMemory>
    ensures { OnOk result (out.new.items ≡ out.old.items ++ call_head names.now line.now reply.now) }
{
    out.extend_from_slice(line)?;
    out.extend_from_slice(b"\nthe rules answer: ")?;
    put_named(out, reply, names)?;
    out.push(b'\n')?;
    Ok(())
}

/// The rules' answer to a call, and the conditions of the call in words.
#[derive(Drop)]
struct Answer {
    reply: Reply,
    told: Vec<u8>,
}

/// The rules' answer to a call, which it makes.
fn answer_to(
    state: &mut PlainState,
    caller: &Caller<'_>,
    call: &Call,
    meter: &mut Meter,
) -> Result<Answer, NoMemory>
    ensures reply { IfOk result (λ given. given.reply ≡ answer (state_of state.old) caller.now.thread call.now) }
    ensures told { IfOk result (λ given. given.told.items
        ≡ flat_map (condition_text caller.now.telling.names.now caller.now.telling.is_whole) (explained (state_of state.old) caller.now.thread call.now)) }
    ensures state { OnOk result (state_of state.new ≡ next (state_of state.old) caller.now.thread call.now) }
{
    // (a type that a reply has, which the proof names)
    let _mapping: Option<Mapping> = None;
    let told = findings_text(state, caller, call, meter)?;
    let reply = step(state, caller.thread, call, meter)?;
    Ok(Answer { reply, told })
}

/// Adds the line that tells a call, by names, the rules' answer, and the conditions.
fn put_answer(
    alloc: Global,
    out: &mut Vec<u8>,
    line: &[u8],
    given: &Answer,
    names: &[Named],
) -> Result<(), NoMemory>
    ensures { OnOk result (out.new.items ≡ out.old.items
        ++ (call_head names.now (named_line names.now line.now) given.now.reply ++ given.now.told.items)) }
{
    let line = named_line(alloc, line, names)?;
    put_head(out, line.as_slice(), &given.reply, names)?;
    out.extend_from_slice(given.told.as_slice())?;
    Ok(())
}

/// Adds why a call is answered as it is, after the line that tells it, and makes the call.
fn put_call(
    out: &mut Vec<u8>,
    line: &[u8],
    state: &mut PlainState,
    caller: &Caller<'_>,
    call: &Call,
    meter: &mut Meter,
) -> Result<(), NoMemory>
    ensures text { OnOk result (out.new.items
        ≡ out.old.items ++ call_explained caller.now.telling.names.now caller.now.telling.is_whole line.now (state_of state.old) caller.now.thread call.now) }
    ensures state { OnOk result (state_of state.new ≡ next (state_of state.old) caller.now.thread call.now) }
{
    // (a type that a reply has, which the proof names)
    let _mapping: Option<Mapping> = None;
    let given = answer_to(state, caller, call, meter)?;
    put_answer(state.alloc(), out, line, &given, caller.telling.names)
}

/// Whether a reply tells a refusal.
fn is_refused(reply: &Reply) -> bool
    ensures { result ≡ is_refused reply.now }
{
    matches!(reply, Reply::Refused(_))
}

/// Why a call is refused, after the line that tells it, and nothing where the rules accept it. Makes the call. Want of memory is
/// the only error.
pub fn refusal_text(
    line: &[u8],
    names: &[Named],
    state: &mut PlainState,
    thread: ObjectId,
    call: &Call,
    meter: &mut Meter,
) -> Result<Vec<u8>, NoMemory>
    ensures text { IfOk result (λ text. text.items
        ≡ refusal_explained names.now line.now (state_of state.old) thread call.now) }
    ensures state { OnOk result (state_of state.new ≡ next (state_of state.old) thread call.now) }
{
    // (a type that a reply has, which the proof names)
    let _mapping: Option<Mapping> = None;
    let telling = Telling {
        names,
        is_whole: false,
    };
    let given = answer_to(state, &Caller { thread, telling }, call, meter)?;
    let mut text = Vec::new(state.alloc());
    if is_refused(&given.reply) {
        put_answer(state.alloc(), &mut text, line, &given, names)?;
    }
    Ok(text)
}

/// Adds why calls are answered as they are, which the lines of a text tell from its first on, and makes them.
fn put_calls(
    out: &mut Vec<u8>,
    text: &[u8],
    state: &mut PlainState,
    caller: &Caller<'_>,
    calls: &[Answered],
    meter: &mut Meter,
) -> Result<(), NoMemory>
    ensures { OnOk result (out.new.items ≡ out.old.items
        ++ calls_explained caller.now.telling.names.now caller.now.telling.is_whole text.now (state_of state.old) caller.now.thread calls.now) }
{
    let mut rest = text;
    for answered in calls {
        let parts = first_line(rest);
        put_call(out, parts.0, state, caller, &answered.call, meter)?;
        rest = parts.1;
    }
    Ok(())
}

/// Why the calls of an event that a place names are answered as they are. The lines of the text tell them from its first on.
#[tactic(auto, using(std::proofs::lemmas::List::take_min, std::proofs::lemmas::List::drop_min))]
fn event_explained(
    text: &[u8],
    telling: &Telling<'_>,
    state: PlainState,
    place: &Place,
    event: &Event,
    meter: &mut Meter,
) -> Result<Vec<u8>, NoMemory>
    ensures { IfOk result (λ told. told.items
        ≡ event_explained telling.now.names.now telling.now.is_whole text.now (state_of state) place.now event.now) }
{
    let mut state = state;
    let caller = Caller {
        thread: event.thread,
        telling: *telling,
    };
    let calls = event.calls.as_slice();
    let (before, rest) = calls.split_at(place.first.min(calls.len()));
    let (asked, _) = rest.split_at(place.count.min(rest.len()));
    make(&mut state, event.thread, before, meter)?;
    let mut out = Vec::new(state.alloc());
    put_calls(&mut out, text, &mut state, &caller, asked, meter)?;
    Ok(out)
}

/// What is asked of a line: its number, from 1, and how it is told.
#[derive(Clone, Copy)]
struct Wanted<'a> {
    line: u64,
    telling: Telling<'a>,
}

/// Why the calls that a line tells are answered as they are, from the state that the events before theirs lead to.
#[tactic(auto, using(std::proofs::lemmas::List::take_min))]
fn calls_explained(
    text: &[u8],
    wanted: &Wanted<'_>,
    state: PlainState,
    events: &[Event],
    place: &Place,
    meter: &mut Meter,
) -> Result<Option<Vec<u8>>, NoMemory>
    ensures { IfOk result (λ told. option_map (λ t. t.items) told
        ≡ place_explained wanted.now.telling.names.now wanted.now.telling.is_whole text.now wanted.now.line (state_of state) events.now (Some (Calls place.now))) }
{
    let Some(event) = events.get(place.event) else {
        return Ok(None);
    };
    let mut state = state;
    let (before, _) = events.split_at(place.event.min(events.len()));
    make_all(&mut state, before, meter)?;
    let above = if place.is_batch {
        wanted.line
    } else {
        wanted.line.saturating_sub(1)
    };
    let told = event_explained(
        after_lines(above, text),
        &wanted.telling,
        state,
        place,
        event,
        meter,
    )?;
    Ok(Some(told))
}

/// Adds why a read is answered as it is, after the line that tells it.
fn put_read(
    out: &mut Vec<u8>,
    line: &[u8],
    state: &PlainState,
    telling: &Telling<'_>,
    read: &Read,
    meter: &mut Meter,
) -> Result<(), NoMemory>
    ensures { OnOk result (out.new.items
        ≡ out.old.items ++ read_explained telling.now.names.now telling.now.is_whole line.now (state_of state.now) read.now) }
{
    // (a type that a reply has, which the proof names)
    let _mapping: Option<Mapping> = None;
    let thread = read.thread;
    let caller = Caller {
        thread,
        telling: *telling,
    };
    let told = query_text(state, &caller, &read.query, meter)?;
    let reply = ask(state, thread, &read.query, meter);
    let given = Answer { reply, told };
    put_answer(state.alloc(), out, line, &given, telling.names)
}

/// Why a read is refused, after the line that tells it, and nothing where the rules answer it. Want of memory is the only
/// error.
pub fn read_refusal_text(
    line: &[u8],
    names: &[Named],
    state: &PlainState,
    read: &Read,
    meter: &mut Meter,
) -> Result<Vec<u8>, NoMemory>
    ensures { IfOk result (λ text. text.items
        ≡ read_refusal_explained names.now line.now (state_of state.now) read.now) }
{
    // (a type that a reply has, which the proof names)
    let _mapping: Option<Mapping> = None;
    let reply = ask(state, read.thread, &read.query, meter);
    let mut text = Vec::new(state.alloc());
    if is_refused(&reply) {
        let telling = Telling {
            names,
            is_whole: false,
        };
        put_read(&mut text, line, state, &telling, read, meter)?;
    }
    Ok(text)
}

/// Why the read that a line tells is answered as it is, from the state that the events before it lead to.
#[tactic(auto, using(std::proofs::lemmas::List::take_min))]
fn read_explained(
    text: &[u8],
    wanted: &Wanted<'_>,
    state: PlainState,
    events: &[Event],
    read: &PlacedRead,
    meter: &mut Meter,
) -> Result<Vec<u8>, NoMemory>
    ensures { IfOk result (λ told. Some told.items
        ≡ place_explained wanted.now.telling.names.now wanted.now.telling.is_whole text.now wanted.now.line (state_of state) events.now (Some (Asked read.now))) }
{
    let mut state = state;
    let (before, _) = events.split_at(read.place.min(events.len()));
    make_all(&mut state, before, meter)?;
    let (line, _) = first_line(after_lines(wanted.line.saturating_sub(1), text));
    let mut out = Vec::new(state.alloc());
    put_read(&mut out, line, &state, &wanted.telling, &read.read, meter)?;
    Ok(out)
}

/// Why what a line tells is answered as it is.
fn content_explained(
    text: &[u8],
    wanted: &Wanted<'_>,
    state: PlainState,
    events: &[Event],
    content: &Content,
    meter: &mut Meter,
) -> Result<Option<Vec<u8>>, NoMemory>
    ensures { IfOk result (λ told. option_map (λ t. t.items) told
        ≡ place_explained wanted.now.telling.names.now wanted.now.telling.is_whole text.now wanted.now.line (state_of state) events.now (Some content.now)) }
{
    match content {
        Content::Calls(place) => calls_explained(text, wanted, state, events, place, meter),
        Content::Asked(read) => {
            let told = read_explained(text, wanted, state, events, read, meter)?;
            Ok(Some(told))
        }
    }
}

/// Why what a line of the dump that was read of a text tells, calls or a read, is answered as it is: the reasons of a refusal, or
/// all conditions. The lines of the text count from 1. The errors come in this order: the checkpoint can't be restored, the line
/// tells no call and no read; or there is no memory.
pub fn why_in(
    alloc: Global,
    text: &[u8],
    dump: &Dump,
    line: u64,
    telling: &Telling<'_>,
) -> Result<Vec<u8>, ShowFault>
    requires { IsDump text.now dump.now }
    ensures { IsWhy telling.now.names.now telling.now.is_whole text.now line result }
{
    let Some(state) = begin(alloc, &dump.limits, &dump.checkpoint)? else {
        return Err(ShowFault::IllFormed);
    };
    let events = dump.events.as_slice();
    let Some(content) = place_at(&dump.checkpoint, events, dump.reads.as_slice(), line) else {
        return Err(ShowFault::NoCall);
    };
    let mut meter = Meter::new(alloc)?;
    let wanted = Wanted {
        line,
        telling: *telling,
    };
    match content_explained(text, &wanted, state, events, &content, &mut meter)? {
        Some(told) => Ok(told),
        None => Err(ShowFault::NoCall),
    }
}

/// The same of the dump that a text spells. Before the other errors comes that the text is no dump.
pub fn why(
    alloc: Global,
    text: &[u8],
    line: u64,
    telling: &Telling<'_>,
) -> Result<Vec<u8>, ShowFault>
    ensures { IsWhy telling.now.names.now telling.now.is_whole text.now line result }
{
    let dump = dump_in(alloc, text)?;
    why_in(alloc, text, &dump, line, telling)
}

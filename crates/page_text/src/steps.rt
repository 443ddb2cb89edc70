//! The steps that a page shows, as JSON.
ghost use Rattle.std.specs.Prelude.{◌≡◌, true, List, [], ◌∷◌, ◌+◌, ◌++◌, ◌^◌, ◌<◌, map, drop, length, IfOk, OnOk};
ghost use Rattle.kernel_rules.specs.Events.{by, calls_in};
ghost use Rattle.shown_dumps.specs.Pieces.{lines_of};
ghost use Rattle.kernel_rules.specs.Runs.{state_after};
ghost use Rattle.kernel_rules.specs.Step.{next};
ghost use Rattle.call_text.specs.NameLines.{named_line};
ghost use Rattle.page_text.specs.Steps.{Told, call_told, read_told, calls_told, heads, head_told, event_told, event_after, Made, Asked, turns, line_count, step_of, steps_from, first_step, steps_of, told_data, step_data};
ghost use Rattle.page_text.specs.Told.{told_in};
ghost use Rattle.plain_state.specs.StateOf.{state_of};
ghost use Rattle.serde_json.specs.View.{view};
ghost use Rattle.shown_dumps.specs.Trees.{named_tree};

use crate::edits::edit_values;
use crate::lines::Before;
use crate::told::{after_told, first_told};
use base::{Meter, NoMemory, ObjectId};
use call_text::Named;
use call_text::names_text::named_line;
use dump_text::{PlacedRead, Read, part_reads};
use kernel_rules::Call;
use kernel_rules::histories::{Answered, Event};
use plain_state::PlainState;
use serde_json::{Value, json, push};
use shown_dumps::json::word_value;
use shown_dumps::tree::named_tree;
use shown_dumps::why::{read_refusal_text, refusal_text};
use std::alloc::Global;

/// A line, by names, and why what it tells is refused, as JSON.
fn told_value(alloc: Global, names: &[Named], line: &[u8], why: &[u8]) -> Result<Value, NoMemory>
    ensures { IfOk result (λ value. view value ≡ told_data (record { line = named_line names.now line.now; why = why.now })) }
{
    let line = named_line(alloc, line, names)?;
    let line = word_value(alloc, line.as_slice())?;
    let why = word_value(alloc, why)?;
    Ok(json!(in alloc; {"line": line, "why": why})?)
}

/// The line of a call, and why it is refused, as JSON. Makes the call.
fn call_value(
    line: &[u8],
    names: &[Named],
    state: &mut PlainState,
    thread: ObjectId,
    call: &Call,
    meter: &mut Meter,
) -> Result<Value, NoMemory>
    ensures value { IfOk result (λ value. view value
        ≡ told_data (call_told names.now line.now (state_of state.old) thread call.now)) }
    ensures state { OnOk result (state_of state.new ≡ next (state_of state.old) thread call.now) }
{
    let why = refusal_text(line, names, state, thread, call, meter)?;
    told_value(state.alloc(), names, line, why.as_slice())
}

/// The lines of a text, and the names by which they are told.
#[derive(Clone, Copy)]
struct Lines<'a> {
    text: &'a [u8],
    names: &'a [Named],
}

/// Adds calls of a thread, which lines tell, and makes them.
fn put_calls(
    values: &mut Vec<Value>,
    lines: &Lines<'_>,
    state: &mut PlainState,
    thread: ObjectId,
    calls: &[Answered],
    meter: &mut Meter,
) -> Result<(), NoMemory>
    ensures values { OnOk result (map view values.new.items ≡ map view values.old.items
        ++ map told_data (calls_told lines.now.names.now (told_in lines.now.text.now) (state_of state.old) thread calls.now)) }
    ensures state { OnOk result (state_of state.new
        ≡ state_after (state_of state.old) (by thread (map (λ a. a.call) calls.now))) }
{
    let mut rest = lines.text;
    for answered in calls {
        let parts = first_told(rest);
        push(
            values,
            call_value(parts.0, lines.names, state, thread, &answered.call, meter)?,
        )?;
        rest = parts.1;
    }
    Ok(())
}

/// How many lines a batch of so many calls has above those of its calls.
fn heads(count: usize) -> usize
    ensures { result ≡ heads count }
{
    if count == 1 { 0 } else { 1 }
}

/// How many lines tell an event.
fn line_count(event: &Event) -> usize
    ensures { result ≡ line_count (Made event.now) }
{
    let count = event.calls.as_slice().len();
    heads(count) + count
}

/// The line above those of the calls of a batch of so many, as JSON, where there is one.
fn head_values(
    alloc: Global,
    names: &[Named],
    count: usize,
    text: &[u8],
) -> Result<Vec<Value>, NoMemory>
    ensures { IfOk result (λ values. map view values.items
        ≡ map told_data (head_told names.now count (told_in text.now))) }
{
    let mut values = Vec::new(alloc);
    if count != 1 {
        push(
            &mut values,
            told_value(alloc, names, first_told(text).0, &[])?,
        )?;
    }
    Ok(values)
}

/// An event, which the lines of a text tell, as JSON. Makes its calls.
fn event_values(
    text: &[u8],
    names: &[Named],
    state: &mut PlainState,
    event: &Event,
    meter: &mut Meter,
) -> Result<Vec<Value>, NoMemory>
    ensures values { IfOk result (λ values. map view values.items
        ≡ map told_data (event_told names.now (told_in text.now) (state_of state.old) event.now)) }
    ensures state { OnOk result (state_of state.new ≡ event_after (state_of state.old) event.now) }
{
    let calls = event.calls.as_slice();
    let mut values = head_values(state.alloc(), names, calls.len(), text)?;
    let rest = after_told(heads(calls.len()), text);
    let lines = Lines { text: rest, names };
    put_calls(&mut values, &lines, state, event.thread, calls, meter)?;
    Ok(values)
}

/// A step as JSON: whether it is a read, what was told, and what makes the tree after it of the one before.
fn step_value(
    before: &Before<'_>,
    is_read: bool,
    told: Vec<Value>,
    after: &[u8],
) -> Result<Value, NoMemory>
    ensures { (lines : List Told) → map view told.items ≡ map told_data lines
        → IfOk result (λ value. view value ≡ step_data before.now.names.now before.now.reached.now
        (record { is_read = is_read; told = lines; before = before.now.tree.now; after = after.now })) }
{
    let edits = Value::Array(edit_values(before, after)?);
    let told = Value::Array(told);
    Ok(json!(in before.alloc; {"edits": edits, "read": is_read, "told": told})?)
}

/// The line of a read, and why it is refused, as JSON.
fn read_value(
    line: &[u8],
    names: &[Named],
    state: &PlainState,
    read: &Read,
    meter: &mut Meter,
) -> Result<Value, NoMemory>
    ensures { IfOk result (λ value. view value ≡ told_data (read_told names.now line.now (state_of state.now) read.now)) }
{
    let alloc = state.alloc();
    let why = read_refusal_text(line, names, state, read, meter)?;
    told_value(alloc, names, line, why.as_slice())
}

/// The step of a read, which this line tells, as JSON. The tree before it is the state's, and stays.
fn asked_value(
    line: &[u8],
    before: &Before<'_>,
    state: &PlainState,
    read: &Read,
    meter: &mut Meter,
) -> Result<Value, NoMemory>
    requires { before.now.tree.now ≡ named_tree before.now.names.now (state_of state.now) }
    ensures { IfOk result (λ value. view value ≡ step_data before.now.names.now before.now.reached.now
        (record {
          is_read = true;
          told = read_told before.now.names.now line.now (state_of state.now) read.now ∷ [];
          before = named_tree before.now.names.now (state_of state.now);
          after = named_tree before.now.names.now (state_of state.now);
        })) }
{
    let mut told = Vec::new(before.alloc);
    push(
        &mut told,
        read_value(line, before.names, state, read, meter)?,
    )?;
    step_value(before, true, told, before.tree)
}

/// Adds a step for each read, which the lines of a text tell. The tree before them is the state's.
fn put_reads(
    values: &mut Vec<Value>,
    text: &[u8],
    before: &Before<'_>,
    state: &PlainState,
    reads: &[PlacedRead],
    meter: &mut Meter,
) -> Result<(), NoMemory>
    requires { before.now.tree.now ≡ named_tree before.now.names.now (state_of state.now) }
    ensures { OnOk result (map view values.new.items ≡ map view values.old.items
        ++ map (step_data before.now.names.now before.now.reached.now)
        (steps_from before.now.names.now (told_in text.now) (state_of state.now) (map Asked reads.now))) }
{
    let mut rest = text;
    for placed in reads {
        let parts = first_told(rest);
        push(
            values,
            asked_value(parts.0, before, state, &placed.read, meter)?,
        )?;
        rest = parts.1;
    }
    Ok(())
}

/// Adds the step of an event, which the lines of a text tell, and makes its calls. The tree before it is the state's, and the
/// answer is the tree after it.
fn put_event(
    values: &mut Vec<Value>,
    text: &[u8],
    before: &Before<'_>,
    state: &mut PlainState,
    event: &Event,
    meter: &mut Meter,
) -> Result<Vec<u8>, NoMemory>
    requires { before.now.tree.now ≡ named_tree before.now.names.now (state_of state.old) }
    ensures values { OnOk result (map view values.new.items ≡ map view values.old.items
        ++ step_data before.now.names.now before.now.reached.now (step_of before.now.names.now (told_in text.now) (state_of state.old) (Made event.now)) ∷ []) }
    ensures state { OnOk result (state_of state.new ≡ event_after (state_of state.old) event.now) }
    ensures tree { IfOk result (λ tree. tree.items ≡ named_tree before.now.names.now (state_of state.new)) }
{
    let told = event_values(text, before.names, state, event, meter)?;
    let after = named_tree(state, before.names)?;
    push(values, step_value(before, false, told, after.as_slice())?)?;
    Ok(after)
}

/// What the steps of a page are made of: the text of the dump, its events and reads, and the objects that are reached.
#[derive(Clone, Copy)]
pub struct Source<'a> {
    /// The text of the dump.
    pub text: &'a [u8],
    /// The names that are known.
    pub names: &'a [Named],
    /// Its events, the oldest first.
    pub events: &'a [Event],
    /// Its reads, in the order of their places.
    pub reads: &'a [PlacedRead],
    /// The objects that are reached.
    pub reached: &'a [ObjectId],
}

/// Adds a step for each event and each read, and makes the events.
fn put_steps(
    values: &mut Vec<Value>,
    source: &Source<'_>,
    state: &mut PlainState,
    meter: &mut Meter,
) -> Result<(), NoMemory>
    ensures { OnOk result (map view values.new.items ≡ map view values.old.items
        ++ map (step_data source.now.names.now source.now.reached.now)
        (steps_from source.now.names.now (told_in source.now.text.now) (state_of state.old) (turns source.now.events.now source.now.reads.now))) }
{
    let alloc = state.alloc();
    let reached = source.reached;
    let mut text = source.text;
    let mut rest = source.reads;
    let names = source.names;
    let mut tree = named_tree(state, names)?;
    for place in 0..source.events.len() {
        let event = &source.events[place];
        let (here, past) = part_reads(place, rest);
        let before = Before {
            alloc,
            names,
            reached,
            tree: tree.as_slice(),
        };
        put_reads(values, text, &before, state, here, meter)?;
        let own = after_told(here.len(), text);
        let after = put_event(values, own, &before, state, event, meter)?;
        text = after_told(line_count(event), own);
        rest = past;
        tree = after;
    }
    let (here, _) = part_reads(source.events.len(), rest);
    let before = Before {
        alloc,
        names,
        reached,
        tree: tree.as_slice(),
    };
    put_reads(values, text, &before, state, here, meter)?;
    Ok(())
}

/// The whole tree, as the first step.
fn first_step(names: &[Named], reached: &[ObjectId], state: &PlainState) -> Result<Value, NoMemory>
    ensures { IfOk result (λ value. view value
        ≡ step_data names.now reached.now (first_step names.now (state_of state.now))) }
{
    let alloc = state.alloc();
    let tree = named_tree(state, names)?;
    let before = Before {
        alloc,
        names,
        reached,
        tree: &[],
    };
    step_value(&before, false, Vec::new(alloc), tree.as_slice())
}

/// The steps of the events of a dump, from a state on, and of the reads among them, as JSON. Want of memory is the only error.
pub fn step_values(
    source: &Source<'_>,
    state: PlainState,
    meter: &mut Meter,
) -> Result<Vec<Value>, NoMemory>
    ensures { IfOk result (λ values. map view values.items ≡ map (step_data source.now.names.now source.now.reached.now)
        (steps_of source.now.names.now (told_in source.now.text.now) (state_of state) (turns source.now.events.now source.now.reads.now))) }
{
    let mut state = state;
    let mut values = Vec::new(state.alloc());
    push(
        &mut values,
        first_step(source.names, source.reached, &state)?,
    )?;
    put_steps(&mut values, source, &mut state, meter)?;
    Ok(values)
}

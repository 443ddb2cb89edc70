//! The page of a dump.
ghost use Rattle.std.specs.Prelude.{◌≡◌, false, List, map, IfOk};
ghost use Rattle.page_text.specs.Page.{value_data, object_data, question_data, flow_data, shown_data, framed, page_text};
ghost use Rattle.page_text.specs.Shown.{IsPage};
ghost use Rattle.page_text.specs.Steps.{Step, turns, steps_of, step_data};
ghost use Rattle.page_text.specs.Told.{told_in};
ghost use Rattle.plain_state.specs.StateOf.{state_of};
ghost use Rattle.serde_json.specs.View.{view};
ghost use Rattle.serde_json.specs.Written.{has_float, compact_text};

use crate::escaping::escaped;
use crate::frame::{HEAD, TAIL};
use crate::lines::named_word;
use crate::steps::{Source, step_values};
use auditor::clean_dumps::begin;
use base::{Category, Meter, NoMemory, ObjectId};
use call_text::Named;
use plain_state::PlainState;
use serde_json::{Value, json, push};
use shown_dumps::dot::{DotFault, red_in};
use shown_dumps::json::word_value;
use shown_dumps::states::{ShowFault, dump_in};
use std::alloc::{AllocError, Global};

/// An object or a category as JSON: its name, or its number.
fn named_value(alloc: Global, names: &[Named], value: &call_text::Value) -> Result<Value, NoMemory>
    ensures { IfOk result (λ told. view told ≡ value_data names.now value.now) }
{
    let word = named_word(alloc, names, value)?;
    Ok(word_value(alloc, word.as_slice())?)
}

/// Objects as JSON.
fn object_values(alloc: Global, names: &[Named], ids: &[ObjectId]) -> Result<Vec<Value>, NoMemory>
    ensures { IfOk result (λ values. map view values.items ≡ map (object_data names.now) ids.now) }
{
    let mut values = Vec::new(alloc);
    for id in ids {
        let value = named_value(alloc, names, &call_text::Value::Object(*id))?;
        push(&mut values, value)?;
    }
    Ok(values)
}

/// A question and what it reaches, as JSON.
fn question_value(
    alloc: Global,
    category: Value,
    from: Value,
    objects: Vec<Value>,
) -> Result<Value, AllocError>
    ensures { IfOk result (λ value. view value ≡ question_data (view category) (view from) (map view objects.items)) }
{
    let reached = Value::Array(objects);
    json!(in alloc; {"category": category, "from": from, "reached": reached})
}

/// The flows that are asked for and what they reach, as JSON.
fn flow_value(
    alloc: Global,
    names: &[Named],
    flow: Option<(ObjectId, Category)>,
    reached: &[ObjectId],
) -> Result<Value, NoMemory>
    ensures { IfOk result (λ value. view value ≡ flow_data names.now flow reached.now) }
{
    let Some(asked) = flow else {
        return Ok(Value::Null);
    };
    let objects = object_values(alloc, names, reached)?;
    let from = named_value(alloc, names, &call_text::Value::Object(asked.0))?;
    let category = named_value(alloc, names, &call_text::Value::Category(asked.1))?;
    Ok(question_value(alloc, category, from, objects)?)
}

/// What the page shows, as JSON.
fn shown_value(
    alloc: Global,
    names: &[Named],
    flow: Option<(ObjectId, Category)>,
    reached: &[ObjectId],
    steps: Vec<Value>,
) -> Result<Value, NoMemory>
    ensures { (list : List Step) → map view steps.items ≡ map (step_data names.now reached.now) list
        → IfOk result (λ value. view value ≡ shown_data names.now flow reached.now list) }
{
    let flow = flow_value(alloc, names, flow, reached)?;
    let steps = Value::Array(steps);
    Ok(json!(in alloc; {"flow": flow, "steps": steps})?)
}

/// JSON as text.
fn value_text(alloc: Global, value: &Value) -> Result<Vec<u8>, NoMemory>
    ensures { IfOk result (λ told. has_float (view value.now) ≡ false → told.items ≡ compact_text (view value.now)) }
{
    Ok(value.to_vec(alloc)?)
}

/// A text of JSON in its page.
fn framed(alloc: Global, text: &[u8]) -> Result<Vec<u8>, NoMemory>
    ensures { IfOk result (λ told. told.items ≡ framed text.now) }
{
    let inner = escaped(alloc, text)?;
    let mut told = Vec::new(alloc);
    told.extend_from_slice(HEAD.as_bytes())?;
    told.extend_from_slice(inner.as_slice())?;
    told.extend_from_slice(TAIL.as_bytes())?;
    Ok(told)
}

/// The page of the events of a dump, from a state on, and of the reads among them.
fn page_of(
    source: &Source<'_>,
    flow: Option<(ObjectId, Category)>,
    state: PlainState,
) -> Result<Vec<u8>, NoMemory>
    ensures { IfOk result (λ told. told.items ≡ page_text (shown_data source.now.names.now flow source.now.reached.now
        (steps_of source.now.names.now (told_in source.now.text.now) (state_of state) (turns source.now.events.now source.now.reads.now)))) }
{
    let alloc = state.alloc();
    let mut meter = Meter::new(alloc)?;
    let steps = step_values(source, state, &mut meter)?;
    let shown = shown_value(alloc, source.names, flow, source.reached, steps)?;
    let told = value_text(alloc, &shown)?;
    framed(alloc, told.as_slice())
}

/// The page of a dump: the tree after each event, the lines of the dump that tell it, each read in its place, and why each
/// refused call or read is refused, with the names that are known. Where flows are asked for, of an object outside a category,
/// each object that they reach is marked. The errors come in this order: the text is no dump, its checkpoint can't be restored,
/// an audit does not find it clean; or there is no memory.
pub fn page(
    alloc: Global,
    text: &[u8],
    flow: Option<(ObjectId, Category)>,
    names: &[Named],
) -> Result<Vec<u8>, DotFault>
    ensures { IsPage names.now flow text.now result }
{
    let dump = match dump_in(alloc, text) {
        Ok(dump) => dump,
        Err(fault) => return Err(DotFault::Unshown(fault)),
    };
    let read = &dump;
    let Some(state) = begin(alloc, &read.limits, &read.checkpoint)? else {
        return Err(DotFault::Unshown(ShowFault::IllFormed));
    };
    let red = red_in(alloc, text, dump, flow)?;
    let shown = &red.dump;
    let source = Source {
        text,
        names,
        events: shown.events.as_slice(),
        reads: shown.reads.as_slice(),
        reached: red.reached.as_slice(),
    };
    Ok(page_of(&source, flow, state)?)
}

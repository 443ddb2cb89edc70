//! The line of an object.
ghost use Rattle.std.specs.Prelude.{◌≡◌, ◌++◌, List, [], OnOk, true, decimal, if◌then◌else◌};
ghost use Rattle.call_text.specs.declared.known_names.Named.{Named as NamedValue};
ghost use Rattle.call_text.specs.ReplyWord.{value_text};
ghost use Rattle.plain_state.specs.StateOf.{state_of};
ghost use Rattle.shown_dumps.specs.Objects.{indent, kind_word, label_text, head_text, owned_one, owned_text, space_text, bearer_text, body_text, quota_text, flags_text, other_one, others_text, own_text, object_text, object_line};

use crate::states::{put_named, put_value};
use crate::tree::deleting::put_deletable;
use crate::tree::looks::Look;
use crate::tree::places::Place;
use base::{Kind, Level, Meter, NoMemory, ObjectId};
use call_text::{Named, Value};
use kernel_rules::{Body, Entry, Object, Reply};
use label_lattice::{Label, Pair, RawLabel};
use plain_state::{PlainState, kind_of};
use text_words::put_number;

/// Adds two spaces for each level.
pub fn put_indent(out: &mut Vec<u8>, depth: usize) -> Result<(), NoMemory>
    ensures { OnOk result (out.new.items ≡ out.old.items ++ indent depth) }
{
    for _ in 0..depth {
        out.extend_from_slice(b"  ")?;
    }
    Ok(())
}

/// The word of a kind, between an id and a label.
fn kind_word(kind: Kind) -> &'static str
    ensures { result.now ≡ kind_word kind }
{
    match kind {
        Kind::Container => " container, ",
        Kind::Segment => " segment, ",
        Kind::AddressSpace => " address space, ",
        Kind::Thread => " thread, ",
        Kind::Gate => " gate, ",
        Kind::Device => " device, ",
    }
}

/// Adds a label, with each category by its name, or by its number where it has none.
fn put_label(out: &mut Vec<u8>, label: &Label, names: &[Named]) -> Result<(), NoMemory>
    ensures { OnOk result (out.new.items ≡ out.old.items ++ label_text names.now label.now) }
{
    put_named(out, &Reply::Label(*label), names)
}

/// Adds words and an object.
fn put_object_after(
    out: &mut Vec<u8>,
    words: &str,
    id: ObjectId,
    names: &[Named],
) -> Result<(), NoMemory>
    ensures { OnOk result (out.new.items ≡ out.old.items ++ (words.now ++ value_text names.now (Value.Object id))) }
{
    out.extend_from_slice(words.as_bytes())?;
    put_value(out, &Value::Object(id), names)
}

/// Adds words and a number.
fn put_numbered(out: &mut Vec<u8>, words: &str, number: u64) -> Result<(), NoMemory>
    ensures { OnOk result (out.new.items ≡ out.old.items ++ (words.now ++ decimal number)) }
{
    out.extend_from_slice(words.as_bytes())?;
    put_number(out, number)?;
    Ok(())
}

/// Adds an object's id, its kind and its label.
fn put_head(
    out: &mut Vec<u8>,
    id: ObjectId,
    object: &Object,
    names: &[Named],
) -> Result<(), NoMemory>
    ensures { OnOk result (out.new.items ≡ out.old.items ++ head_text names.now id object.now) }
{
    put_value(out, &Value::Object(id), names)?;
    out.extend_from_slice(kind_word(kind_of(object)).as_bytes())?;
    put_label(out, &object.label, names)
}

/// Adds a category where it is owned.
fn put_owned_one(out: &mut Vec<u8>, pair: Pair, names: &[Named]) -> Result<(), NoMemory>
    ensures { OnOk result (out.new.items ≡ out.old.items ++ owned_one names.now pair) }
{
    if pair.level.rank() == 0 {
        out.extend_from_slice(b", owns ")?;
        put_value(out, &Value::Category(pair.category), names)
    } else {
        Ok(())
    }
}

/// Adds the categories that a label owns.
fn put_owned(out: &mut Vec<u8>, label: &RawLabel, names: &[Named]) -> Result<(), NoMemory>
    ensures { OnOk result (out.new.items ≡ out.old.items ++ owned_text names.now label.now.pairs) }
{
    for place in 0..label.pairs.len() {
        put_owned_one(out, label.pairs.pair_at(place), names)?;
    }
    Ok(())
}

/// Adds an address space, where there is one.
fn put_space(out: &mut Vec<u8>, space: &Entry, names: &[Named]) -> Result<(), NoMemory>
    ensures { OnOk result (out.new.items ≡ out.old.items ++ space_text names.now space.now) }
{
    if space.names_none() {
        return Ok(());
    }
    put_object_after(out, ", space ", space.container, names)?;
    put_object_after(out, " ", space.object, names)
}

/// Adds the clearance of a thread or of a gate, and its address space where it has one.
fn put_bearer(
    out: &mut Vec<u8>,
    clearance: &Label,
    space: &Entry,
    names: &[Named],
) -> Result<(), NoMemory>
    ensures { OnOk result (out.new.items ≡ out.old.items ++ bearer_text names.now clearance.now space.now) }
{
    out.extend_from_slice(b", clearance ")?;
    put_label(out, clearance, names)?;
    put_space(out, space, names)
}

/// Adds what a thread and a gate have beside other objects.
fn put_body(out: &mut Vec<u8>, body: &Body, names: &[Named]) -> Result<(), NoMemory>
    ensures { OnOk result (out.new.items ≡ out.old.items ++ body_text names.now body.now) }
{
    match body {
        Body::Thread(thread) => put_bearer(out, &thread.clearance, &thread.space, names),
        Body::Gate(gate) => put_bearer(out, &gate.clearance, &gate.space, names),
        Body::Container(_, _) => Ok(()),
        Body::Segment(_) => Ok(()),
        Body::AddressSpace(_) => Ok(()),
        Body::Device(_) => Ok(()),
    }
}

/// Adds what stands of the object alone.
fn put_own(
    out: &mut Vec<u8>,
    id: ObjectId,
    object: &Object,
    names: &[Named],
    meter: &mut Meter,
) -> Result<(), NoMemory>
    ensures { OnOk result (out.new.items ≡ out.old.items ++ own_text names.now id object.now) }
{
    put_head(out, id, object, names)?;
    put_owned(out, &object.label.to_raw(meter), names)?;
    put_body(out, &object.body, names)
}

/// Adds a quota, and how much of it is used, in pages of 256 bytes.
fn put_quota(out: &mut Vec<u8>, quota: u32, used: u32) -> Result<(), NoMemory>
    ensures { OnOk result (out.new.items ≡ out.old.items ++ quota_text quota used) }
{
    put_numbered(out, ", quota ", u64::from(quota))?;
    put_numbered(out, ", used ", u64::from(used))
}

/// Words, where they are so.
fn words_if(is_so: bool, words: &'static str) -> &'static str
    ensures { result.now ≡ (if is_so then words.now else []) }
{
    if is_so { words } else { "" }
}

/// Adds whether the quota is fixed, and whether the object is read-only for good.
fn put_flags(out: &mut Vec<u8>, fixed: bool, immutable: bool) -> Result<(), NoMemory>
    ensures { OnOk result (out.new.items ≡ out.old.items ++ flags_text fixed immutable) }
{
    out.extend_from_slice(words_if(fixed, ", fixed").as_bytes())?;
    out.extend_from_slice(words_if(immutable, ", immutable").as_bytes())?;
    Ok(())
}

/// Adds a container where it is another one that lists the object.
fn put_other(
    out: &mut Vec<u8>,
    state: &PlainState,
    place: &Place,
    container: ObjectId,
    names: &[Named],
) -> Result<(), NoMemory>
    ensures { OnOk result (out.new.items
        ≡ out.old.items ++ other_one names.now (state_of state.now) place.now container) }
{
    if state.lists(container, place.id) && container != place.container {
        put_object_after(out, ", also in ", container, names)
    } else {
        Ok(())
    }
}

/// Whether no other container can list the object at a place: one whose quota is not fixed stands in one list.
fn is_listed_once(state: &PlainState, place: &Place) -> bool
    ensures { result ≡ true → (names : List NamedValue) → others_text names (state_of state.now) place.now ≡ [] }
{
    state.well_formed();
    match state.object(place.id) {
        None => false,
        Some(object) => !object.fixed && state.lists(place.container, place.id),
    }
}

/// Adds the other containers that list the object.
fn put_others(
    out: &mut Vec<u8>,
    state: &PlainState,
    place: &Place,
    names: &[Named],
) -> Result<(), NoMemory>
    ensures { OnOk result (out.new.items
        ≡ out.old.items ++ others_text names.now (state_of state.now) place.now) }
{
    if is_listed_once(state, place) {
        return Ok(());
    }
    for (id, _) in state.records().objects.iter() {
        put_other(out, state, place, *id, names)?;
    }
    Ok(())
}

/// Adds what is told of an object, which the state has at a place, with the names that are known. The error is want of memory.
pub fn put_object(
    out: &mut Vec<u8>,
    state: &PlainState,
    place: &Place,
    object: &Object,
    names: &[Named],
    meter: &mut Meter,
) -> Result<(), NoMemory>
    ensures { OnOk result (out.new.items
        ≡ out.old.items ++ object_text names.now (state_of state.now) place.now object.now) }
{
    put_own(out, place.id, object, names, meter)?;
    put_quota(out, object.quota, state.used_pages(place.id))?;
    put_flags(out, object.fixed, object.immutable)?;
    put_others(out, state, place, names)?;
    Ok(())
}

/// Adds the line of an object, which the state has at a place. The error is want of memory.
pub fn put_line(
    out: &mut Vec<u8>,
    state: &PlainState,
    place: &Place,
    object: &Object,
    look: &Look<'_>,
    meter: &mut Meter,
) -> Result<(), NoMemory>
    ensures { OnOk result (out.new.items
        ≡ out.old.items ++ object_line look.now.names.now look.now.asked (state_of state.now) place.now object.now) }
{
    put_indent(out, place.depth)?;
    put_object(out, state, place, object, look.names, meter)?;
    put_deletable(out, state, look.asked, place.id, meter)?;
    out.push(b'\n')?;
    Ok(())
}

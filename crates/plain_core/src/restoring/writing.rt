//! A state as a checkpoint writes it down.
ghost use Rattle.std.specs.Prelude.{◌≡◌, true, false, ◌==◌, ◌++◌, ◌+◌, ◌≤◌, length, replicate, IfOk, OnOk, map, ◌&&◌};
ghost use Rattle.std.specs.List.{list_all};
ghost use Rattle.kernel_rules.specs.Sizes.{most_bytes};
ghost use Rattle.checkpoints.specs.Reached.{is_plain};
ghost use Rattle.checkpoints.specs.Restorable.{each, has_slots, filled_in};
ghost use Rattle.checkpoints.specs.Restored.{as_written, slotted, body_of, immutable_of, metadata_of, object_of, restored};
ghost use Rattle.plain_state.specs.Recorded.{records_state};
ghost use Rattle.plain_state.specs.StateOf.{state_of};
ghost use Rattle.plain_core.specs.Numbered.{filled_from};
ghost use Rattle.kernel_rules.specs.declared.objects.Body.TheVariants as is;

use crate::restoring::building::{list_of, packets_of};
use base::{Meter, NoMemory, ObjectId};
use checkpoints::{
    Attributes, Checkpoint, FilledSlot, NextNumber, RawBody, RawGate, RawObject, RawThread,
    Recorded, SlotList,
};
use kernel_rules::{Body, Bytes, Gate, Mapping, Object, Thread};
use plain_state::{PlainState, Records};
use std::alloc::Global;
use std::collections::BTreeMap;

/// Adds the filled ones of slots, the first of which has this number.
fn fill(filled: &mut SlotList, slot: u32, slots: &[Option<Mapping>]) -> Result<(), NoMemory>
    requires { slot + length slots.now ≤ 16 }
    ensures { OnOk result (filled.new ≡ filled.old ++ filled_from slot slots.now) }
{
    match slots {
        [] => Ok(()),
        [None, rest @ ..] => fill(filled, slot + 1, rest),
        [Some(mapping), rest @ ..] => {
            filled.push(FilledSlot {
                slot,
                mapping: *mapping,
            })?;
            fill(filled, slot + 1, rest)
        }
    }
}

fn filled_of(alloc: Global, slots: &[Option<Mapping>]) -> Result<SlotList, NoMemory>
    requires { length slots.now ≡ 16 }
    ensures slots { IfOk result (λ filled. slotted filled ≡ slots.now) }
    ensures rise { IfOk result (λ filled. has_slots filled ≡ true) }
{
    let mut filled = SlotList::new(alloc);
    fill(&mut filled, 0, slots)?;
    Ok(filled)
}

fn thread_of(thread: &Thread, meter: &mut Meter) -> RawBody
    ensures value { body_of result ≡ is.Thread thread.now }
    ensures immutable { immutable_of result ≡ false }
    ensures metadata { metadata_of result ≡ replicate most_bytes 0 }
    ensures slots { has_slots (filled_in result) ≡ true }
{
    RawBody::Thread(RawThread {
        clearance: thread.clearance.to_raw(meter),
        verify: thread.verify.to_raw(meter),
        space: thread.space,
        entry_point: thread.entry_point,
        closure: thread.closure,
    })
}

fn gate_of(gate: &Gate, meter: &mut Meter) -> RawGate
    ensures { record {
      clearance = as_written result.clearance;
      space = result.space;
      entry_point = result.entry_point;
      closure = result.closure;
    } ≡ gate.now }
{
    RawGate {
        clearance: gate.clearance.to_raw(meter),
        space: gate.space,
        entry_point: gate.entry_point,
        closure: gate.closure,
    }
}

/// What an object is by its kind, with the flag and the metadata where its kind has them.
fn written_body(alloc: Global, object: &Object, meter: &mut Meter) -> Result<RawBody, NoMemory>
    requires plain { is_plain object.now ≡ true }
    requires whole { length object.now.metadata ≡ most_bytes }
    ensures value { IfOk result (λ written. body_of written ≡ object.now.body) }
    ensures immutable { IfOk result (λ written. immutable_of written ≡ object.now.immutable) }
    ensures metadata { IfOk result (λ written. metadata_of written ≡ object.now.metadata) }
    ensures slots { IfOk result (λ written. has_slots (filled_in written) ≡ true) }
{
    let attributes = Attributes {
        immutable: object.immutable,
        metadata: object.metadata,
    };
    match &object.body {
        Body::Container(avoid, list) => Ok(RawBody::Container(
            attributes,
            *avoid,
            list_of(alloc, list.as_slice())?,
        )),
        Body::Segment(bytes) => Ok(RawBody::Segment(
            attributes,
            Bytes::copied(alloc, bytes.as_slice())?,
        )),
        Body::AddressSpace(slots) => Ok(RawBody::AddressSpace(
            attributes,
            filled_of(alloc, &slots.slots)?,
        )),
        Body::Thread(thread) => Ok(thread_of(thread, meter)),
        Body::Gate(gate) => Ok(RawBody::Gate(attributes, gate_of(gate, meter))),
        Body::Device(packets) => Ok(RawBody::Device(
            object.metadata,
            packets_of(alloc, packets.as_slice())?,
        )),
    }
}

fn written(alloc: Global, object: &Object, meter: &mut Meter) -> Result<RawObject, NoMemory>
    requires plain { is_plain object.now ≡ true }
    requires whole { length object.now.metadata ≡ most_bytes }
    ensures value { IfOk result (λ written. object_of written ≡ object.now) }
    ensures slots { IfOk result (λ written. has_slots (filled_in written.body) ≡ true) }
{
    let body = written_body(alloc, object, meter)?;
    Ok(RawObject {
        label: object.label.to_raw(meter),
        quota: object.quota,
        fixed: object.fixed,
        body,
    })
}

fn written_objects(
    alloc: Global,
    objects: &BTreeMap<ObjectId, Object>,
    meter: &mut Meter,
) -> Result<Vec<Recorded>, NoMemory>
    requires plain { list_all (λ e. is_plain e.1) objects.now.entries ≡ true }
    requires whole { list_all (λ e. length e.1.metadata == most_bytes) objects.now.entries ≡ true }
    ensures value { IfOk result (λ all. map (λ e. (e.id, object_of e.object)) all.items ≡ objects.now.entries) }
    ensures slots { IfOk result (λ all. list_all (λ e. has_slots (filled_in e.object.body)) all.items ≡ true) }
{
    let mut all = Vec::new(alloc);
    for (id, object) in objects.iter() {
        let object = written(alloc, object, meter)?;
        all.push(Recorded { id: *id, object })?;
    }
    Ok(all)
}

/// The checkpoint that writes down a state, with these numbers. In the state no thread or device is read-only for good, and
/// no thread's metadata were set, as calls leave it. The error is want of memory.
pub fn write(
    alloc: Global,
    state: &PlainState,
    next: Vec<NextNumber>,
    meter: &mut Meter,
) -> Result<Checkpoint, NoMemory>
    requires { each is_plain (state_of state.now) ≡ true }
    ensures value { IfOk result (λ written. restored (state_of state.now).limits written ≡ state_of state.now) }
    ensures slots { IfOk result (λ written.
        list_all (λ e. has_slots (filled_in e.object.body)) written.objects ≡ true) }
    ensures next { IfOk result (λ written. written.next ≡ next.items) }
{
    state.well_formed();
    let records = state.records();
    let objects = written_objects(alloc, &records.objects, meter)?;
    Ok(Checkpoint {
        next_id: records.next_id,
        next_category: records.next_category,
        objects,
        next,
    })
}

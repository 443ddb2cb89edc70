//! Objects as their own lines and their parts, and what the lines tell one by one.
ghost use Rattle.std.specs.Prelude.{◌≡◌, ◌++◌, ◌∷◌, [], Some, IfOk, OnOk};
ghost use Rattle.dump_text.specs.CheckpointLines.{common_of, head_with, head_of, begun_body, begun};
ghost use Rattle.dump_text.specs.CheckpointLines.{common_in, recorded, with_entry, with_row};
ghost use Rattle.dump_text.specs.CheckpointLines.{with_slot, with_packet, with_part, with_last};
ghost use Rattle.dump_text.specs.CheckpointLines.{with_state};

use crate::heads::{
    Common, ContainerHead, DeviceHead, GateHead, Head, SegmentHead, SpaceHead, ThreadHead,
};
use crate::state_lines::{ObjectHead, Part, StateLine};
use base::{Data, ObjectId};
use checkpoints::{Checkpoint, FilledSlot, RawBody, RawObject, Recorded, SlotList};
use kernel_rules::{Bytes, IdList, Packets};
use std::alloc::{AllocError, Global};

/// What the object has, whatever its kind.
fn common_of(object: &RawObject) -> Common
    ensures { result ≡ common_of object.now }
{
    Common {
        label: object.label,
        quota: object.quota,
        fixed: object.fixed,
    }
}

/// What stands of an object in its own line, by its kind.
fn head_with(common: Common, body: &RawBody) -> Head
    ensures { result ≡ head_with common body.now }
{
    match body {
        RawBody::Container(attributes, avoid, _) => Head::Container(ContainerHead {
            common,
            attributes: *attributes,
            avoid: *avoid,
        }),
        RawBody::Segment(attributes, bytes) => Head::Segment(SegmentHead {
            common,
            attributes: *attributes,
            pages: bytes.as_slice().len() / 256,
        }),
        RawBody::AddressSpace(attributes, _) => Head::AddressSpace(SpaceHead {
            common,
            attributes: *attributes,
        }),
        RawBody::Thread(thread) => Head::Thread(ThreadHead {
            common,
            thread: *thread,
        }),
        RawBody::Gate(attributes, gate) => Head::Gate(GateHead {
            common,
            attributes: *attributes,
            gate: *gate,
        }),
        RawBody::Device(metadata, _) => Head::Device(DeviceHead {
            common,
            metadata: *metadata,
        }),
    }
}

/// What stands of the object in its own line.
pub fn head_of(recorded: &Recorded) -> ObjectHead
    ensures { result ≡ head_of recorded.now }
{
    ObjectHead {
        id: recorded.id,
        head: head_with(common_of(&recorded.object), &recorded.object.body),
    }
}

/// What an object has, whatever its kind.
fn common_in(head: &Head) -> Common
    ensures { result ≡ common_in head.now }
{
    match head {
        Head::Container(container) => container.common,
        Head::Segment(segment) => segment.common,
        Head::AddressSpace(space) => space.common,
        Head::Thread(thread) => thread.common,
        Head::Gate(gate) => gate.common,
        Head::Device(device) => device.common,
    }
}

/// An object of which no part was told yet, by its kind.
fn begun_body(alloc: Global, head: &Head) -> Result<RawBody, AllocError>
    ensures { IfOk result (λ body. body ≡ begun_body head.now) }
{
    match head {
        Head::Container(container) => Ok(RawBody::Container(
            container.attributes,
            container.avoid,
            IdList::new(alloc),
        )),
        Head::Segment(segment) => {
            let bytes = Bytes::copied(alloc, &[])?;
            Ok(RawBody::Segment(segment.attributes, bytes))
        }
        Head::AddressSpace(space) => Ok(RawBody::AddressSpace(
            space.attributes,
            SlotList::new(alloc),
        )),
        Head::Thread(thread) => Ok(RawBody::Thread(thread.thread)),
        Head::Gate(gate) => Ok(RawBody::Gate(gate.attributes, gate.gate)),
        Head::Device(device) => Ok(RawBody::Device(device.metadata, Packets::new(alloc))),
    }
}

/// An object with its id and what any object has.
fn recorded(id: ObjectId, common: Common, body: RawBody) -> Recorded
    ensures { result ≡ recorded id common body }
{
    Recorded {
        id,
        object: RawObject {
            label: common.label,
            quota: common.quota,
            fixed: common.fixed,
            body,
        },
    }
}

/// An object of which no part was told yet.
fn begun(alloc: Global, object: &ObjectHead) -> Result<Recorded, AllocError>
    ensures { IfOk result (λ r. r ≡ begun object.now) }
{
    let body = begun_body(alloc, &object.head)?;
    Ok(recorded(object.id, common_in(&object.head), body))
}

/// With one more id that it lists, where it is a container.
fn with_entry(id: ObjectId, body: RawBody) -> Result<RawBody, AllocError>
    ensures { IfOk result (λ more. more ≡ with_entry id body) }
{
    match body {
        RawBody::Container(attributes, avoid, mut list) => {
            list.push(id)?;
            Ok(RawBody::Container(attributes, avoid, list))
        }
        other => Ok(other),
    }
}

/// The bytes, and the row after them.
fn joined(alloc: Global, bytes: &Bytes, row: &Data) -> Result<Bytes, AllocError>
    ensures { IfOk result (λ all. all ≡ bytes.now ++ row.now) }
{
    let mut all = Vec::new(alloc);
    all.extend_from_slice(bytes.as_slice())?;
    all.extend_from_slice(row.as_slice())?;
    Bytes::copied(alloc, all.as_slice())
}

/// With more bytes, where it is a segment.
fn with_row(alloc: Global, row: &Data, body: RawBody) -> Result<RawBody, AllocError>
    ensures { IfOk result (λ more. more ≡ with_row row.now body) }
{
    match body {
        RawBody::Segment(attributes, bytes) => {
            let all = joined(alloc, &bytes, row)?;
            Ok(RawBody::Segment(attributes, all))
        }
        other => Ok(other),
    }
}

/// With one more filled slot, where it is an address space.
fn with_slot(slot: FilledSlot, body: RawBody) -> Result<RawBody, AllocError>
    ensures { IfOk result (λ more. more ≡ with_slot slot body) }
{
    match body {
        RawBody::AddressSpace(attributes, mut slots) => {
            slots.push(slot)?;
            Ok(RawBody::AddressSpace(attributes, slots))
        }
        other => Ok(other),
    }
}

/// With one more packet, where it is a device.
fn with_packet(packet: Data, body: RawBody) -> Result<RawBody, AllocError>
    ensures { IfOk result (λ more. more ≡ with_packet packet body) }
{
    match body {
        RawBody::Device(metadata, mut packets) => {
            packets.push(packet)?;
            Ok(RawBody::Device(metadata, packets))
        }
        other => Ok(other),
    }
}

/// With one more part, where it has such.
fn with_part(alloc: Global, part: &Part, body: RawBody) -> Result<RawBody, AllocError>
    ensures { IfOk result (λ more. more ≡ with_part part.now body) }
{
    match part {
        Part::Entry(id) => with_entry(*id, body),
        Part::Row(row) => with_row(alloc, &row.bytes, body),
        Part::Slot(slot) => with_slot(*slot, body),
        Part::Packet(packet) => with_packet(*packet, body),
    }
}

/// Adds a part to the last object.
fn add_part(alloc: Global, objects: &mut Vec<Recorded>, part: &Part) -> Result<(), AllocError>
    ensures { OnOk result (objects.new.items ≡ with_last part.now objects.old.items) }
{
    if let Some(last) = objects.pop() {
        let common = common_of(&last.object);
        let body = with_part(alloc, part, last.object.body)?;
        objects.push(recorded(last.id, common, body))?;
    }
    Ok(())
}

/// Adds an object of which no part was told yet.
fn add_object(
    alloc: Global,
    objects: &mut Vec<Recorded>,
    object: &ObjectHead,
) -> Result<(), AllocError>
    ensures { OnOk result (objects.new.items ≡ objects.old.items ++ begun object.now ∷ []) }
{
    let object = begun(alloc, object)?;
    objects.push(object)?;
    Ok(())
}

/// Adds to a checkpoint what a line other than that of the counters tells.
fn add_to(alloc: Global, checkpoint: &mut Checkpoint, line: &StateLine) -> Result<(), AllocError>
    ensures { OnOk result (Some checkpoint.new ≡ with_state line.now (Some checkpoint.old)) }
{
    match line {
        StateLine::Counters(counters) => {
            checkpoint.next_id = counters.next_id;
            checkpoint.next_category = counters.next_category;
            checkpoint.objects = Vec::new(alloc);
            checkpoint.next = Vec::new(alloc);
        }
        StateLine::Object(object) => add_object(alloc, &mut checkpoint.objects, object)?,
        StateLine::Part(part) => add_part(alloc, &mut checkpoint.objects, part)?,
        StateLine::Next(number) => checkpoint.next.push(*number)?,
    }
    Ok(())
}

/// The checkpoint with what one more line tells.
pub fn with_state(
    alloc: Global,
    line: &StateLine,
    checkpoint: Option<Checkpoint>,
) -> Result<Option<Checkpoint>, AllocError>
    ensures { IfOk result (λ more. more ≡ with_state line.now checkpoint) }
{
    if let Some(mut checkpoint) = checkpoint {
        add_to(alloc, &mut checkpoint, line)?;
        return Ok(Some(checkpoint));
    }
    match line {
        StateLine::Counters(counters) => Ok(Some(Checkpoint {
            next_id: counters.next_id,
            next_category: counters.next_category,
            objects: Vec::new(alloc),
            next: Vec::new(alloc),
        })),
        _ => Ok(None),
    }
}

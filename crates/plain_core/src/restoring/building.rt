//! Records built of a checkpoint's objects as they are written.
ghost use Rattle.std.specs.Prelude.{◌≡◌, true, IfOk, IfSome, Some, None, is_some, map, nat_le, if◌then◌else◌};
ghost use Rattle.std.specs.List.{list_all};
ghost use Rattle.kernel_rules.specs.Sizes.{last_slot};
ghost use Rattle.kernel_rules.specs.WellFormed.{ids_rise};
ghost use Rattle.checkpoints.specs.Restored.{slotted, body_of, immutable_of, metadata_of, object_of, restored};
ghost use Rattle.plain_state.specs.Recorded.{records_state};
ghost use Rattle.plain_core.specs.Written.{is_written, is_written_body};
ghost use Rattle.checkpoints.specs.Restorable.{has_slots};
ghost use Rattle.checkpoints.specs.Restored.{as_written};
ghost use Rattle.kernel_rules.specs.WellFormed.{is_stored};
ghost use Rattle.checkpoints.specs.declared.checkpoints.RawBody.TheVariants as written;
ghost use Rattle.checkpoints.specs.declared.checkpoints.Recorded.{Recorded};
ghost use Rattle.kernel_rules.specs.declared.objects.Body.TheVariants as is;

use crate::restoring::labels::stored;
use crate::restoring::tests_of_order::has_slots;
use base::{Data, Limits, Meter, NoMemory, ObjectId};
use checkpoints::{Checkpoint, FilledSlot, RawBody, RawGate, RawObject, RawThread, Recorded};
use kernel_rules::{Body, Bytes, Gate, IdList, Object, Packets, Slots, Thread};
use plain_state::Records;
use std::alloc::Global;
use std::collections::BTreeMap;

/// The sixteen slots, of which these are filled.
fn slots_of(filled: &[FilledSlot]) -> Slots
    requires { list_all (λ f. nat_le f.slot last_slot) filled.now ≡ true }
    ensures { result ≡ record { slots = slotted filled.now } }
{
    match filled {
        [] => Slots::empty(),
        [first, rest @ ..] => {
            let mut slots = slots_of(rest);
            slots.set(first.slot as usize, Some(first.mapping));
            slots
        }
    }
}

pub(crate) fn list_of(alloc: Global, ids: &[ObjectId]) -> Result<IdList, NoMemory>
    ensures { IfOk result (λ list. list ≡ ids.now) }
{
    let mut list = IdList::new(alloc);
    for id in ids {
        list.push(*id)?;
    }
    Ok(list)
}

pub(crate) fn packets_of(alloc: Global, waiting: &[Data]) -> Result<Packets, NoMemory>
    ensures { IfOk result (λ packets. packets ≡ waiting.now) }
{
    let mut packets = Packets::new(alloc);
    for packet in waiting {
        packets.push(*packet)?;
    }
    Ok(packets)
}

fn thread_of(raw: &RawThread, meter: &mut Meter) -> Option<Body>
    ensures { result ≡ (if is_written_body (written.Thread raw.now) then Some (body_of (written.Thread raw.now)) else None) }
{
    let clearance = stored(&raw.clearance, meter)?;
    let verify = stored(&raw.verify, meter)?;
    Some(Body::Thread(Thread {
        clearance,
        verify,
        space: raw.space,
        entry_point: raw.entry_point,
        closure: raw.closure,
    }))
}

fn gate_of(raw: &RawGate, meter: &mut Meter) -> Option<Body>
    ensures { result ≡ (if is_stored (as_written raw.now.clearance) then Some (is.Gate (record {
      clearance = as_written raw.now.clearance;
      space = raw.now.space;
      entry_point = raw.now.entry_point;
      closure = raw.now.closure;
    })) else None) }
{
    let clearance = stored(&raw.clearance, meter)?;
    Some(Body::Gate(Gate {
        clearance,
        space: raw.space,
        entry_point: raw.entry_point,
        closure: raw.closure,
    }))
}

fn space_of(filled: &[FilledSlot]) -> Option<Body>
    ensures { result ≡ (if has_slots filled.now then Some (is.AddressSpace (record { slots = slotted filled.now })) else None) }
{
    if has_slots(filled) {
        Some(Body::AddressSpace(slots_of(filled)))
    } else {
        None
    }
}

fn body_of(alloc: Global, body: &RawBody, meter: &mut Meter) -> Result<Option<Body>, NoMemory>
    ensures { IfOk result (λ built. built
        ≡ (if is_written_body body.now then Some (body_of body.now) else None)) }
{
    match body {
        RawBody::Container(_, avoid, list) => {
            Ok(Some(Body::Container(*avoid, list_of(alloc, list.as_slice())?)))
        }
        RawBody::Segment(_, bytes) => {
            Ok(Some(Body::Segment(Bytes::copied(alloc, bytes.as_slice())?)))
        }
        RawBody::AddressSpace(_, filled) => Ok(space_of(filled.as_slice())),
        RawBody::Thread(thread) => Ok(thread_of(thread, meter)),
        RawBody::Gate(_, gate) => Ok(gate_of(gate, meter)),
        RawBody::Device(_, packets) => {
            Ok(Some(Body::Device(packets_of(alloc, packets.as_slice())?)))
        }
    }
}

fn is_immutable(body: &RawBody) -> bool
    ensures { result ≡ immutable_of body.now }
{
    match body {
        RawBody::Container(attributes, _, _) => attributes.immutable,
        RawBody::Segment(attributes, _) => attributes.immutable,
        RawBody::AddressSpace(attributes, _) => attributes.immutable,
        RawBody::Gate(attributes, _) => attributes.immutable,
        RawBody::Thread(_) => false,
        RawBody::Device(_, _) => false,
    }
}

fn metadata_of(body: &RawBody) -> Data
    ensures { result ≡ metadata_of body.now }
{
    match body {
        RawBody::Container(attributes, _, _) => attributes.metadata,
        RawBody::Segment(attributes, _) => attributes.metadata,
        RawBody::AddressSpace(attributes, _) => attributes.metadata,
        RawBody::Gate(attributes, _) => attributes.metadata,
        RawBody::Thread(_) => Data::from_slice(&[0; 64]),
        RawBody::Device(metadata, _) => *metadata,
    }
}

/// The object as it is written, where its labels are written as stored ones and its slots rise up to
/// 15. The error is want of memory.
fn object_of(alloc: Global, raw: &RawObject, meter: &mut Meter) -> Result<Option<Object>, NoMemory>
    ensures { IfOk result (λ built. built ≡ (if is_written raw.now then Some (object_of raw.now) else None)) }
{
    let Some(label) = stored(&raw.label, meter) else {
        return Ok(None);
    };
    let Some(body) = body_of(alloc, &raw.body, meter)? else {
        return Ok(None);
    };
    Ok(Some(Object {
        label,
        quota: raw.quota,
        fixed: raw.fixed,
        immutable: is_immutable(&raw.body),
        metadata: metadata_of(&raw.body),
        body,
    }))
}

fn objects_of(
    alloc: Global,
    objects: &[Recorded],
    meter: &mut Meter,
) -> Result<Option<BTreeMap<ObjectId, Object>>, NoMemory>
    requires { ids_rise (map (λ e. (e.id, object_of e.object)) objects.now) ≡ true }
    ensures state { IfOk result (λ built. IfSome built (λ all. all.entries
        ≡ map (λ e. (e.id, object_of e.object)) objects.now)) }
    ensures written { IfOk result (λ built. is_some built
        ≡ list_all (λ e. is_written e.object) objects.now) }
{
    let mut built = BTreeMap::new(alloc);
    for recorded in objects {
        let Some(object) = object_of(alloc, &recorded.object, meter)? else {
            return Ok(None);
        };
        built.insert(recorded.id, object)?;
    }
    Ok(Some(built))
}

/// The records that a checkpoint of rising ids writes down, where each of its objects can be built. The
/// error is want of memory.
pub fn build(
    alloc: Global,
    limits: &Limits,
    checkpoint: &Checkpoint,
    meter: &mut Meter,
) -> Result<Option<Records>, NoMemory>
    requires { ids_rise (restored limits.now checkpoint.now).objects ≡ true }
    ensures state { IfOk result (λ built. IfSome built (λ records. records_state records
        ≡ restored limits.now checkpoint.now)) }
    ensures written { IfOk result (λ built. is_some built
        ≡ list_all (λ e. is_written e.object) checkpoint.now.objects) }
{
    let Some(objects) = objects_of(alloc, &checkpoint.objects, meter)? else {
        return Ok(None);
    };
    Ok(Some(Records {
        limits: *limits,
        objects,
        next_id: checkpoint.next_id,
        next_category: checkpoint.next_category,
    }))
}

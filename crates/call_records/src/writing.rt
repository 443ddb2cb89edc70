//! The record of a call: each call and each query has one.
ghost use Rattle.std.specs.Prelude.{◌≡◌, ◌<◌, Some, length};
ghost use Rattle.kernel_rules.specs.declared.calls.Call.TheVariants as calls;
ghost use Rattle.call_records.specs.Calls.{call_of};
ghost use Rattle.call_records.specs.Queries.{query_of};
ghost use Rattle.call_records.specs.Words.{bytes_of, kinds_of, rights_of};

mod creations;

use crate::answers::bit;
use crate::labels::put_raw;
use crate::records::Request;
use base::{Data, ObjectId, Rights, TypeSet};
use creations::{put_container, put_copy, put_gate, put_segment, put_space, put_thread};
use kernel_rules::{Call, Entry, Mapping, Query};

/// The number of a set of kinds.
fn kinds_number(kinds: TypeSet) -> u64
    ensures { kinds_of result ≡ Some kinds }
{
    bit(kinds.container)
        + 2 * bit(kinds.segment)
        + 4 * bit(kinds.address_space)
        + 8 * bit(kinds.thread)
        + 16 * bit(kinds.gate)
        + 32 * bit(kinds.device)
}

/// The number of rights.
pub(crate) fn rights_number(rights: Rights) -> u64
    ensures { rights_of result ≡ Some rights }
{
    bit(rights.read) + 2 * bit(rights.write)
}

/// Writes the number of a call, its first entry and its numbers.
fn put(call: u32, entry: &Entry, numbers: [u64; 5], request: &mut Request)
    ensures { request.new ≡ record request.old {
      call = call;
      container = entry.now.container;
      object = entry.now.object;
      numbers = numbers;
    } }
{
    request.call = call;
    request.container = entry.container.number();
    request.object = entry.object.number();
    request.numbers = numbers;
}

/// Writes the second entry.
fn put_other(entry: &Entry, request: &mut Request)
    ensures { request.new ≡ record request.old {
      other_container = entry.now.container;
      other_object = entry.now.object;
    } }
{
    request.other_container = entry.container.number();
    request.other_object = entry.object.number();
}

/// Writes the bytes.
fn put_bytes(bytes: &Data, request: &mut Request)
    ensures value { bytes_of request.new ≡ Some bytes.now }
    ensures rest { request.new ≡ record request.old {
      len = request.new.len;
      bytes = request.new.bytes;
    } }
{
    let bytes = bytes.as_slice();
    request.len = bytes.len() as u32;
    request.bytes[..bytes.len()].copy_from_slice(bytes);
}

/// Writes the query into a record, which then asks for it. The thread stays.
pub fn put_query(query: &Query, request: &mut Request)
    ensures asked { query_of request.new ≡ Some query.now }
    ensures thread { request.new.thread ≡ request.old.thread }
{
    match query {
        Query::SelfGet => request.call = 25,
        Query::ObjLabel { entry } => put(26, entry, [0; 5], request),
        Query::ObjQuota { entry } => put(27, entry, [0; 5], request),
        Query::ContainerList { container, from } => {
            request.call = 28;
            request.container = container.number();
            request.numbers = [*from as u64, 0, 0, 0, 0];
        }
        Query::ContainerParent { container } => {
            request.call = 29;
            request.container = container.number();
        }
        Query::SegmentLen { entry } => put(30, entry, [0; 5], request),
        Query::SegmentRead {
            entry,
            offset,
            count,
        } => put(31, entry, [*offset as u64, *count as u64, 0, 0, 0], request),
        Query::MetaGet { entry } => put(32, entry, [0; 5], request),
        Query::AsGet { space, slot } => put(33, space, [*slot as u64, 0, 0, 0, 0], request),
        Query::Load { address, count } => {
            request.call = 34;
            request.numbers = [*address, *count as u64, 0, 0, 0];
        }
    }
}

/// Writes what a slot is to map.
fn put_mapping(space: &Entry, slot: u32, mapping: &Mapping, request: &mut Request)
    ensures asked { call_of request.new ≡ Some (calls.AsMap space.now slot mapping.now) }
    ensures thread { request.new.thread ≡ request.old.thread }
{
    put_other(&mapping.entry, request);
    let (page, first, count) = (
        mapping.page as u64,
        mapping.first as u64,
        mapping.count as u64,
    );
    let numbers = [
        slot as u64,
        page,
        first,
        count,
        rights_number(mapping.rights),
    ];
    put(19, space, numbers, request);
}

/// Writes the call into a record, which then asks for it. The thread stays.
pub fn put_call(call: &Call, request: &mut Request)
    ensures asked { call_of request.new ≡ Some call.now }
    ensures thread { request.new.thread ≡ request.old.thread }
{
    match call {
        Call::CatCreate => request.call = 1,
        Call::SelfSetLabel { label } => {
            request.call = 2;
            put_raw(label, &mut request.label);
        }
        Call::SelfSetClearance { clearance } => {
            request.call = 3;
            put_raw(clearance, &mut request.clearance);
        }
        Call::SelfSetAs { space } => put(4, space, [0; 5], request),
        Call::ContainerCreate(new) => put_container(new, request),
        Call::SegmentCreate(new) => put_segment(new, request),
        Call::SegmentCopy(new) => put_copy(new, request),
        Call::AsCreate(new) => put_space(new, request),
        Call::ThreadCreate(new) => put_thread(new, request),
        Call::GateCreate(new) => put_gate(new, request),
        Call::Link { target, entry } => {
            request.other_container = target.number();
            put(11, entry, [0; 5], request);
        }
        Call::Unref { entry } => put(12, entry, [0; 5], request),
        Call::QuotaMove { entry, change } => put(
            13,
            entry,
            [change.cast_unsigned() as u64, 0, 0, 0, 0],
            request,
        ),
        Call::SetFixed { entry } => put(14, entry, [0; 5], request),
        Call::SetImmutable { entry } => put(15, entry, [0; 5], request),
        Call::MetaSet { entry, data } => {
            put_bytes(data, request);
            put(16, entry, [0; 5], request);
        }
        Call::SegmentResize { entry, pages } => put(
            17,
            entry,
            [*pages as u64, 0, 0, 0, 0],
            request,
        ),
        Call::SegmentWrite {
            entry,
            offset,
            data,
        } => {
            put_bytes(data, request);
            put(18, entry, [*offset as u64, 0, 0, 0, 0], request);
        }
        Call::AsMap {
            space,
            slot,
            mapping,
        } => put_mapping(space, *slot, mapping, request),
        Call::AsUnmap { space, slot } => put(20, space, [*slot as u64, 0, 0, 0, 0], request),
        Call::Store { address, data } => {
            put_bytes(data, request);
            request.call = 21;
            request.numbers = [*address, 0, 0, 0, 0];
        }
        Call::GateEnter {
            gate,
            label,
            clearance,
            verify,
        } => {
            put_raw(label, &mut request.label);
            put_raw(clearance, &mut request.clearance);
            put_raw(verify, &mut request.verify);
            put(22, gate, [0; 5], request);
        }
        Call::DevSend { entry, data } => {
            put_bytes(data, request);
            put(23, entry, [0; 5], request);
        }
        Call::DevRecv { entry } => put(24, entry, [0; 5], request),
    }
}

//! Write calls that make no object. Each function writes a call, which is large, over the one that it is lent, and gives
//! `None` where the record is malformed.
ghost use Rattle.std.specs.Prelude.{◌≡◌, Some, option_map};
ghost use Rattle.kernel_rules.specs.declared.calls.Call.TheVariants.{CatCreate};
ghost use Rattle.call_records.specs.Calls as calls;

use crate::labels::label_of;
use crate::records::Request;
use crate::words::{bytes_of, entry_of, number_at, other_of, rights_of, signed_at};
use base::ObjectId;
use kernel_rules::{Call, Mapping};

#[inline(never)]
pub(crate) fn cat_create(call: &mut Call) -> Option<()>
    ensures { option_map (λ done. call.new) result ≡ Some CatCreate }
{
    *call = Call::CatCreate;
    Some(())
}

#[inline(never)]
pub(crate) fn self_set_label(request: &Request, call: &mut Call) -> Option<()>
    ensures { option_map (λ done. call.new) result ≡ calls.self_set_label request.now }
{
    *call = Call::SelfSetLabel {
        label: label_of(&request.label)?,
    };
    Some(())
}

#[inline(never)]
pub(crate) fn self_set_clearance(request: &Request, call: &mut Call) -> Option<()>
    ensures { option_map (λ done. call.new) result ≡ calls.self_set_clearance request.now }
{
    *call = Call::SelfSetClearance {
        clearance: label_of(&request.clearance)?,
    };
    Some(())
}

#[inline(never)]
pub(crate) fn self_set_as(request: &Request, call: &mut Call) -> Option<()>
    ensures { option_map (λ done. call.new) result ≡ calls.self_set_as request.now }
{
    *call = Call::SelfSetAs {
        space: entry_of(request),
    };
    Some(())
}

#[inline(never)]
pub(crate) fn link(request: &Request, call: &mut Call) -> Option<()>
    ensures { option_map (λ done. call.new) result ≡ calls.link request.now }
{
    *call = Call::Link {
        target: ObjectId::new(request.other_container),
        entry: entry_of(request),
    };
    Some(())
}

#[inline(never)]
pub(crate) fn unref(request: &Request, call: &mut Call) -> Option<()>
    ensures { option_map (λ done. call.new) result ≡ calls.unref request.now }
{
    *call = Call::Unref {
        entry: entry_of(request),
    };
    Some(())
}

#[inline(never)]
pub(crate) fn quota_move(request: &Request, call: &mut Call) -> Option<()>
    ensures { option_map (λ done. call.new) result ≡ calls.quota_move request.now }
{
    *call = Call::QuotaMove {
        entry: entry_of(request),
        change: signed_at(request, 0)?,
    };
    Some(())
}

#[inline(never)]
pub(crate) fn set_fixed(request: &Request, call: &mut Call) -> Option<()>
    ensures { option_map (λ done. call.new) result ≡ calls.set_fixed request.now }
{
    *call = Call::SetFixed {
        entry: entry_of(request),
    };
    Some(())
}

#[inline(never)]
pub(crate) fn set_immutable(request: &Request, call: &mut Call) -> Option<()>
    ensures { option_map (λ done. call.new) result ≡ calls.set_immutable request.now }
{
    *call = Call::SetImmutable {
        entry: entry_of(request),
    };
    Some(())
}

#[inline(never)]
pub(crate) fn meta_set(request: &Request, call: &mut Call) -> Option<()>
    ensures { option_map (λ done. call.new) result ≡ calls.meta_set request.now }
{
    *call = Call::MetaSet {
        entry: entry_of(request),
        data: bytes_of(request)?,
    };
    Some(())
}

#[inline(never)]
pub(crate) fn segment_resize(request: &Request, call: &mut Call) -> Option<()>
    ensures { option_map (λ done. call.new) result ≡ calls.segment_resize request.now }
{
    *call = Call::SegmentResize {
        entry: entry_of(request),
        pages: number_at(request, 0)?,
    };
    Some(())
}

#[inline(never)]
pub(crate) fn segment_write(request: &Request, call: &mut Call) -> Option<()>
    ensures { option_map (λ done. call.new) result ≡ calls.segment_write request.now }
{
    *call = Call::SegmentWrite {
        entry: entry_of(request),
        offset: number_at(request, 0)?,
        data: bytes_of(request)?,
    };
    Some(())
}

#[inline(never)]
pub(crate) fn as_map(request: &Request, call: &mut Call) -> Option<()>
    ensures { option_map (λ done. call.new) result ≡ calls.as_map request.now }
{
    *call = Call::AsMap {
        space: entry_of(request),
        slot: number_at(request, 0)?,
        mapping: Mapping {
            page: number_at(request, 1)?,
            entry: other_of(request),
            first: number_at(request, 2)?,
            count: number_at(request, 3)?,
            rights: rights_of(request.numbers[4])?,
        },
    };
    Some(())
}

#[inline(never)]
pub(crate) fn as_unmap(request: &Request, call: &mut Call) -> Option<()>
    ensures { option_map (λ done. call.new) result ≡ calls.as_unmap request.now }
{
    *call = Call::AsUnmap {
        space: entry_of(request),
        slot: number_at(request, 0)?,
    };
    Some(())
}

#[inline(never)]
pub(crate) fn store(request: &Request, call: &mut Call) -> Option<()>
    ensures { option_map (λ done. call.new) result ≡ calls.store request.now }
{
    *call = Call::Store {
        address: request.numbers[0],
        data: bytes_of(request)?,
    };
    Some(())
}

#[inline(never)]
pub(crate) fn gate_enter(request: &Request, call: &mut Call) -> Option<()>
    ensures { option_map (λ done. call.new) result ≡ calls.gate_enter request.now }
{
    *call = Call::GateEnter {
        gate: entry_of(request),
        label: label_of(&request.label)?,
        clearance: label_of(&request.clearance)?,
        verify: label_of(&request.verify)?,
    };
    Some(())
}

#[inline(never)]
pub(crate) fn dev_send(request: &Request, call: &mut Call) -> Option<()>
    ensures { option_map (λ done. call.new) result ≡ calls.dev_send request.now }
{
    *call = Call::DevSend {
        entry: entry_of(request),
        data: bytes_of(request)?,
    };
    Some(())
}

#[inline(never)]
pub(crate) fn dev_recv(request: &Request, call: &mut Call) -> Option<()>
    ensures { option_map (λ done. call.new) result ≡ calls.dev_recv request.now }
{
    *call = Call::DevRecv {
        entry: entry_of(request),
    };
    Some(())
}

//! Write calls that make an object. Each function writes a call, which is large, over the one that it is lent, and gives
//! `None` where the record is malformed.
ghost use Rattle.std.specs.Prelude.{◌≡◌, option_map};
ghost use Rattle.call_records.specs.Calls as calls;

use crate::labels::label_of;
use crate::records::Request;
use crate::words::{kinds_of, number_at, other_of};
use base::ObjectId;
use kernel_rules::{Call, NewAddressSpace, NewContainer, NewCopy, NewGate, NewSegment, NewThread};

#[inline(never)]
pub(crate) fn container_create(request: &Request, call: &mut Call) -> Option<()>
    ensures { option_map (λ done. call.new) result ≡ calls.container_create request.now }
{
    *call = Call::ContainerCreate(NewContainer {
        container: ObjectId::new(request.container),
        label: label_of(&request.label)?,
        quota: number_at(request, 0)?,
        avoid: kinds_of(request.numbers[1])?,
    });
    Some(())
}

#[inline(never)]
pub(crate) fn segment_create(request: &Request, call: &mut Call) -> Option<()>
    ensures { option_map (λ done. call.new) result ≡ calls.segment_create request.now }
{
    *call = Call::SegmentCreate(NewSegment {
        container: ObjectId::new(request.container),
        label: label_of(&request.label)?,
        quota: number_at(request, 0)?,
        pages: number_at(request, 1)?,
    });
    Some(())
}

#[inline(never)]
pub(crate) fn segment_copy(request: &Request, call: &mut Call) -> Option<()>
    ensures { option_map (λ done. call.new) result ≡ calls.segment_copy request.now }
{
    *call = Call::SegmentCopy(NewCopy {
        container: ObjectId::new(request.container),
        label: label_of(&request.label)?,
        quota: number_at(request, 0)?,
        source: other_of(request),
    });
    Some(())
}

#[inline(never)]
pub(crate) fn as_create(request: &Request, call: &mut Call) -> Option<()>
    ensures { option_map (λ done. call.new) result ≡ calls.as_create request.now }
{
    *call = Call::AsCreate(NewAddressSpace {
        container: ObjectId::new(request.container),
        label: label_of(&request.label)?,
        quota: number_at(request, 0)?,
    });
    Some(())
}

#[inline(never)]
pub(crate) fn thread_create(request: &Request, call: &mut Call) -> Option<()>
    ensures { option_map (λ done. call.new) result ≡ calls.thread_create request.now }
{
    *call = Call::ThreadCreate(NewThread {
        container: ObjectId::new(request.container),
        label: label_of(&request.label)?,
        quota: number_at(request, 0)?,
        clearance: label_of(&request.clearance)?,
        entry_point: request.numbers[1],
    });
    Some(())
}

#[inline(never)]
pub(crate) fn gate_create(request: &Request, call: &mut Call) -> Option<()>
    ensures { option_map (λ done. call.new) result ≡ calls.gate_create request.now }
{
    *call = Call::GateCreate(NewGate {
        container: ObjectId::new(request.container),
        label: label_of(&request.label)?,
        quota: number_at(request, 0)?,
        clearance: label_of(&request.clearance)?,
        space: other_of(request),
        entry_point: request.numbers[1],
        closure: request.numbers[2],
    });
    Some(())
}

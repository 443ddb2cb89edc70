//! The record of a write call that makes an object.
ghost use Rattle.std.specs.Prelude.{◌≡◌, Some};
ghost use Rattle.kernel_rules.specs.declared.calls.Call.TheVariants as calls;
ghost use Rattle.call_records.specs.Calls.{call_of};

use super::{kinds_number, put_other};
use crate::labels::put_raw;
use crate::records::Request;
use kernel_rules::{NewAddressSpace, NewContainer, NewCopy, NewGate, NewSegment, NewThread};

pub(super) fn put_container(new: &NewContainer, request: &mut Request)
    ensures asked { call_of request.new ≡ Some (calls.ContainerCreate new.now) }
    ensures thread { request.new.thread ≡ request.old.thread }
{
    request.call = 5;
    request.container = new.container.number();
    put_raw(&new.label, &mut request.label);
    request.numbers = [new.quota as u64, kinds_number(new.avoid), 0, 0, 0];
}

pub(super) fn put_segment(new: &NewSegment, request: &mut Request)
    ensures asked { call_of request.new ≡ Some (calls.SegmentCreate new.now) }
    ensures thread { request.new.thread ≡ request.old.thread }
{
    request.call = 6;
    request.container = new.container.number();
    put_raw(&new.label, &mut request.label);
    request.numbers = [new.quota as u64, new.pages as u64, 0, 0, 0];
}

pub(super) fn put_copy(new: &NewCopy, request: &mut Request)
    ensures asked { call_of request.new ≡ Some (calls.SegmentCopy new.now) }
    ensures thread { request.new.thread ≡ request.old.thread }
{
    request.call = 7;
    request.container = new.container.number();
    put_raw(&new.label, &mut request.label);
    put_other(&new.source, request);
    request.numbers = [new.quota as u64, 0, 0, 0, 0];
}

pub(super) fn put_space(new: &NewAddressSpace, request: &mut Request)
    ensures asked { call_of request.new ≡ Some (calls.AsCreate new.now) }
    ensures thread { request.new.thread ≡ request.old.thread }
{
    request.call = 8;
    request.container = new.container.number();
    put_raw(&new.label, &mut request.label);
    request.numbers = [new.quota as u64, 0, 0, 0, 0];
}

pub(super) fn put_thread(new: &NewThread, request: &mut Request)
    ensures asked { call_of request.new ≡ Some (calls.ThreadCreate new.now) }
    ensures thread { request.new.thread ≡ request.old.thread }
{
    request.call = 9;
    request.container = new.container.number();
    put_raw(&new.label, &mut request.label);
    put_raw(&new.clearance, &mut request.clearance);
    request.numbers = [new.quota as u64, new.entry_point, 0, 0, 0];
}

pub(super) fn put_gate(new: &NewGate, request: &mut Request)
    ensures asked { call_of request.new ≡ Some (calls.GateCreate new.now) }
    ensures thread { request.new.thread ≡ request.old.thread }
{
    request.call = 10;
    request.container = new.container.number();
    put_raw(&new.label, &mut request.label);
    put_raw(&new.clearance, &mut request.clearance);
    put_other(&new.space, request);
    request.numbers = [new.quota as u64, new.entry_point, new.closure, 0, 0];
}

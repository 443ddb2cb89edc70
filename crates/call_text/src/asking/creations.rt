//! Calls that make an object. Each function writes a call, which is large, over the one that it is lent.
ghost use Rattle.std.specs.Prelude.{◌≡◌};
ghost use Rattle.call_text.specs.Asked.{asked_of};
ghost use Rattle.call_text.specs.Unbound.{noted_all};

use super::Asked;
use crate::known_names::Known;
use crate::places::{label_at, make_entry, number_at, object_at, types_at, wide_at};
use kernel_rules::{Call, NewAddressSpace, NewContainer, NewCopy, NewGate, NewSegment, NewThread};
use text_words::Name;
use text_words::spoken_calls::{Arg, Verb};

#[inline(never)]
pub(super) fn container_create<K: Known>(
    args: &[Arg],
    names: &K,
    unbound: &mut Option<Name>,
    call: &mut Call,
)
    ensures asked { Asked.Write call.new ≡ asked_of Verb.ContainerCreate args.now (K.names names.now) }
    ensures noted { unbound.new ≡ noted_all Verb.ContainerCreate args.now (K.names names.now) unbound.old }
{
    *call = Call::ContainerCreate(NewContainer {
        container: object_at(args, 0, names, unbound),
        label: label_at(args, 1, names, unbound),
        quota: number_at(args, 2),
        avoid: types_at(args, 3),
    });
}

#[inline(never)]
pub(super) fn segment_create<K: Known>(
    args: &[Arg],
    names: &K,
    unbound: &mut Option<Name>,
    call: &mut Call,
)
    ensures asked { Asked.Write call.new ≡ asked_of Verb.SegmentCreate args.now (K.names names.now) }
    ensures noted { unbound.new ≡ noted_all Verb.SegmentCreate args.now (K.names names.now) unbound.old }
{
    *call = Call::SegmentCreate(NewSegment {
        container: object_at(args, 0, names, unbound),
        label: label_at(args, 1, names, unbound),
        quota: number_at(args, 2),
        pages: number_at(args, 3),
    });
}

#[inline(never)]
pub(super) fn segment_copy<K: Known>(
    args: &[Arg],
    names: &K,
    unbound: &mut Option<Name>,
    call: &mut Call,
)
    ensures asked { Asked.Write call.new ≡ asked_of Verb.SegmentCopy args.now (K.names names.now) }
    ensures noted { unbound.new ≡ noted_all Verb.SegmentCopy args.now (K.names names.now) unbound.old }
{
    *call = Call::SegmentCopy(NewCopy {
        container: object_at(args, 0, names, unbound),
        label: label_at(args, 1, names, unbound),
        quota: number_at(args, 2),
        source: make_entry(args, 3, names, unbound),
    });
}

#[inline(never)]
pub(super) fn as_create<K: Known>(
    args: &[Arg],
    names: &K,
    unbound: &mut Option<Name>,
    call: &mut Call,
)
    ensures asked { Asked.Write call.new ≡ asked_of Verb.AsCreate args.now (K.names names.now) }
    ensures noted { unbound.new ≡ noted_all Verb.AsCreate args.now (K.names names.now) unbound.old }
{
    *call = Call::AsCreate(NewAddressSpace {
        container: object_at(args, 0, names, unbound),
        label: label_at(args, 1, names, unbound),
        quota: number_at(args, 2),
    });
}

#[inline(never)]
pub(super) fn thread_create<K: Known>(
    args: &[Arg],
    names: &K,
    unbound: &mut Option<Name>,
    call: &mut Call,
)
    ensures asked { Asked.Write call.new ≡ asked_of Verb.ThreadCreate args.now (K.names names.now) }
    ensures noted { unbound.new ≡ noted_all Verb.ThreadCreate args.now (K.names names.now) unbound.old }
{
    *call = Call::ThreadCreate(NewThread {
        container: object_at(args, 0, names, unbound),
        label: label_at(args, 1, names, unbound),
        quota: number_at(args, 2),
        clearance: label_at(args, 3, names, unbound),
        entry_point: wide_at(args, 4),
    });
}

#[inline(never)]
pub(super) fn gate_create<K: Known>(
    args: &[Arg],
    names: &K,
    unbound: &mut Option<Name>,
    call: &mut Call,
)
    ensures asked { Asked.Write call.new ≡ asked_of Verb.GateCreate args.now (K.names names.now) }
    ensures noted { unbound.new ≡ noted_all Verb.GateCreate args.now (K.names names.now) unbound.old }
{
    *call = Call::GateCreate(NewGate {
        container: object_at(args, 0, names, unbound),
        label: label_at(args, 1, names, unbound),
        quota: number_at(args, 2),
        clearance: label_at(args, 3, names, unbound),
        space: make_entry(args, 4, names, unbound),
        entry_point: wide_at(args, 6),
        closure: wide_at(args, 7),
    });
}

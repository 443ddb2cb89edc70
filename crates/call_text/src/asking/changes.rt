//! Calls that change what is there. Each function writes a call, which is large, over the one that it is lent.
ghost use Rattle.std.specs.Prelude.{◌≡◌, []};
ghost use Rattle.call_text.specs.Asked.{asked_of};
ghost use Rattle.call_text.specs.Unbound.{noted_all};

use super::Asked;
use crate::known_names::Known;
use crate::places::{
    data_at, label_at, make_entry, make_mapping, number_at, object_at, signed_at, wide_at,
};
use kernel_rules::Call;
use text_words::Name;
use text_words::spoken_calls::{Arg, Verb};

#[inline(never)]
pub(super) fn self_set_label<K: Known>(
    args: &[Arg],
    names: &K,
    unbound: &mut Option<Name>,
    call: &mut Call,
)
    ensures asked { Asked.Write call.new ≡ asked_of Verb.SelfSetLabel args.now (K.names names.now) }
    ensures noted { unbound.new ≡ noted_all Verb.SelfSetLabel args.now (K.names names.now) unbound.old }
{
    *call = Call::SelfSetLabel {
        label: label_at(args, 0, names, unbound),
    };
}

#[inline(never)]
pub(super) fn self_set_clearance<K: Known>(
    args: &[Arg],
    names: &K,
    unbound: &mut Option<Name>,
    call: &mut Call,
)
    ensures asked { Asked.Write call.new ≡ asked_of Verb.SelfSetClearance args.now (K.names names.now) }
    ensures noted { unbound.new ≡ noted_all Verb.SelfSetClearance args.now (K.names names.now) unbound.old }
{
    *call = Call::SelfSetClearance {
        clearance: label_at(args, 0, names, unbound),
    };
}

#[inline(never)]
pub(super) fn link<K: Known>(args: &[Arg], names: &K, unbound: &mut Option<Name>, call: &mut Call)
    ensures asked { Asked.Write call.new ≡ asked_of Verb.Link args.now (K.names names.now) }
    ensures noted { unbound.new ≡ noted_all Verb.Link args.now (K.names names.now) unbound.old }
{
    *call = Call::Link {
        target: object_at(args, 0, names, unbound),
        entry: make_entry(args, 1, names, unbound),
    };
}

#[inline(never)]
pub(super) fn quota_move<K: Known>(
    args: &[Arg],
    names: &K,
    unbound: &mut Option<Name>,
    call: &mut Call,
)
    ensures asked { Asked.Write call.new ≡ asked_of Verb.QuotaMove args.now (K.names names.now) }
    ensures noted { unbound.new ≡ noted_all Verb.QuotaMove args.now (K.names names.now) unbound.old }
{
    *call = Call::QuotaMove {
        entry: make_entry(args, 0, names, unbound),
        change: signed_at(args, 2),
    };
}

#[inline(never)]
pub(super) fn meta_set<K: Known>(
    args: &[Arg],
    names: &K,
    unbound: &mut Option<Name>,
    call: &mut Call,
)
    ensures asked { Asked.Write call.new ≡ asked_of Verb.MetaSet args.now (K.names names.now) }
    ensures noted { unbound.new ≡ noted_all Verb.MetaSet args.now (K.names names.now) unbound.old }
{
    *call = Call::MetaSet {
        entry: make_entry(args, 0, names, unbound),
        data: data_at(args, 2),
    };
}

#[inline(never)]
pub(super) fn segment_resize<K: Known>(
    args: &[Arg],
    names: &K,
    unbound: &mut Option<Name>,
    call: &mut Call,
)
    ensures asked { Asked.Write call.new ≡ asked_of Verb.SegmentResize args.now (K.names names.now) }
    ensures noted { unbound.new ≡ noted_all Verb.SegmentResize args.now (K.names names.now) unbound.old }
{
    *call = Call::SegmentResize {
        entry: make_entry(args, 0, names, unbound),
        pages: number_at(args, 2),
    };
}

#[inline(never)]
pub(super) fn segment_write<K: Known>(
    args: &[Arg],
    names: &K,
    unbound: &mut Option<Name>,
    call: &mut Call,
)
    ensures asked { Asked.Write call.new ≡ asked_of Verb.SegmentWrite args.now (K.names names.now) }
    ensures noted { unbound.new ≡ noted_all Verb.SegmentWrite args.now (K.names names.now) unbound.old }
{
    *call = Call::SegmentWrite {
        entry: make_entry(args, 0, names, unbound),
        offset: number_at(args, 2),
        data: data_at(args, 3),
    };
}

#[inline(never)]
pub(super) fn as_map<K: Known>(args: &[Arg], names: &K, unbound: &mut Option<Name>, call: &mut Call)
    ensures asked { Asked.Write call.new ≡ asked_of Verb.AsMap args.now (K.names names.now) }
    ensures noted { unbound.new ≡ noted_all Verb.AsMap args.now (K.names names.now) unbound.old }
{
    *call = Call::AsMap {
        space: make_entry(args, 0, names, unbound),
        slot: number_at(args, 2),
        mapping: make_mapping(args, 3, names, unbound),
    };
}

#[inline(never)]
pub(super) fn as_unmap<K: Known>(
    args: &[Arg],
    names: &K,
    unbound: &mut Option<Name>,
    call: &mut Call,
)
    ensures asked { Asked.Write call.new ≡ asked_of Verb.AsUnmap args.now (K.names names.now) }
    ensures noted { unbound.new ≡ noted_all Verb.AsUnmap args.now (K.names names.now) unbound.old }
{
    *call = Call::AsUnmap {
        space: make_entry(args, 0, names, unbound),
        slot: number_at(args, 2),
    };
}

#[inline(never)]
pub(super) fn store(args: &[Arg], call: &mut Call)
    ensures { Asked.Write call.new ≡ asked_of Verb.Store args.now [] }
{
    *call = Call::Store {
        address: wide_at(args, 0),
        data: data_at(args, 1),
    };
}

#[inline(never)]
pub(super) fn gate_enter<K: Known>(
    args: &[Arg],
    names: &K,
    unbound: &mut Option<Name>,
    call: &mut Call,
)
    ensures asked { Asked.Write call.new ≡ asked_of Verb.GateEnter args.now (K.names names.now) }
    ensures noted { unbound.new ≡ noted_all Verb.GateEnter args.now (K.names names.now) unbound.old }
{
    *call = Call::GateEnter {
        gate: make_entry(args, 0, names, unbound),
        label: label_at(args, 2, names, unbound),
        clearance: label_at(args, 3, names, unbound),
        verify: label_at(args, 4, names, unbound),
    };
}

#[inline(never)]
pub(super) fn dev_send<K: Known>(
    args: &[Arg],
    names: &K,
    unbound: &mut Option<Name>,
    call: &mut Call,
)
    ensures asked { Asked.Write call.new ≡ asked_of Verb.DevSend args.now (K.names names.now) }
    ensures noted { unbound.new ≡ noted_all Verb.DevSend args.now (K.names names.now) unbound.old }
{
    *call = Call::DevSend {
        entry: make_entry(args, 0, names, unbound),
        data: data_at(args, 2),
    };
}

#[inline(never)]
pub(super) fn cat_create(call: &mut Call)
    ensures { call.new ≡ Call.CatCreate }
{
    *call = Call::CatCreate;
}

#[inline(never)]
pub(super) fn self_set_as<K: Known>(
    args: &[Arg],
    names: &K,
    unbound: &mut Option<Name>,
    call: &mut Call,
)
    ensures asked { Asked.Write call.new ≡ asked_of Verb.SelfSetAs args.now (K.names names.now) }
    ensures noted { unbound.new ≡ noted_all Verb.SelfSetAs args.now (K.names names.now) unbound.old }
{
    *call = Call::SelfSetAs {
        space: make_entry(args, 0, names, unbound),
    };
}

#[inline(never)]
pub(super) fn unref<K: Known>(args: &[Arg], names: &K, unbound: &mut Option<Name>, call: &mut Call)
    ensures asked { Asked.Write call.new ≡ asked_of Verb.Unref args.now (K.names names.now) }
    ensures noted { unbound.new ≡ noted_all Verb.Unref args.now (K.names names.now) unbound.old }
{
    *call = Call::Unref {
        entry: make_entry(args, 0, names, unbound),
    };
}

#[inline(never)]
pub(super) fn set_fixed<K: Known>(
    args: &[Arg],
    names: &K,
    unbound: &mut Option<Name>,
    call: &mut Call,
)
    ensures asked { Asked.Write call.new ≡ asked_of Verb.SetFixed args.now (K.names names.now) }
    ensures noted { unbound.new ≡ noted_all Verb.SetFixed args.now (K.names names.now) unbound.old }
{
    *call = Call::SetFixed {
        entry: make_entry(args, 0, names, unbound),
    };
}

#[inline(never)]
pub(super) fn set_immutable<K: Known>(
    args: &[Arg],
    names: &K,
    unbound: &mut Option<Name>,
    call: &mut Call,
)
    ensures asked { Asked.Write call.new ≡ asked_of Verb.SetImmutable args.now (K.names names.now) }
    ensures noted { unbound.new ≡ noted_all Verb.SetImmutable args.now (K.names names.now) unbound.old }
{
    *call = Call::SetImmutable {
        entry: make_entry(args, 0, names, unbound),
    };
}

#[inline(never)]
pub(super) fn dev_recv<K: Known>(
    args: &[Arg],
    names: &K,
    unbound: &mut Option<Name>,
    call: &mut Call,
)
    ensures asked { Asked.Write call.new ≡ asked_of Verb.DevRecv args.now (K.names names.now) }
    ensures noted { unbound.new ≡ noted_all Verb.DevRecv args.now (K.names names.now) unbound.old }
{
    *call = Call::DevRecv {
        entry: make_entry(args, 0, names, unbound),
    };
}

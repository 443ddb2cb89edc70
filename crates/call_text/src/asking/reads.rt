//! Calls that change nothing.
ghost use Rattle.std.specs.Prelude.{◌≡◌, []};
ghost use Rattle.call_text.specs.Asked.{asked_of};
ghost use Rattle.call_text.specs.Unbound.{noted_all};

use super::Asked;
use crate::known_names::Known;
use crate::places::{make_entry, number_at, object_at, wide_at};
use kernel_rules::Query;
use text_words::Name;
use text_words::spoken_calls::{Arg, Verb};

pub(super) fn container_list<K: Known>(args: &[Arg], names: &K, unbound: &mut Option<Name>) -> Query
    ensures asked { Asked.Read result ≡ asked_of Verb.ContainerList args.now (K.names names.now) }
    ensures noted { unbound.new ≡ noted_all Verb.ContainerList args.now (K.names names.now) unbound.old }
{
    Query::ContainerList {
        container: object_at(args, 0, names, unbound),
        from: number_at(args, 1),
    }
}

pub(super) fn container_parent<K: Known>(
    args: &[Arg],
    names: &K,
    unbound: &mut Option<Name>,
) -> Query
    ensures asked { Asked.Read result ≡ asked_of Verb.ContainerParent args.now (K.names names.now) }
    ensures noted { unbound.new ≡ noted_all Verb.ContainerParent args.now (K.names names.now) unbound.old }
{
    Query::ContainerParent {
        container: object_at(args, 0, names, unbound),
    }
}

pub(super) fn segment_read<K: Known>(args: &[Arg], names: &K, unbound: &mut Option<Name>) -> Query
    ensures asked { Asked.Read result ≡ asked_of Verb.SegmentRead args.now (K.names names.now) }
    ensures noted { unbound.new ≡ noted_all Verb.SegmentRead args.now (K.names names.now) unbound.old }
{
    Query::SegmentRead {
        entry: make_entry(args, 0, names, unbound),
        offset: number_at(args, 2),
        count: number_at(args, 3),
    }
}

pub(super) fn as_get<K: Known>(args: &[Arg], names: &K, unbound: &mut Option<Name>) -> Query
    ensures asked { Asked.Read result ≡ asked_of Verb.AsGet args.now (K.names names.now) }
    ensures noted { unbound.new ≡ noted_all Verb.AsGet args.now (K.names names.now) unbound.old }
{
    Query::AsGet {
        space: make_entry(args, 0, names, unbound),
        slot: number_at(args, 2),
    }
}

pub(super) fn load(args: &[Arg]) -> Query
    ensures { Asked.Read result ≡ asked_of Verb.Load args.now [] }
{
    Query::Load {
        address: wide_at(args, 0),
        count: number_at(args, 1),
    }
}

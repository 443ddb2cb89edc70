//! What a call asks of a machine.
ghost use Rattle.std.specs.Prelude.{◌≡◌, OnSome};
ghost use Rattle.call_text.specs.Asked.{asked_of, asked_by};
ghost use Rattle.call_text.specs.Unbound.{noted_all};

mod changes;
mod creations;
mod reads;

use crate::known_names::Known;
use crate::places::make_entry;
use kernel_rules::{Call, Query};
use text_words::Name;
use text_words::spoken_calls::{Arg, Verb};

/// What a call asks of a machine.
#[derive(Clone, Copy)]
pub enum Asked {
    /// To change its state.
    Write(Call),
    /// To tell of it.
    Read(Query),
}

/// What the verb asks with these arguments: to tell of the state, or else a call to change it, which is then written to
/// `call`. `unbound` is the first name, in the order of the words, that is not known or known as the other kind: what it was
/// before, or else one of these arguments.
pub fn ask<K: Known>(
    verb: Verb,
    args: &[Arg],
    names: &K,
    unbound: &mut Option<Name>,
    call: &mut Call,
) -> Option<Query>
    ensures asked { asked_by result call.new ≡ asked_of verb args.now (K.names names.now) }
    ensures noted { unbound.new ≡ noted_all verb args.now (K.names names.now) unbound.old }
    ensures kept { OnSome result (call.new ≡ call.old) }
{
    match verb {
        Verb::CatCreate => {
            changes::cat_create(call);
            return None;
        }
        Verb::SelfSetLabel => {
            changes::self_set_label(args, names, unbound, call);
            return None;
        }
        Verb::SelfSetClearance => {
            changes::self_set_clearance(args, names, unbound, call);
            return None;
        }
        Verb::SelfSetAs => {
            changes::self_set_as(args, names, unbound, call);
            return None;
        }
        Verb::ContainerCreate => {
            creations::container_create(args, names, unbound, call);
            return None;
        }
        Verb::SegmentCreate => {
            creations::segment_create(args, names, unbound, call);
            return None;
        }
        Verb::SegmentCopy => {
            creations::segment_copy(args, names, unbound, call);
            return None;
        }
        Verb::AsCreate => {
            creations::as_create(args, names, unbound, call);
            return None;
        }
        Verb::ThreadCreate => {
            creations::thread_create(args, names, unbound, call);
            return None;
        }
        Verb::GateCreate => {
            creations::gate_create(args, names, unbound, call);
            return None;
        }
        Verb::Link => {
            changes::link(args, names, unbound, call);
            return None;
        }
        Verb::Unref => {
            changes::unref(args, names, unbound, call);
            return None;
        }
        Verb::QuotaMove => {
            changes::quota_move(args, names, unbound, call);
            return None;
        }
        Verb::SetFixed => {
            changes::set_fixed(args, names, unbound, call);
            return None;
        }
        Verb::SetImmutable => {
            changes::set_immutable(args, names, unbound, call);
            return None;
        }
        Verb::MetaSet => {
            changes::meta_set(args, names, unbound, call);
            return None;
        }
        Verb::SegmentResize => {
            changes::segment_resize(args, names, unbound, call);
            return None;
        }
        Verb::SegmentWrite => {
            changes::segment_write(args, names, unbound, call);
            return None;
        }
        Verb::AsMap => {
            changes::as_map(args, names, unbound, call);
            return None;
        }
        Verb::AsUnmap => {
            changes::as_unmap(args, names, unbound, call);
            return None;
        }
        Verb::Store => {
            changes::store(args, call);
            return None;
        }
        Verb::GateEnter => {
            changes::gate_enter(args, names, unbound, call);
            return None;
        }
        Verb::DevSend => {
            changes::dev_send(args, names, unbound, call);
            return None;
        }
        Verb::DevRecv => {
            changes::dev_recv(args, names, unbound, call);
            return None;
        }
        Verb::SelfGet => return Some(Query::SelfGet),
        Verb::ObjLabel => {
            return Some(Query::ObjLabel {
                entry: make_entry(args, 0, names, unbound),
            });
        }
        Verb::ObjQuota => {
            return Some(Query::ObjQuota {
                entry: make_entry(args, 0, names, unbound),
            });
        }
        Verb::ContainerList => return Some(reads::container_list(args, names, unbound)),
        Verb::ContainerParent => return Some(reads::container_parent(args, names, unbound)),
        Verb::SegmentLen => {
            return Some(Query::SegmentLen {
                entry: make_entry(args, 0, names, unbound),
            });
        }
        Verb::SegmentRead => return Some(reads::segment_read(args, names, unbound)),
        Verb::MetaGet => {
            return Some(Query::MetaGet {
                entry: make_entry(args, 0, names, unbound),
            });
        }
        Verb::AsGet => return Some(reads::as_get(args, names, unbound)),
        Verb::Load => return Some(reads::load(args)),
    }
}

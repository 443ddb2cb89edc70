//! The write call that a record asks for.
ghost use Rattle.std.specs.Prelude.{◌≡◌, option_map};
ghost use Rattle.call_records.specs.Calls.{call_of};

use crate::records::Request;
use crate::{changes, creations};
use kernel_rules::Call;

/// Writes the write call that a record asks for over the one that is lent. Gives `None`, and what is written there then
/// means nothing, where the record asks for no write call: its number is not 1 to 24, or a number, the bytes or a
/// label are malformed.
pub fn call_into(request: &Request, call: &mut Call) -> Option<()>
    ensures { option_map (λ done. call.new) result ≡ call_of request.now }
{
    match request.call {
        1 => changes::cat_create(call),
        2 => changes::self_set_label(request, call),
        3 => changes::self_set_clearance(request, call),
        4 => changes::self_set_as(request, call),
        5 => creations::container_create(request, call),
        6 => creations::segment_create(request, call),
        7 => creations::segment_copy(request, call),
        8 => creations::as_create(request, call),
        9 => creations::thread_create(request, call),
        10 => creations::gate_create(request, call),
        11 => changes::link(request, call),
        12 => changes::unref(request, call),
        13 => changes::quota_move(request, call),
        14 => changes::set_fixed(request, call),
        15 => changes::set_immutable(request, call),
        16 => changes::meta_set(request, call),
        17 => changes::segment_resize(request, call),
        18 => changes::segment_write(request, call),
        19 => changes::as_map(request, call),
        20 => changes::as_unmap(request, call),
        21 => changes::store(request, call),
        22 => changes::gate_enter(request, call),
        23 => changes::dev_send(request, call),
        24 => changes::dev_recv(request, call),
        _ => None,
    }
}

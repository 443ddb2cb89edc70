//! One object, copied.
ghost use Rattle.std.specs.Prelude.{◌≡◌, true, is_some, IfOk, Some};
ghost use Rattle.kernel_rules.specs.State.{object_at};
ghost use Rattle.plain_core.specs.Bodies.{body_at};

use crate::recording::contents::{bytes, list, packets, slots};
use base::{Kind, Meter, NoMemory, ObjectId, TypeSet};
use kernel_rules::{Body, Object};
use kernel_store::Store;
use std::alloc::Global;

// What an object holds by its kind.
fn body<S: Store>(
    alloc: Global,
    store: &S,
    at: S::Location,
    meter: &mut Meter,
) -> Result<Body, NoMemory>
    requires stands { S.stands store.now at }
    requires there { is_some (object_at (S.state store.now) (S.id_of at)) ≡ true }
    ensures { IfOk result (λ body. body_at (S.state store.now) (S.id_of at) ≡ Some body) }
{
    if let Some(thread) = store.thread(at) {
        return Ok(Body::Thread(thread));
    }
    if let Some(gate) = store.gate(at) {
        return Ok(Body::Gate(gate));
    }
    if store.is_live(Kind::Container, at) {
        let avoid = store.joined(at, TypeSet::none());
        return Ok(Body::Container(avoid, list(alloc, store, at, meter)?));
    }
    if store.is_live(Kind::Segment, at) {
        return Ok(Body::Segment(bytes(alloc, store, at, meter)?));
    }
    if store.is_live(Kind::AddressSpace, at) {
        return Ok(Body::AddressSpace(slots(store, at, meter)));
    }
    Ok(Body::Device(packets(alloc, store, at)?))
}

/// The object of an id, none where there is none.
pub(crate) fn object<S: Store>(
    alloc: Global,
    store: &S,
    id: ObjectId,
    meter: &mut Meter,
) -> Result<Option<Object>, NoMemory>
    ensures { IfOk result (λ object. object ≡ object_at (S.state store.now) id) }
{
    let at = store.find(id, meter);
    let Some(label) = store.label(at) else {
        return Ok(None);
    };
    let Some(metadata) = store.metadata(at) else {
        return Ok(None);
    };
    let body = body(alloc, store, at, meter)?;
    Ok(Some(Object {
        label: *label,
        quota: store.quota(at),
        fixed: store.is_fixed(at),
        immutable: store.is_immutable(at),
        metadata,
        body,
    }))
}

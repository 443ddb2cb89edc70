//! What an object holds, copied by its kind.
ghost use Rattle.std.specs.Prelude.{◌≡◌, ◌++◌, true, IfOk, OnOk};
ghost use Rattle.base.specs.declared.kinds.Kind.TheVariants as kinds;
ghost use Rattle.kernel_rules.specs.State.{bytes_at, is_kind_at, list_at, packets_at, slots_at};

use base::{Meter, NoMemory, ObjectId};
use kernel_rules::{Bytes, IdList, Packets, Slots};
use kernel_store::Store;
use std::alloc::Global;

// Puts ids at the end of a list.
fn add_ids(list: &mut IdList, ids: &[ObjectId]) -> Result<(), NoMemory>
    ensures { OnOk result (list.new ≡ list.old ++ ids.now) }
{
    for id in ids {
        list.push(*id)?;
    }
    Ok(())
}

/// The ids that a container lists.
pub(crate) fn list<S: Store>(
    alloc: Global,
    store: &S,
    at: S::Location,
    meter: &mut Meter,
) -> Result<IdList, NoMemory>
    requires { S.stands store.now at }
    ensures { IfOk result (λ list. list ≡ list_at (S.state store.now) (S.id_of at)) }
{
    let _quota = store.quota(at);
    let windows = store.list_len(at, meter) / 16 + 1;
    let mut list = IdList::new(alloc);
    for window in 0..windows {
        let ids = store.ids_from(at, (16 * window) as u32, meter);
        add_ids(&mut list, ids.as_slice())?;
    }
    Ok(list)
}

/// The bytes of a segment.
pub(crate) fn bytes<S: Store>(
    alloc: Global,
    store: &S,
    at: S::Location,
    meter: &mut Meter,
) -> Result<Bytes, NoMemory>
    requires { S.stands store.now at }
    ensures { IfOk result (λ bytes. bytes ≡ bytes_at (S.state store.now) (S.id_of at)) }
{
    let pages = store.page_count(at) as usize;
    let mut bytes = Bytes::zeroed(alloc, 256 * pages)?;
    for piece in 0..4 * pages {
        let read = store.bytes_from(at, 64 * piece, 64, meter);
        bytes.write(64 * piece, read.as_slice());
    }
    Ok(bytes)
}

/// The slots of an address space.
pub(crate) fn slots<S: Store>(store: &S, at: S::Location, meter: &mut Meter) -> Slots
    requires stands { S.stands store.now at }
    requires space { is_kind_at (S.state store.now) kinds.AddressSpace (S.id_of at) ≡ true }
    ensures { result ≡ record { slots = slots_at (S.state store.now) (S.id_of at) } }
{
    let mut slots = Slots::empty();
    slots.slots.copy_from_slice(store.slots(at, meter));
    slots
}

/// The packets that wait in a device.
pub(crate) fn packets<S: Store>(
    alloc: Global,
    store: &S,
    at: S::Location,
) -> Result<Packets, NoMemory>
    requires { S.stands store.now at }
    ensures { IfOk result (λ packets. packets ≡ packets_at (S.state store.now) (S.id_of at)) }
{
    let mut packets = Packets::new(alloc);
    for packet in store.packets(at) {
        packets.push(*packet)?;
    }
    Ok(packets)
}

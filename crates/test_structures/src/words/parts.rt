//! What objects hold, and the refusal of a row.
use anyhow::{Result, bail};
use base::{Data, Meter, ObjectId, Refusal, Rights};
use happy_calls::look::{Look, agree};
use happy_calls::samples::{in_root, plain};
use kernel_rules::{
    Body, Bytes, IdList, Ids, Mapping, Packets, Slots, fresh_object, least_of, least_with,
};
use label_lattice::Label;
use std::alloc::Global;

fn bytes_are_written_and_cut_off(alloc: Global, look: &mut Look) -> Result<()> {
    look.part("bytes_are_written_and_cut_off");
    let mut bytes = Bytes::zeroed(alloc, 4)?;
    bytes.write(1, &[7, 8]);
    look.sees(agree(bytes.as_slice(), [0, 7, 8, 0].as_slice()));
    let shorter = bytes.resized(alloc, 2)?;
    let longer = shorter.resized(alloc, 3)?;
    look.sees(agree(longer.as_slice(), [0, 7, 0].as_slice()));
    let copied = Bytes::copied(alloc, longer.as_slice())?;
    look.sees(agree(copied.as_slice(), [0, 7, 0].as_slice()));
    Ok(())
}

fn lists_keep_their_order(alloc: Global, look: &mut Look) -> Result<()> {
    look.part("lists_keep_their_order");
    let (first, second) = (ObjectId::new(4), ObjectId::new(5));
    let mut ids = IdList::new(alloc);
    ids.push(first)?;
    ids.push(second)?;
    look.sees(agree(ids.as_slice(), [first, second].as_slice()));
    ids.pop();
    look.sees(agree(ids.as_slice(), [first].as_slice()));
    look.sees(agree(
        Ids::from_slice(&[first, second]).as_slice(),
        [first, second].as_slice(),
    ));
    let mut packets = Packets::new(alloc);
    packets.push(Data::from_slice(b"one"))?;
    packets.push(Data::from_slice(b"two"))?;
    packets.remove_first();
    look.sees(agree(packets.as_slice().len(), 1));
    look.sees(agree(packets.as_slice()[0].as_slice(), b"two".as_slice()));
    Ok(())
}

fn a_new_object_and_its_slots(alloc: Global, look: &mut Look) -> Result<()> {
    look.part("a_new_object_and_its_slots");
    let mut meter = Meter::new(alloc)?;
    let mapping = Mapping {
        page: 3,
        entry: in_root(4),
        first: 0,
        count: 1,
        rights: Rights {
            read: true,
            write: false,
        },
    };
    let mut slots = Slots::empty();
    look.sees(slots.slots[15].is_none());
    slots.set(15, Some(mapping));
    look.sees(matches!(slots.slots[15], Some(filled) if filled.page == 3));
    let Ok(label) = Label::from_raw(&plain(), &mut meter) else {
        bail!("no label");
    };
    let object = fresh_object(label, 2, Body::AddressSpace(slots));
    look.sees(agree(object.quota, 2));
    look.sees(!object.fixed && !object.immutable);
    look.sees(agree(object.metadata.as_slice(), [0; 64].as_slice()));
    Ok(())
}

fn the_least_number_wins(alloc: Global, look: &mut Look) -> Result<()> {
    look.part("the_least_number_wins");
    let row = [
        (Refusal::Bounds, true),
        (Refusal::NoEntry, true),
        (Refusal::Halted, false),
    ];
    look.sees(agree(least_with(None, &row), Some(Refusal::NoEntry)));
    look.sees(agree(least_with(None, &[(Refusal::Halted, false)]), None));
    let immutable = Some(Refusal::Immutable);
    look.sees(agree(
        least_of(immutable, Some(Refusal::NoQuota)),
        Some(Refusal::NoQuota),
    ));
    look.sees(agree(least_of(None, immutable), immutable));
    Ok(())
}

// Where an allocation is refused, what is made or pushed again is as if nothing had been.
fn want_of_memory_changes_nothing(alloc: Global, look: &mut Look) -> Result<()> {
    look.part("want_of_memory_changes_nothing");
    let bytes = match Bytes::copied(alloc, &[7, 8]) {
        Ok(bytes) => bytes,
        Err(_) => Bytes::copied(alloc, &[7, 8])?,
    };
    let longer = match bytes.resized(alloc, 3) {
        Ok(longer) => longer,
        Err(_) => bytes.resized(alloc, 3)?,
    };
    look.sees(agree(longer.as_slice(), [7, 8, 0].as_slice()));
    let none = match Bytes::zeroed(alloc, 2) {
        Ok(none) => none,
        Err(_) => Bytes::zeroed(alloc, 2)?,
    };
    look.sees(agree(none.as_slice(), [0, 0].as_slice()));
    let listed = [4, 5, 6, 7, 8, 9].map(ObjectId::new);
    let mut ids = IdList::new(alloc);
    for id in listed {
        if ids.push(id).is_err() {
            ids.push(id)?;
        }
    }
    look.sees(agree(ids.as_slice(), listed.as_slice()));
    let mut packets = Packets::new(alloc);
    for byte in [1, 2, 3, 4, 5, 6] {
        let packet = Data::from_slice(&[byte]);
        if packets.push(packet).is_err() {
            packets.push(packet)?;
        }
    }
    look.sees(agree(packets.as_slice().len(), 6));
    let is_last = match packets.as_slice().get(5) {
        Some(last) => agree(last.as_slice(), [6].as_slice()),
        None => false,
    };
    look.sees(is_last);
    Ok(())
}

/// Plays what there is memory for.
pub fn play(alloc: Global, look: &mut Look) -> Result<()> {
    bytes_are_written_and_cut_off(alloc, look)?;
    lists_keep_their_order(alloc, look)?;
    a_new_object_and_its_slots(alloc, look)?;
    the_least_number_wins(alloc, look)
}

/// Plays what is made again where there was no memory.
pub fn again(alloc: Global, look: &mut Look) -> Result<()> {
    want_of_memory_changes_nothing(alloc, look)
}

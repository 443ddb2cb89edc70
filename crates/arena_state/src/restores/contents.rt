//! What slots hold of a state's objects, laid out anew.
ghost use Rattle.std.specs.Prelude.{◌≡◌, ◌+◌, ◌*◌, ◌/◌, ◌<◌, ◌≤◌, [], length, true, replicate, slice_set, None};
ghost use Rattle.label_intern.specs.Held.{owned};
ghost use Rattle.arena_memory.specs.Segments.{all_pages, bytes_in};
ghost use Rattle.arena_memory.specs.Queues.{packets_in};
ghost use Rattle.arena_memory.specs.Mappings.{places_at};
ghost use Rattle.kernel_rules.specs.WellFormed.{is_whole_body};
ghost use Rattle.arena_state.specs.Restored.{held_of, uses_own, IsPut};

use crate::holdings::Holdings;
use crate::restores::kept::record_of;
use arena_memory::address_spaces::Spaces;
use arena_memory::segments::{Queues, Segments};
use base::{Data, Meter, Slot};
use kernel_rules::{Body, Mapping, Object};

// The bytes of a slot that has none yet.
fn put_bytes(segments: &mut Segments, slot: Slot, bytes: &[u8], meter: &mut Meter)
    requires slot { slot.0 < length segments.old }
    requires blank { bytes_in segments.old slot.0 ≡ [] }
    requires whole { length bytes.now ≡ 256 * (length bytes.now / 256) }
    requires few { length bytes.now ≤ 4096 }
    requires room { all_pages segments.old + length bytes.now / 256 ≤ length segments.old }
    ensures { segments.new ≡ slice_set segments.old slot.0 bytes.now }
{
    let pages = (bytes.len() / 256) as u32;
    segments.resize(slot, pages, meter);
    segments.write(slot, 0, bytes, meter);
}

// The mappings of a slot that has none yet.
fn put_slots(spaces: &mut Spaces, slot: Slot, slots: &[Option<Mapping>])
    requires slot { slot.0 < length spaces.old }
    requires blank { places_at spaces.old slot.0 ≡ replicate 16 None }
    requires sixteen { length slots.now ≡ 16 }
    ensures { spaces.new ≡ slice_set spaces.old slot.0 slots.now }
{
    for place in 0..slots.len() {
        if let Some(mapping) = slots[place] {
            spaces.map(slot, place, mapping);
        }
    }
}

// The packets of a slot that has none yet.
fn put_packets(queues: &mut Queues, slot: Slot, packets: &[Data], meter: &mut Meter)
    requires slot { slot.0 < length queues.old }
    requires blank { packets_in queues.old slot.0 ≡ [] }
    requires few { length packets.now ≤ 4 }
    ensures { queues.new ≡ slice_set queues.old slot.0 packets.now }
{
    for packet in packets {
        queues.send(slot, *packet, meter);
    }
}

/// An object that uses so much, in a slot that holds nothing yet.
pub fn put_object(
    holdings: &mut Holdings,
    slot: Slot,
    object: &Object,
    used: u32,
    meter: &mut Meter,
)
    requires labels { owned holdings.old.labels + 3 ≤ length holdings.old.labels }
    requires record { slot.0 < length holdings.old.records.items }
    requires segment { slot.0 < length holdings.old.segments }
    requires queue { slot.0 < length holdings.old.queues }
    requires space { slot.0 < length holdings.old.spaces }
    requires bytes { bytes_in holdings.old.segments slot.0 ≡ [] }
    requires packets { packets_in holdings.old.queues slot.0 ≡ [] }
    requires slots { places_at holdings.old.spaces slot.0 ≡ replicate 16 None }
    requires whole { is_whole_body object.now.body ≡ true }
    requires own { uses_own object.now.body used }
    requires room { all_pages holdings.old.segments + length (held_of object.now.body).bytes / 256
        ≤ length holdings.old.segments }
    ensures { IsPut holdings.old holdings.new slot.0 object.now used }
{
    let record = record_of(&mut holdings.labels, object, used, meter);
    holdings.records[slot.0] = record;
    match &object.body {
        Body::Segment(bytes) => put_bytes(&mut holdings.segments, slot, bytes.as_slice(), meter),
        Body::AddressSpace(slots) => put_slots(&mut holdings.spaces, slot, &slots.slots),
        Body::Device(packets) => put_packets(&mut holdings.queues, slot, packets.as_slice(), meter),
        Body::Container(_, _) | Body::Thread(_) | Body::Gate(_) => {}
    }
}

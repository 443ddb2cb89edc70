//! Tests of the sizes of a checkpoint's objects.
ghost use Rattle.std.specs.Prelude.{◌≡◌, ◌==◌, length, nat_le, ◌&&◌};
ghost use Rattle.std.specs.List.{list_all};
ghost use Rattle.kernel_rules.specs.WellFormed.{is_whole_body, is_whole, is_stored};

use base::{Data, Meter};
use kernel_rules::{Body, Mapping, Object};
use label_lattice::Label;

/// Whether a label is a stored one, as each of its type is.
#[tactic(auto, using(kernel_rules::proofs::StoredLaws::stored_test))]
fn is_stored(label: &Label, meter: &mut Meter) -> bool
    ensures { result ≡ is_stored label.now }
{
    // For the proof alone: what the type says of the value is told with its raw form.
    let _ = label.to_raw(meter);
    true
}

fn is_packet(packet: &Data) -> bool
    ensures { result ≡ nat_le 1 (length packet.now) && nat_le (length packet.now) 64 }
{
    let length = packet.as_slice().len();
    1 <= length && length <= 64
}

fn are_packets(packets: &[Data]) -> bool
    ensures { result ≡ list_all (λ p. nat_le 1 (length p) && nat_le (length p) 64) packets.now }
{
    packets.iter().all(|packet| is_packet(packet))
}

fn has_sixteen(slots: &[Option<Mapping>]) -> bool
    ensures { result ≡ (length slots.now == 16) }
{
    slots.len() == 16
}

fn is_whole_body(object: &Object, meter: &mut Meter) -> bool
    ensures { result ≡ is_whole_body object.now.body }
{
    match &object.body {
        Body::Container(_, _) => true,
        Body::Segment(bytes) => {
            let length = bytes.as_slice().len();
            length == 256 * (length / 256) && length <= 256 * 16
        }
        Body::AddressSpace(slots) => has_sixteen(&slots.slots),
        Body::Thread(thread) => {
            is_stored(&thread.clearance, meter) && is_stored(&thread.verify, meter)
        }
        Body::Gate(gate) => is_stored(&gate.clearance, meter),
        Body::Device(packets) => {
            packets.as_slice().len() <= 4 && are_packets(packets.as_slice())
        }
    }
}

/// Whether an object is whole apart from all others.
pub fn is_whole(object: &Object, meter: &mut Meter) -> bool
    ensures { result ≡ is_whole object.now }
{
    is_stored(&object.label, meter)
        && object.metadata.as_slice().len() == 64
        && is_whole_body(object, meter)
}

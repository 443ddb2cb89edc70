//! Labels as they are written.
ghost use Rattle.std.specs.Prelude.{◌≡◌, ◌↔◌, IsTrue, Some, None, if◌then◌else◌};
ghost use Rattle.std.specs.List.{list_all};
ghost use Rattle.kernel_rules.specs.WellFormed.{is_stored};
ghost use Rattle.label_lattice.specs.Raw.{all_made};
ghost use Rattle.checkpoints.specs.Restorable.{is_made_below, each};
ghost use Rattle.checkpoints.specs.Restored.{as_written};
ghost use Rattle.plain_state.specs.Recorded.{records_state};

use base::Meter;
use kernel_rules::{Body, Object};
use label_lattice::{Label, Pairs, RawLabel};
use plain_state::Records;

/// Whether two lists of pairs are the same.
fn are_same(a: &Pairs<24>, b: &Pairs<24>) -> bool
    ensures { IsTrue result ↔ (a.now ≡ b.now) }
{
    if a.len() != b.len() {
        return false;
    }
    for place in 0..a.len() {
        if a.pair_at(place) != b.pair_at(place) {
            return false;
        }
    }
    true
}

/// Whether two labels are written the same.
fn is_same(a: &RawLabel, b: &RawLabel) -> bool
    ensures { IsTrue result ↔ (a.now ≡ b.now) }
{
    a.default == b.default && are_same(&a.pairs, &b.pairs)
}

/// The label as it is written, where that is a stored label's way: its default 0 to 3, its pairs at
/// most 16 by rising category, of other levels.
pub fn stored(raw: &RawLabel, meter: &mut Meter) -> Option<Label>
    ensures { result ≡ (if is_stored (as_written raw.now) then Some (as_written raw.now) else None) }
{
    match Label::if_good(raw, meter) {
        None => None,
        Some(label) => {
            if is_same(&label.to_raw(meter), raw) {
                Some(label)
            } else {
                None
            }
        }
    }
}

fn is_label_made(next_category: u64, label: &Label, meter: &mut Meter) -> bool
    ensures { result ≡ all_made next_category label.now.exceptions }
{
    label.to_raw(meter).all_made(next_category)
}

fn is_made_below(next_category: u64, object: &Object, meter: &mut Meter) -> bool
    ensures { result ≡ is_made_below next_category object.now }
{
    is_label_made(next_category, &object.label, meter)
        && match &object.body {
            Body::Thread(thread) => {
                is_label_made(next_category, &thread.clearance, meter)
                    && is_label_made(next_category, &thread.verify, meter)
            }
            Body::Gate(gate) => is_label_made(next_category, &gate.clearance, meter),
            _ => true,
        }
}

/// Whether each category of the objects' labels was given.
pub fn are_made(records: &Records, meter: &mut Meter) -> bool
    ensures { result ≡ each (is_made_below records.now.next_category) (records_state records.now) }
{
    for (_, object) in records.objects.iter() {
        if !is_made_below(records.next_category, object, meter) {
            return false;
        }
    }
    true
}

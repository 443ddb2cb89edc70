//! The labels that a call carries.
ghost use Rattle.std.specs.Prelude.{◌≡◌, ◌≤◌, ◌+◌, IfSome};
ghost use Rattle.label_lattice.specs.Label.{IsStored};
ghost use Rattle.label_lattice.specs.LabelRules.{stored};

use crate::stores::Store;
use base::Meter;
use label_lattice::label_rules::stored_of;
use label_lattice::{Label, RawLabel};

/// A label that a call carries, in its stored form, if it has one. It is built once for a call: the row tests it, and the
/// change stores it.
#[inline(always)]
pub fn stored_label<S: Store>(state: &S, raw: &RawLabel, meter: &mut Meter) -> Option<Label>
    ensures value { result ≡ stored raw.now }
    ensures fit { IfSome result IsStored }
    ensures meter { S.kept meter.new ≤ S.kept meter.old + 1 }
{
    let _state = state;
    stored_of(raw, meter)
}

//! Look-ups in what a kernel keeps.
ghost use Rattle.std.specs.Prelude.{◌≡◌};
ghost use Rattle.histar_c.specs.Found.{IsFound};

use base::Meter;
use call_records::{Found, Lookup};
use label_intern::LabelIx;
use syscall_core::Kernel;

/// What is found in what a kernel keeps.
pub(crate) fn look_up(kernel: &Kernel, lookup: &Lookup, meter: &mut Meter) -> Found
    ensures { IsFound kernel.now lookup.now result }
{
    match lookup {
        Lookup::Live { place } => match kernel.kept_live(*place as usize, meter) {
            Some(id) => Found::Live(id),
            None => Found::Nothing,
        },
        Lookup::Used { id } => match kernel.kept_use(*id, meter) {
            Some(pages) => Found::Used(pages),
            None => Found::Nothing,
        },
        Lookup::Shown { thread, slot } => {
            match kernel.kept_translation(*thread, *slot as usize, meter) {
                Some((segment, rights)) => Found::Shown(segment, rights),
                None => Found::Nothing,
            }
        }
        Lookup::Label { index } => match kernel.kept_label(LabelIx(*index)) {
            Some(label) => Found::Label(*label),
            None => Found::Nothing,
        },
        Lookup::Order { first, second } => {
            match kernel.kept_order(LabelIx(*first), LabelIx(*second)) {
                Some(order) => Found::Order(order.0),
                None => Found::Nothing,
            }
        }
    }
}

//! What walks the places of a pool, by index from 0.
//!
//! A new label goes to the place that lost its last owner latest, if that is free, and else to the first free one. Labels
//! come and go in turn, so most are placed without a walk. No contract tells which free place it is.
ghost use Rattle.std.specs.Prelude.{◌≡◌, ◌<◌, ◌+◌, ◌*◌, ◌^◌, None, IfSome, IsSome, is_some, not, length};
ghost use Rattle.label_intern.specs.Held.{held_at, stored, fewer, raised, owners_in};
ghost use Rattle.label_intern.specs.Fill.{IsFilled};
ghost use Rattle.label_intern.specs.Listed.{IsListed};
ghost use Rattle.base.specs.Counts.{ScansAtMost};

use crate::held::Held;
use crate::table::Table;
use base::Meter;
use label_lattice::Label;

/// A free index, where not all are taken: the one that is likely to be free, where it is, and else the first.
pub fn free_place(slots: &[Option<Held>], likely: usize) -> usize
    requires { stored slots.now < length slots.now }
    ensures within { result < length slots.now }
    ensures free { held_at slots.now result ≡ None }
{
    if likely < slots.len() && slots[likely].is_none() {
        return likely;
    }
    for i in 0..slots.len() {
        if slots[i].is_none() {
            return i;
        }
    }
    unreachable!()
}

/// The label of an index that has one.
pub fn label_at(slots: &[Option<Held>], at: usize) -> &Label
    requires { IsSome (held_at slots.now at) }
    ensures { IfSome (held_at slots.now at) (λ held. result.now ≡ held.label) }
{
    match &slots[at] {
        Some(held) => &held.label,
        None => unreachable!(),
    }
}

/// Writes the order of a label against itself and every stored label, whose indexes are listed, and of these against it.
/// All other cells of the table stay. At most three scans, and six for each stored label.
pub fn fill(
    table: &mut Table,
    slots: &[Option<Held>],
    listed: &[u16],
    at: usize,
    label: &Label,
    meter: &mut Meter,
)
    requires width { table.old.width ≡ length slots.now }
    requires listed { IsListed slots.now listed.now }
    requires within { at < length slots.now }
    requires free { held_at slots.now at ≡ None }
    ensures scans { ScansAtMost (3 + 6 * stored slots.now) meter.old meter.new }
    ensures filled { IsFilled slots.now at label.now table.old table.new }
{
    let own = label.order_bits(label, meter);
    table.put(at, at, own, own);
    for i in 0..listed.len() {
        let other = usize::from(listed[i]);
        let ways = label.order_bits_both_ways(label_at(slots, other), meter);
        table.put(at, other, ways.forth, ways.back);
    }
}

/// Whether no owner is left of a place once one is taken.
pub fn is_last(place: &Option<Held>) -> bool
    ensures { is_some (fewer place.now) ≡ not result }
{
    match place {
        Some(held) => held.owners <= 1,
        None => true,
    }
}

/// Takes an owner from a place, which is free where it was the last.
pub fn lower(place: &mut Option<Held>)
    ensures { place.new ≡ fewer place.old }
{
    if let Some(held) = place {
        if held.owners > 1 {
            held.owners -= 1;
            return;
        }
    }
    *place = None;
}

/// Gives a place one owner more, and the label where it is free.
pub fn raise(place: &mut Option<Held>, label: &Label)
    requires label { IfSome place.old (λ held. held.label ≡ label.now) }
    requires room { owners_in place.old + 1 < 2 ^ 32 }
    ensures { place.new ≡ raised place.old label.now }
{
    match place {
        Some(held) => held.owners += 1,
        None => {
            *place = Some(Held {
                label: *label,
                owners: 1,
            });
        }
    }
}

//! The search for a label among the stored ones by halves.
ghost use Rattle.std.specs.Prelude.{◌≡◌, ◌+◌, ◌*◌, ◌<◌, ◌≤◌, length, slice_index, IfOk, IfErr, IsSome};
ghost use Rattle.std.specs.Prelude.{insert, slice_set, vec_len, vec_capacity};
ghost use Rattle.std.specs.declared.cmp.Ordering.TheVariants.{Equal};
ghost use Rattle.base.specs.Counts.{scanned, ScansAtMost};
ghost use Rattle.label_lattice.specs.Listing.{label_cmp};
ghost use Rattle.label_intern.specs.Held.{held_at, label_of, stored, fewer, HasLabel};
ghost use Rattle.label_intern.specs.Halves.{ScansByHalves};
ghost use Rattle.label_intern.specs.Listed.{Stands, IsListed, IsGap};

use crate::held::Held;
use crate::places::{is_last, label_at};
use base::Meter;
use label_lattice::Label;
use std::cmp::Ordering;

/// How the label of an index that has one is listed beside another. One scan.
fn compare_at(slots: &[Option<Held>], at: u16, label: &Label, meter: &mut Meter) -> Ordering
    requires { IsSome (held_at slots.now at) }
    ensures scan { meter.new ≡ scanned 1 meter.old }
    ensures order { result ≡ label_cmp (label_of slots.now at) label.now }
    ensures equal { result ≡ Equal → HasLabel slots.now at label.now }
{
    label_at(slots, usize::from(at)).listing_cmp(label, meter)
}

/// The index of an equal label; the place where it would stand among the indexes of the stored labels by rising labels,
/// where none is equal.
pub fn seek(
    slots: &[Option<Held>],
    listed: &[u16],
    label: &Label,
    meter: &mut Meter,
) -> Result<usize, usize>
    requires { IsListed slots.now listed.now }
    ensures halves { ScansByHalves (2 * stored slots.now + 1) meter.old meter.new }
    ensures scans { ScansAtMost (stored slots.now) meter.old meter.new }
    ensures found { IfOk result (λ i. HasLabel slots.now i label.now) }
    ensures gap { IfErr result (IsGap slots.now listed.now label.now) }
{
    let mut low = 0;
    let mut high = listed.len();
    while low < high {
        let middle = low + (high - low) / 2;
        match compare_at(slots, listed[middle], label, meter) {
            Ordering::Less => low = middle + 1,
            Ordering::Equal => return Ok(usize::from(listed[middle])),
            Ordering::Greater => high = middle,
        }
    }
    Err(low)
}

/// Where an index stands in a list that has it.
fn place_in(listed: &[u16], at: u16) -> usize
    requires { Stands listed.now at }
    ensures within { result < length listed.now }
    ensures here { slice_index listed.now result ≡ at }
{
    for i in 0..listed.len() {
        if listed[i] == at {
            return i;
        }
    }
    unreachable!()
}

/// Puts an index at a place of a list that has room. It takes no memory.
pub fn put_at(listed: &mut Vec<u16>, place: usize, at: u16)
    requires within { place ≤ vec_len listed.old }
    requires room { vec_len listed.old < vec_capacity listed.old }
    ensures items { listed.new.items ≡ insert listed.old.items place at }
    ensures capacity { vec_capacity listed.old ≤ vec_capacity listed.new }
{
    match listed.insert(place, at) {
        Ok(()) => {}
        Err(_) => unreachable!(),
    }
}

/// An index that has a label is to have an owner less: with its last one, it is listed no more.
pub fn unlist(slots: &[Option<Held>], listed: &mut Vec<u16>, at: u16)
    requires listed { IsListed slots.now listed.old.items }
    requires held { IsSome (held_at slots.now at) }
    ensures listed { IsListed (slice_set slots.now at (fewer (held_at slots.now at))) listed.new.items }
    ensures capacity { vec_capacity listed.new ≡ vec_capacity listed.old }
{
    if is_last(&slots[usize::from(at)]) {
        let place = place_in(listed, at);
        listed.remove(place);
    }
}

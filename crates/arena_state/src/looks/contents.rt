//! What is read of the contents of objects: a segment's bytes, the slots of an address space, a device's packets. No
//! label is scanned.
ghost use Rattle.std.specs.Prelude.{◌≡◌, ◌≤◌, ◌+◌, false, length, slice_range};
ghost use Rattle.base.specs.Counts.{probed};
ghost use Rattle.kernel_rules.specs.State.{bytes_at, packets_at, page_count, slots_at};
ghost use Rattle.kernel_rules.specs.Translate.{slot_at};
ghost use Rattle.arena_state.specs.Contents.{keeps_device};
ghost use Rattle.arena_state.specs.States.{state_of, Stands};
ghost use Rattle.arena_state.specs.Stocked.{kept_pages, keeps_space};
ghost use Rattle.arena_state.specs.Touched.{IsUnmapped};

use crate::locations::Location;
use crate::records::Kept;
use crate::states::ArenaState;
use base::{Data, Meter, ObjectId};
use kernel_rules::Mapping;

impl Kept {
    // Whether it is an address space.
    pub(crate) fn is_space(&self) -> bool
        ensures { result ≡ keeps_space self.now }
    {
        match self {
            Kept::AddressSpace => true,
            Kept::Container(_, _)
            | Kept::Segment(_)
            | Kept::Thread(_)
            | Kept::Gate(_)
            | Kept::Device => false,
        }
    }

    // Whether it is a device.
    pub(crate) fn is_device(&self) -> bool
        ensures { result ≡ keeps_device self.now }
    {
        match self {
            Kept::Device => true,
            Kept::Container(_, _)
            | Kept::Segment(_)
            | Kept::AddressSpace
            | Kept::Thread(_)
            | Kept::Gate(_) => false,
        }
    }

    // How many pages of bytes it has.
    pub(crate) fn pages(&self) -> u32
        ensures { result ≡ kept_pages self.now }
    {
        match self {
            Kept::Segment(pages) => *pages,
            Kept::Container(_, _)
            | Kept::AddressSpace
            | Kept::Thread(_)
            | Kept::Gate(_)
            | Kept::Device => 0,
        }
    }
}

impl ArenaState {
    /// The whole pages of a segment, of 256 bytes: 0 for any other object.
    pub fn page_count(&self, at: Location) -> u32
        requires { Stands self.now at }
        ensures { result ≡ page_count (state_of self.now) at.id }
    {
        match self.record(at) {
            Some(row) => row.body.pages(),
            None => 0,
        }
    }

    /// So many bytes of a segment, from one on, up to 64. (It is put into the two queries that read.)
    #[inline(always)]
    pub fn bytes_from(&self, at: Location, from: usize, count: u32, meter: &mut Meter) -> Data
        requires there { Stands self.now at }
        requires few { count ≤ 64 }
        requires inside { from + count ≤ length (bytes_at (state_of self.now) at.id) }
        ensures value { result ≡ slice_range (bytes_at (state_of self.now) at.id) from (from + count) }
        ensures scans { meter.new.scans ≡ meter.old.scans }
        ensures probes { meter.new.probes ≤ meter.old.probes + 2 }
    {
        match self.told(at) {
            Some(slot) => {
                let segments = &self.pieces.holdings.segments;
                segments.read(slot, from, count as usize, meter)
            }
            None => Data::from_slice(&[]),
        }
    }

    /// The sixteen slots of an address space, and none for any other object. At most sixteen probes.
    pub fn slots(&self, at: Location, meter: &mut Meter) -> &[Option<Mapping>]
        requires { Stands self.now at }
        ensures value { result.now ≡ slots_at (state_of self.now) at.id }
        ensures few { length result.now ≤ 16 }
        ensures scans { meter.new.scans ≡ meter.old.scans }
        ensures probes { meter.new.probes ≤ meter.old.probes + 16 }
    {
        match self.told(at) {
            Some(slot) => {
                if self.pieces.holdings.records[slot.0].body.is_space() {
                    self.pieces.holdings.spaces.mappings(slot, meter)
                } else {
                    &[]
                }
            }
            None => &[],
        }
    }

    /// What a slot of an address space maps, if anything. At most sixteen probes.
    pub fn mapped(&self, at: Location, place: usize, meter: &mut Meter) -> Option<Mapping>
        requires { Stands self.now at }
        ensures value { result ≡ slot_at (state_of self.now) at.id place }
        ensures scans { meter.new.scans ≡ meter.old.scans }
        ensures probes { meter.new.probes ≤ meter.old.probes + 16 }
    {
        match self.slots(at, meter).get(place) {
            None => None,
            Some(mapping) => *mapping,
        }
    }

    /// Whether an address space may map an object: where the answer is no, none does. It may be yes though none does:
    /// ids whose last binary digits are equal answer as one, and a mapping that is gone counts on. No object is looked
    /// up. One probe.
    pub fn may_map(&self, object: ObjectId, meter: &mut Meter) -> bool
        ensures none { result ≡ false → IsUnmapped (state_of self.now) object }
        ensures counted { meter.new ≡ probed 1 meter.old }
    {
        self.pieces.holdings.spaces.may_map(object, meter)
    }

    /// A device's packets, the first one first, and none for any other object.
    pub fn packets(&self, at: Location) -> &[Data]
        requires { Stands self.now at }
        ensures { result.now ≡ packets_at (state_of self.now) at.id }
    {
        match self.told(at) {
            Some(slot) => {
                if self.pieces.holdings.records[slot.0].body.is_device() {
                    self.pieces.holdings.queues.packets(slot)
                } else {
                    &[]
                }
            }
            None => &[],
        }
    }
}

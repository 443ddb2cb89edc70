//! The changes of contents: a segment's bytes, the slots of an address space, a device's packets. None takes memory or
//! scans a label.
ghost use Rattle.std.specs.Prelude.{◌≡◌, ◌≤◌, ◌<◌, ◌+◌, ◌*◌, true, ◌++◌, ◌∷◌, [], length, drop, slice_set};
ghost use Rattle.arena_memory.specs.Mappings.{with_mapping};
ghost use Rattle.kernel_rules.specs.Changes.{changed, with_body, rebyte, requeue, reslot};
ghost use Rattle.base.specs.declared.kinds.Kind.TheVariants as kinds;
ghost use Rattle.kernel_rules.specs.State.{bytes_at, is_kind_at, packets_at, quota_at};
ghost use Rattle.kernel_rules.specs.Written.{resized, written};
ghost use Rattle.arena_state.specs.States.{state_of, Stands};

use crate::locations::Location;
use crate::records::Kept;
use crate::states::ArenaState;
use arena_memory::address_spaces::Spaces;
use base::{Data, Meter, Slot};
use kernel_rules::Mapping;

// A place of an address space has this mapping, or none.
fn fill(spaces: &mut Spaces, space: Slot, place: usize, mapping: Option<Mapping>)
    requires space { space.0 < length spaces.old }
    requires place { place < 16 }
    ensures { spaces.new ≡ with_mapping spaces.old space.0 place mapping }
{
    match mapping {
        Some(mapping) => spaces.map(space, place, mapping),
        None => spaces.unmap(space, place),
    }
}

impl ArenaState {
    /// A slot of an address space is filled or emptied.
    pub fn set_slot(&mut self, space: Location, place: usize, mapping: Option<Mapping>)
        requires there { Stands self.old space }
        requires place { place < 16 }
        ensures state { state_of self.new ≡ changed (state_of self.old) space.id
            (with_body (reslot (λ slots. slice_set slots place mapping))) }
        ensures places { self.new.pieces.places ≡ self.old.pieces.places }
    {
        match self.told(space) {
            Some(slot) => {
                if self.pieces.holdings.records[slot.0].body.is_space() {
                    fill(&mut self.pieces.holdings.spaces, slot, place, mapping);
                }
            }
            None => {}
        }
    }

    /// A segment's bytes are written over from `at` on.
    #[inline(always)]
    pub fn write_bytes(&mut self, segment: Location, at: usize, given: &[u8], meter: &mut Meter)
        requires there { Stands self.old segment }
        requires inside { at + length given.now ≤ length (bytes_at (state_of self.old) segment.id) }
        ensures state { state_of self.new
            ≡ changed (state_of self.old) segment.id (with_body (rebyte (written at given.now))) }
        ensures places { self.new.pieces.places ≡ self.old.pieces.places }
        ensures scans { meter.new.scans ≡ meter.old.scans }
    {
        match self.told(segment) {
            Some(slot) => self.pieces.holdings.segments.write(slot, at, given, meter),
            None => {}
        }
    }

    /// A segment gets so many pages within its quota: what is cut off is gone, what is new is 0.
    pub fn resize(&mut self, segment: Location, pages: u32, meter: &mut Meter)
        requires there { Stands self.old segment }
        requires kind { is_kind_at (state_of self.old) kinds.Segment segment.id ≡ true }
        requires few { pages ≤ 16 }
        requires room { 1 + pages ≤ quota_at (state_of self.old) segment.id }
        ensures state { state_of self.new
            ≡ changed (state_of self.old) segment.id (with_body (rebyte (resized (256 * pages)))) }
        ensures places { self.new.pieces.places ≡ self.old.pieces.places }
        ensures scans { meter.new.scans ≡ meter.old.scans }
    {
        match self.told(segment) {
            Some(slot) => {
                self.pieces.holdings.records[slot.0].body = Kept::Segment(pages);
                self.pieces.holdings.segments.resize(slot, pages, meter);
            }
            None => unreachable!(),
        }
    }

    /// A packet comes last in a device's queue, which has room for it.
    pub fn dev_send(&mut self, device: Location, packet: Data, meter: &mut Meter)
        requires there { Stands self.old device }
        requires some { 1 ≤ length packet }
        requires few { length packet ≤ 64 }
        requires room { length (packets_at (state_of self.old) device.id) < 4 }
        ensures state { state_of self.new ≡ changed (state_of self.old) device.id
            (with_body (requeue (λ packets. packets ++ packet ∷ []))) }
        ensures places { self.new.pieces.places ≡ self.old.pieces.places }
        ensures scans { meter.new.scans ≡ meter.old.scans }
    {
        match self.told(device) {
            Some(slot) => {
                if self.pieces.holdings.records[slot.0].body.is_device() {
                    self.pieces.holdings.queues.send(slot, packet, meter);
                }
            }
            None => {}
        }
    }

    /// The first packet of a device's queue is taken out, if there is one.
    pub fn dev_recv(&mut self, device: Location, meter: &mut Meter)
        requires { Stands self.old device }
        ensures state { state_of self.new
            ≡ changed (state_of self.old) device.id (with_body (requeue (drop 1))) }
        ensures places { self.new.pieces.places ≡ self.old.pieces.places }
        ensures scans { meter.new.scans ≡ meter.old.scans }
    {
        match self.told(device) {
            Some(slot) => {
                if self.pieces.holdings.records[slot.0].body.is_device() {
                    self.pieces.holdings.queues.receive(slot, meter);
                }
            }
            None => {}
        }
    }
}

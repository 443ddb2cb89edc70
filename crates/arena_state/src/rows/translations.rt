//! What a thread's address space shows, and where an address lies, by the row that is kept for the
//! thread. No label is looked at.
ghost use Rattle.std.specs.Prelude.{◌≡◌, ◌≤◌, ◌<◌, ◌+◌, ◌*◌, ◌/◌, [], true, length, IfSome, option_copied, option_map};
ghost use Rattle.containers.specs.Tree.{HasSlot};
ghost use Rattle.kernel_rules.specs.Translate.{translate, own_space, slots_through};
ghost use Rattle.kernel_rules.specs.Translate.{covers, place_at, place_by, place_among, place_of};
ghost use Rattle.kernel_store.specs.Locations.{place_in};
ghost use Rattle.arena_state.specs.declared.locations.Location.{Location};
ghost use Rattle.arena_state.specs.Shown.{AreKept};
ghost use Rattle.arena_state.specs.States.{state_of, find_cost, Finds, Stands};

use crate::locations::Location;
use crate::records::{Kept, Record};
use crate::states::ArenaState;
use arena_memory::translation_rows::Rows;
use base::{Meter, ObjectId, Rights};
use containers::Located;
use kernel_rules::{Entry, Mapping, covers};
use kernel_store::Placed;

impl ArenaState {
    // The entry of a thread's address space by the record that was found, none for any other
    // object.
    pub(crate) fn space_in(&self, thread: ObjectId, found: Option<&Record>) -> Option<Entry>
        requires { Finds self.now thread (option_copied found) }
        ensures { result ≡ own_space (state_of self.now) thread }
    {
        let _thread = thread;
        match found {
            Some(row) => match &row.body {
                Kept::Thread(kept) => Some(kept.space),
                _ => None,
            },
            None => None,
        }
    }

    /// What a slot of a thread's address space shows, by its row: a segment, with the rights to it;
    /// nothing for what is no thread, and from the sixteenth slot on.
    pub fn kept_translation(
        &self,
        thread: ObjectId,
        place: usize,
        rows: &Rows,
        meter: &mut Meter,
    ) -> Option<(ObjectId, Rights)>
        requires { AreKept self.now rows.now }
        ensures value { result ≡ translate (state_of self.now) thread place }
        ensures scans { meter.new.scans ≡ meter.old.scans }
        ensures probes { meter.new.probes ≤ meter.old.probes + find_cost self.now + 1 }
    {
        if 16 <= place {
            return None;
        }
        match self.slot(thread, meter) {
            Some(slot) => rows.shown(slot, place, meter),
            None => None,
        }
    }

    // Where an address lies in a segment that is shown, at a page of it, unless that is past its end.
    fn place_at(
        &self,
        address: u64,
        page: u64,
        shown: (ObjectId, Rights),
        meter: &mut Meter,
    ) -> Option<Placed<Location>>
        ensures value { option_map (place_in (λ (l : Location). l.id)) result
            ≡ place_at (state_of self.now) address page shown }
        ensures segment { IfSome result (λ p. Stands self.now p.segment) }
        ensures scans { meter.new.scans ≡ meter.old.scans }
        ensures probes { meter.new.probes ≤ meter.old.probes + find_cost self.now }
    {
        let (id, rights) = shown;
        let slot = self.slot(id, meter);
        if page < u64::from(self.page_count(Location { id, slot })) {
            Some(Placed {
                segment: Location { id, slot },
                offset: 256 * page + address % 256,
                rights,
            })
        } else {
            None
        }
    }

    // Where an address lies by a mapping that covers it, and what that shows.
    #[inline(always)]
    fn place_by(
        &self,
        address: u64,
        mapping: &Option<Mapping>,
        shown: Option<(ObjectId, Rights)>,
        meter: &mut Meter,
    ) -> Option<Placed<Location>>
        requires { covers (address / 256) mapping.now ≡ true }
        ensures value { option_map (place_in (λ (l : Location). l.id)) result
            ≡ place_by (state_of self.now) address mapping.now shown }
        ensures segment { IfSome result (λ p. Stands self.now p.segment) }
        ensures scans { meter.new.scans ≡ meter.old.scans }
        ensures probes { meter.new.probes ≤ meter.old.probes + find_cost self.now }
    {
        match mapping {
            None => None,
            Some(mapping) => match shown {
                None => None,
                Some(shown) => {
                    let page = u64::from(mapping.first) + (address / 256 - u64::from(mapping.page));
                    self.place_at(address, page, shown, meter)
                }
            },
        }
    }

    // Where an address of a thread lies by these slots of its address space, and by the thread's row.
    #[inline(always)]
    fn place_among(
        &self,
        thread: Located,
        address: u64,
        slots: &[Option<Mapping>],
        rows: &Rows,
        meter: &mut Meter,
    ) -> Option<Placed<Location>>
        requires thread { HasSlot self.now.pieces.places thread.id thread.slot.0 }
        requires rows { AreKept self.now rows.now }
        requires few { length slots.now ≤ 16 }
        ensures value { option_map (place_in (λ (l : Location). l.id)) result
            ≡ place_among (state_of self.now) thread.id address 0 slots.now }
        ensures segment { IfSome result (λ p. Stands self.now p.segment) }
        ensures scans { meter.new.scans ≡ meter.old.scans }
        ensures probes { meter.new.probes ≤ meter.old.probes + find_cost self.now + 1 }
    {
        for place in 0..slots.len() {
            let mapping = &slots[place];
            if covers(mapping, address / 256) {
                let shown = rows.shown(thread.slot, place, meter);
                return self.place_by(address, mapping, shown, meter);
            }
        }
        None
    }

    // The slots of the address space of an entry.
    fn slots_through(&self, space: &Option<Entry>, meter: &mut Meter) -> &[Option<Mapping>]
        ensures value { result.now ≡ slots_through (state_of self.now) space.now }
        ensures few { length result.now ≤ 16 }
        ensures scans { meter.new.scans ≡ meter.old.scans }
        ensures probes { meter.new.probes ≤ meter.old.probes + find_cost self.now + 16 }
    {
        match space {
            None => &[],
            Some(space) => {
                let at = self.find(space.object, meter);
                self.slots(at, meter)
            }
        }
    }

    /// Where an address of a thread lies, by the one mapping that covers its page, and by the
    /// thread's row. (It is put into the few who ask, since what it tells is large.)
    #[inline(always)]
    #[tactic(auto, unfolding(kernel_rules::specs::Translate::place_of))]
    pub fn place(
        &self,
        caller: Location,
        address: u64,
        rows: &Rows,
        meter: &mut Meter,
    ) -> Option<Placed<Location>>
        requires caller { Stands self.now caller }
        requires rows { AreKept self.now rows.now }
        ensures value { option_map (place_in (λ (l : Location). l.id)) result
            ≡ place_of (state_of self.now) caller.id address }
        ensures segment { IfSome result (λ p. Stands self.now p.segment) }
        ensures scans { meter.new.scans ≡ meter.old.scans }
        ensures probes { meter.new.probes ≤ meter.old.probes + 2 * find_cost self.now + 17 }
    {
        let thread = caller.id;
        match self.told(caller) {
            Some(slot) => {
                let at = Location {
                    id: thread,
                    slot: Some(slot),
                };
                let space = self.space_in(thread, self.record(at));
                let slots = self.slots_through(&space, meter);
                let thread = Located { id: thread, slot };
                self.place_among(thread, address, slots, rows, meter)
            }
            None => None,
        }
    }
}

//! An entry that is taken out, and the objects that are gone with it.
ghost use Rattle.std.specs.Prelude.{◌≡◌};
ghost use Rattle.kernel_rules.specs.Changes.{changed, delisting};
ghost use Rattle.kernel_rules.specs.Step.{restricted};
ghost use Rattle.kernel_store.specs.Sights.{kind_at};
ghost use Rattle.arena_state.specs.Shown.{KeepsAllSlots};
ghost use Rattle.arena_state.specs.States.{state_of, HasRow, Stands};

use crate::locations::Location;
use crate::records::discharge;
use crate::states::ArenaState;
use base::{Kind, Meter};
use containers::Located;

impl ArenaState {
    /// An object is taken out of a container's list, and what no path from the root leads to is gone. It takes no memory and
    /// scans no label. What no list has is left. Tells the kind that the object had, none where it was not recorded.
    #[inline(always)]
    pub fn unref(
        &mut self,
        container: Location,
        object: Location,
        meter: &mut Meter,
    ) -> Option<Kind>
        requires container { Stands self.old container }
        requires object { Stands self.old object }
        ensures kind { result ≡ kind_at (state_of self.old) object.id }
        ensures state { state_of self.new ≡ restricted
            (changed (state_of self.old) container.id (delisting object.id)) }
        ensures slots { KeepsAllSlots self.old self.new }
        ensures scans { meter.new.scans ≡ meter.old.scans }
    {
        let from = container.id;
        let (id, slot) = (object.id, object.slot);
        let kind = self.kind(Location { id, slot });
        match self.told(container) {
            Some(parent) => match self.told(Location { id, slot }) {
                Some(gone) => {
                    let lister = Located {
                        id: from,
                        slot: parent,
                    };
                    let listed = Located { id, slot: gone };
                    self.unlink(lister, listed, meter)
                }
                None => {}
            },
            None => {}
        }
        kind
    }

    // An object is taken out of a container's list. What it doesn't list is left.
    #[inline(always)]
    fn unlink(&mut self, lister: Located, listed: Located, meter: &mut Meter)
        requires container { HasRow self.old lister.id lister.slot.0 }
        requires object { HasRow self.old listed.id listed.slot.0 }
        ensures state { state_of self.new ≡ restricted
            (changed (state_of self.old) lister.id (delisting listed.id)) }
        ensures slots { KeepsAllSlots self.old self.new }
        ensures scans { meter.new.scans ≡ meter.old.scans }
    {
        let (from, gone) = (lister.slot, listed.slot);
        let pages = self.pieces.holdings.records[gone.0].quota;
        let holdings = &mut self.pieces.holdings;
        if self
            .pieces
            .places
            .unref_found(lister, listed, holdings, meter)
        {
            let _count = self.pieces.places.len();
            discharge(&mut self.pieces.holdings.records[from.0], pages);
        }
    }
}

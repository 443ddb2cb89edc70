//! A second link: what its container uses changes with it. No label is scanned.
ghost use Rattle.std.specs.Prelude.{◌≡◌, ◌≤◌, ◌+◌, true, false};
ghost use Rattle.base.specs.Live.{has};
ghost use Rattle.base.specs.declared.kinds.Kind.TheVariants as kinds;
ghost use Rattle.kernel_rules.specs.Changes.{changed, listing};
ghost use Rattle.kernel_rules.specs.State.{holds, is_fixed, is_kind_at, list_at, quota_at, use_of};
ghost use Rattle.kernel_store.specs.Sights.{kind_at};
ghost use Rattle.arena_state.specs.Shown.{KeepsAllSlots};
ghost use Rattle.arena_state.specs.States.{state_of, Stands};

use crate::locations::Location;
use crate::records::charge;
use crate::states::ArenaState;
use base::{Kind, Meter};
use containers::Located;

impl ArenaState {
    /// An object whose quota is fixed, and which this container holds, comes last in the list of a second one, which uses
    /// its quota more. It takes no memory: the link is there, since the quota was admitted. Tells the kind of the object.
    #[inline(always)]
    pub fn link(
        &mut self,
        target: Location,
        container: Location,
        object: Location,
        meter: &mut Meter,
    ) -> Option<Kind>
        requires target_there { Stands self.old target }
        requires object_there { Stands self.old object }
        requires container { is_kind_at (state_of self.old) kinds.Container target.id ≡ true }
        requires held { holds (state_of self.old)
            (record { container = container.id; object = object.id }) ≡ true }
        requires plain { is_kind_at (state_of self.old) kinds.Container object.id ≡ false }
        requires fixed { is_fixed (state_of self.old) object.id ≡ true }
        requires unlisted { has (list_at (state_of self.old) target.id) object.id ≡ false }
        requires room { use_of (state_of self.old) target.id + quota_at (state_of self.old) object.id
            ≤ quota_at (state_of self.old) target.id }
        ensures kind { result ≡ kind_at (state_of self.old) object.id }
        ensures state { state_of self.new ≡ changed (state_of self.old) target.id (listing object.id) }
        ensures slots { KeepsAllSlots self.old self.new }
        ensures scans { meter.new.scans ≡ meter.old.scans }
    {
        let (_, into) = (container.id, target.id);
        let (id, slot) = (object.id, object.slot);
        let kind = self.kind(Location { id, slot });
        match self.told(target) {
            Some(parent) => match self.told(Location { id, slot }) {
                Some(linked) => {
                    let pages = self.pieces.holdings.records[linked.0].quota;
                    let lister = Located {
                        id: into,
                        slot: parent,
                    };
                    let listed = Located { id, slot: linked };
                    self.pieces.places.link_found(lister, listed, meter);
                    let _count = self.pieces.places.len();
                    let charged = &mut self.pieces.holdings.records[parent.0];
                    let most = charged.quota;
                    charge(charged, pages, most);
                    kind
                }
                None => unreachable!(),
            },
            None => unreachable!(),
        }
    }
}

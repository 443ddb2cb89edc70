//! What a thread sees of an object, where both lie being known. No label is scanned.
ghost use Rattle.std.specs.Prelude.{◌≡◌};
ghost use Rattle.base.specs.Live.{has};
ghost use Rattle.kernel_rules.specs.State.{avoids_at, is_live_kind, list_at};
ghost use Rattle.kernel_store.specs.Sights.{seen_of};
ghost use Rattle.arena_state.specs.States.{state_of, Stands};

use crate::locations::Location;
use crate::records::Kept;
use crate::states::ArenaState;
use base::{Kind, Meter};
use containers::Located;
use kernel_store::Seen;

impl ArenaState {
    /// What a thread sees of an object.
    #[inline(always)]
    pub fn seen(&self, caller: Location, at: Location) -> Seen
        requires caller { Stands self.now caller }
        requires there { Stands self.now at }
        ensures { result ≡ seen_of (state_of self.now) caller.id at.id }
    {
        let own = self.record(caller);
        let other = self.record(at);
        let visible = self.observed(own, other);
        let below = self.flowing(own, other);
        match other {
            Some(row) => Seen {
                kind: Some(row.body.kind()),
                observed: visible,
                flowing: below,
                immutable: row.immutable,
                fixed: row.fixed,
                pages: row.body.pages(),
            },
            None => Seen {
                kind: None,
                observed: visible,
                flowing: below,
                immutable: false,
                fixed: false,
                pages: 0,
            },
        }
    }

    /// Whether a live object of this kind lies there: each object that is recorded is live.
    #[inline(always)]
    pub fn is_live(&self, kind: Kind, at: Location) -> bool
        requires { Stands self.now at }
        ensures { result ≡ is_live_kind (state_of self.now) kind at.id }
    {
        let found = self.record(at);
        match found {
            Some(row) => row.body.kind() == kind,
            None => false,
        }
    }

    /// Whether a container's list has an object.
    #[inline(always)]
    pub fn lists(&self, container: Location, object: Location, meter: &mut Meter) -> bool
        requires container { Stands self.now container }
        requires object { Stands self.now object }
        ensures value { result ≡ has (list_at (state_of self.now) container.id) object.id }
        ensures scans { meter.new.scans ≡ meter.old.scans }
    {
        let (container_id, object_id) = (container.id, object.id);
        match self.told(container) {
            Some(d) => match self.told(object) {
                Some(o) => {
                    let lister = Located {
                        id: container_id,
                        slot: d,
                    };
                    let listed = Located {
                        id: object_id,
                        slot: o,
                    };
                    self.pieces.places.is_linked(lister, listed, meter)
                }
                None => false,
            },
            None => false,
        }
    }

    /// Whether a container won't hold this kind.
    #[inline(always)]
    pub fn avoids(&self, kind: Kind, container: Location) -> bool
        requires { Stands self.now container }
        ensures { result ≡ avoids_at (state_of self.now) kind container.id }
    {
        match self.record(container) {
            Some(row) => match &row.body {
                Kept::Container(avoid, _) => avoid.has(kind),
                _ => false,
            },
            None => false,
        }
    }
}

//! A slot, an id and a first link for a new record.
ghost use Rattle.std.specs.Prelude.{◌≡◌, [], ◌∷◌, ◌++◌, ◌+◌, ◌<◌, ◌≤◌, ◌^◌, length, All, IsSome};
ghost use Rattle.containers.specs.Tree.{ids_in, link_count, record_at, HasSlot};
ghost use Rattle.arena_state.specs.Assembled.{record_in, body_use};
ghost use Rattle.arena_state.specs.Creations.{IsPlaced};

use crate::pieces::Pieces;
use crate::records::{Record, charge};
use base::{Meter, ObjectId, Slot};
use containers::Located;

/// A record gets a free slot and the next id, which comes last in a container's list, and the container, whose slot is
/// the parent's, is charged its quota. What the slot holds beside the record stays. It takes no memory and scans no
/// label.
pub fn place(
    pieces: &mut Pieces,
    container: ObjectId,
    parent: Slot,
    given: Record,
    meter: &mut Meter,
) -> Located
    requires container { HasSlot pieces.old.places container parent.0 }
    requires rises { All (λ i. i < pieces.old.next_id) (ids_in pieces.old.places.lists) }
    requires left { pieces.old.next_id < 2 ^ 61 }
    requires slots { length (ids_in pieces.old.places.lists) < length pieces.old.places.cells }
    requires room { link_count pieces.old.places.lists < length pieces.old.places.cells }
    requires records { length pieces.old.holdings.records.items ≡ length pieces.old.places.cells }
    requires within { parent.0 < length pieces.old.places.cells }
    requires there { IsSome (record_at pieces.old.places parent.0) }
    requires quota { let kept = record_in pieces.old.holdings.records.items parent.0 in
        body_use kept.body + given.quota ≤ kept.quota }
    ensures id { result.id ≡ pieces.old.next_id }
    ensures placed { IsPlaced pieces.old pieces.new container parent.0 given }
    ensures slot { pieces.new.places.slots ≡ pieces.old.places.slots ++ result.slot.0 ∷ [] }
    ensures scans { meter.new.scans ≡ meter.old.scans }
{
    let next = pieces.next_id;
    let pages = given.quota;
    let id = ObjectId::new(next);
    let listing = Located {
        id: container,
        slot: parent,
    };
    let slot = pieces.places.create_in(listing, id, (), meter);
    let _count = pieces.places.len();
    pieces.holdings.records[slot.0] = given;
    let charged = &mut pieces.holdings.records[parent.0];
    let most = charged.quota;
    charge(charged, pages, most);
    pieces.next_id = next + 1;
    Located { id, slot }
}

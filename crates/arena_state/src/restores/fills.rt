//! All slots of a state, laid out anew.
ghost use Rattle.std.specs.Prelude.{◌≡◌, [], length};
ghost use Rattle.kernel_rules.specs.State.{lists_of};
ghost use Rattle.plain_state.specs.Recorded.{records_state};
ghost use Rattle.arena_state.specs.Restored.{IsFilled, IsHoldable};

use crate::holdings::Holdings;
use crate::restores::contents::put_object;
use base::Meter;
use containers::Containers;
use plain_state::{Records, used};

/// The slots of a tree of a state's entries have what the state says, where they held nothing.
pub fn fill(holdings: &mut Holdings, tree: &Containers<()>, records: &Records, meter: &mut Meter)
    requires holdable { IsHoldable (records_state records.now) }
    requires lists { tree.now.lists ≡ lists_of records.now.objects.entries }
    requires cells { length tree.now.cells ≡ records.now.limits.pages }
    requires none { IsFilled (records_state records.now) tree.now.slots [] holdings.old }
    ensures { IsFilled (records_state records.now) tree.now.slots records.now.objects.entries holdings.new }
{
    // For the proof alone: what the type says of the tree is known once it is asked.
    let _count = tree.len();
    for (id, object) in records.objects.iter() {
        match tree.find(*id, meter) {
            Some(slot) => {
                let pages = used(records, *id).min(u128::from(object.quota)) as u32;
                put_object(holdings, slot, object, pages, meter);
            }
            None => unreachable!(),
        }
    }
}

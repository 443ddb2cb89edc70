//! Whether the containers of a state are younger than those that list them.
ghost use Rattle.std.specs.Prelude.{◌≡◌, ◌||◌, not, nat_lt};
ghost use Rattle.base.specs.declared.kinds.Kind.TheVariants as kinds;
ghost use Rattle.kernel_rules.specs.State.{is_kind_at, listed};
ghost use Rattle.plain_state.specs.Recorded.{records_state};
ghost use Rattle.arena_state.specs.Restored.{are_younger, lists_younger};

use base::ObjectId;
use kernel_rules::{Body, Object};
use plain_state::Records;

fn is_container(records: &Records, id: ObjectId) -> bool
    ensures { result ≡ is_kind_at (records_state records.now) kinds.Container id }
{
    match records.objects.get(&id) {
        None => false,
        Some(object) => match &object.body {
            Body::Container(_, _) => true,
            _ => false,
        },
    }
}

fn is_younger(records: &Records, lister: ObjectId, id: ObjectId) -> bool
    ensures { result ≡ (not (is_kind_at (records_state records.now) kinds.Container id) || nat_lt lister id) }
{
    !is_container(records, id) || lister.number() < id.number()
}

fn lists_younger(records: &Records, lister: ObjectId, object: &Object) -> bool
    ensures { result ≡ lists_younger (records_state records.now) lister (listed object.now.body) }
{
    match &object.body {
        Body::Container(_, list) => list
            .as_slice()
            .iter()
            .all(|id| is_younger(records, lister, *id)),
        _ => true,
    }
}

/// Whether each container has a greater id than the one that lists it, as in each state that calls lead to. An arena lays
/// out no other state.
pub fn are_younger(records: &Records) -> bool
    ensures { result ≡ are_younger (records_state records.now) }
{
    records
        .objects
        .iter()
        .all(|(id, object)| lists_younger(records, *id, object))
}

//! What a call names, each id found once, at the front of the call: its row and its change go by the locations.
//!
//! The calls made most often ask the hints first (`Store::peek`), and find each id where these don't tell. Both ways lead to one
//! function that is put into the call: behind the hints the compiler knows that all slots are there, and leaves out each
//! test of that. Behind a call that takes `Named` each read tests it again, so all other functions that are put in line with
//! `peek` are marked so.
ghost use Rattle.std.specs.Prelude.{◌≡◌};
ghost use Rattle.kernel_store.specs.Locations.{Stand, entry_of};

use crate::stores::Store;
use base::{Meter, ObjectId};
use kernel_rules::Entry;

/// Where a caller and the container and the object of an entry lie.
#[derive(Clone, Copy)]
pub struct Named<L> {
    /// The caller.
    pub caller: L,
    /// The container of the entry.
    pub container: L,
    /// Its object.
    pub object: L,
}

/// The entry by which a container names itself.
pub fn itself(container: ObjectId) -> Entry
    ensures { result ≡ record { container = container; object = container } }
{
    Entry {
        container,
        object: container,
    }
}

/// What an entry names, looked up, for a caller that was found.
pub fn find_entry<S: Store>(
    state: &S,
    caller: S::Location,
    entry: &Entry,
    meter: &mut Meter,
) -> Named<S::Location>
    requires { S.stands state.now caller }
    ensures stands { Stand (S.stands state.now) result }
    ensures caller { S.id_of result.caller ≡ S.id_of caller }
    ensures object { S.id_of result.object ≡ entry.now.object }
    ensures entry { entry_of S.id_of result ≡ entry.now }
    ensures meter { S.kept meter.new ≡ S.kept meter.old }
{
    Named {
        caller,
        container: state.find(entry.container, meter),
        object: state.find(entry.object, meter),
    }
}

/// A caller and what an entry names, each looked up. (It is out of line: the calls made most often do without it.)
#[inline(never)]
pub fn find_all<S: Store>(
    state: &S,
    thread: ObjectId,
    entry: &Entry,
    meter: &mut Meter,
) -> Named<S::Location>
    ensures stands { Stand (S.stands state.now) result }
    ensures caller { S.id_of result.caller ≡ thread }
    ensures entry { entry_of S.id_of result ≡ entry.now }
    ensures meter { S.kept meter.new ≡ S.kept meter.old }
{
    let caller = state.find(thread, meter);
    find_entry(state, caller, entry, meter)
}

/// A caller and a container, each looked up: the container is named as an entry of itself.
#[inline(never)]
pub fn find_container<S: Store>(
    state: &S,
    thread: ObjectId,
    container: ObjectId,
    meter: &mut Meter,
) -> Named<S::Location>
    ensures stands { Stand (S.stands state.now) result }
    ensures caller { S.id_of result.caller ≡ thread }
    ensures container { S.id_of result.container ≡ container }
    ensures meter { S.kept meter.new ≡ S.kept meter.old }
{
    let caller = state.find(thread, meter);
    let at = state.find(container, meter);
    Named {
        caller,
        container: at,
        object: at,
    }
}

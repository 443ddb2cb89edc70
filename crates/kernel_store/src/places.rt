//! Where an address lies.
ghost use Rattle.std.specs.Prelude.{◌≡◌, option_map};
ghost use Rattle.kernel_store.specs.Locations.{place_in};

use crate::stores::Store;
use base::Rights;
use kernel_rules::Place;

/// Where an address lies, once its segment was found.
#[derive(Clone, Copy)]
pub struct Placed<L> {
    /// The segment.
    pub segment: L,
    /// The byte of the segment, from 0.
    pub offset: u64,
    /// What may be done there.
    pub rights: Rights,
}

/// The same place, by the id of its segment.
#[inline(always)]
pub fn named_place<S: Store>(state: &S, found: Option<Placed<S::Location>>) -> Option<Place>
    ensures { result ≡ option_map (place_in S.id_of) found }
{
    match found {
        Some(found) => Some(Place {
            segment: state.id(found.segment),
            offset: found.offset,
            rights: found.rights,
        }),
        None => None,
    }
}

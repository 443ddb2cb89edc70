//! The words of the table of calls, each a few conditions with the refusals that they give.
ghost use Rattle.std.specs.Prelude.{◌≡◌, ◌∷◌, [], ◌+◌, ◌*◌, ◌&&◌, not, nat_lt, is_none, map};
ghost use Rattle.base.specs.Sets.{may_read, may_write};
ghost use Rattle.base.specs.declared.kinds.Kind.TheVariants as kinds;
ghost use Rattle.base.specs.declared.refusals.Refusal.TheVariants as refusal;
ghost use Rattle.kernel_rules.specs.Conditions.{is_shape, allows};
ghost use Rattle.kernel_rules.specs.Rows.{refusal_of};
ghost use Rattle.kernel_rules.specs.Table.{halted};
ghost use Rattle.kernel_rules.specs.Translate.{names_none};
ghost use Rattle.kernel_store.specs.Parts.{joined};
ghost use Rattle.kernel_store.specs.Sights.{is_of};

use crate::sights::{Seen, Sight};
use crate::stores::Store;
use base::{Kind, Refusal};
use kernel_rules::{Entry, Place, least_with};

/// A refusal, and whether it is given.
pub type Condition = (Refusal, bool);

/// Of the conditions that hold in these parts of a row, the one with the least number gives the
/// refusal. (It is put into its callers, where the parts are known, so that no row is walked.)
#[inline(always)]
pub fn refusal_of(row: &[&[Condition]]) -> Option<Refusal>
    ensures { result ≡ refusal_of (joined (map (λ part. part.now) row.now)) }
{
    let mut least = None;
    for part in row {
        least = least_with(least, part);
    }
    least
}

/// The caller is no live thread.
pub fn halted<S: Store>(state: &S, caller: S::Location) -> [Condition; 1]
    requires { S.stands state.now caller }
    ensures { result ≡ halted (S.state state.now) (S.id_of caller) }
{
    [(Refusal::Halted, !state.is_live(Kind::Thread, caller))]
}

/// The caller, who looked at an entry, is no live thread.
pub fn halted_at(seen: &Sight) -> [Condition; 1]
    ensures { result ≡ (refusal.Halted, not seen.now.runs) ∷ [] }
{
    [(Refusal::Halted, !seen.runs)]
}

/// The container is a live container that the thread observes.
pub fn at_container(seen: &Sight) -> [Condition; 1]
    ensures { result ≡ (refusal.NoAccess, not seen.now.accessible) ∷ [] }
{
    [(Refusal::NoAccess, !seen.accessible)]
}

/// The container is such a container, and the entry stands.
pub fn in_container(seen: &Sight) -> [Condition; 2]
    ensures { result ≡ (refusal.NoAccess, not seen.now.accessible)
        ∷ (refusal.NoEntry, not seen.now.held) ∷ [] }
{
    [
        (Refusal::NoAccess, !seen.accessible),
        (Refusal::NoEntry, !seen.held),
    ]
}

/// The container is such a container, and lists the object.
pub fn listed_in(seen: &Sight) -> [Condition; 2]
    ensures { result ≡ (refusal.NoAccess, not seen.now.accessible)
        ∷ (refusal.NoEntry, not seen.now.listed) ∷ [] }
{
    [
        (Refusal::NoAccess, !seen.accessible),
        (Refusal::NoEntry, !seen.listed),
    ]
}

/// The object has this kind.
pub fn of_kind(kind: Kind, seen: &Seen) -> [Condition; 1]
    ensures { result ≡ (refusal.WrongType, not (is_of kind seen.now.kind)) ∷ [] }
{
    [(Refusal::WrongType, !seen.is(kind))]
}

/// The object has another kind.
pub fn not_of_kind(kind: Kind, seen: &Seen) -> [Condition; 1]
    ensures { result ≡ (refusal.WrongType, is_of kind seen.now.kind) ∷ [] }
{
    [(Refusal::WrongType, seen.is(kind))]
}

/// The thread observes the object.
pub fn observed(seen: &Seen) -> [Condition; 1]
    ensures { result ≡ (refusal.CannotObserve, not seen.now.observed) ∷ [] }
{
    [(Refusal::CannotObserve, !seen.observed)]
}

/// The thread's label is at most the object's.
pub fn flowing(seen: &Seen) -> [Condition; 1]
    ensures { result ≡ (refusal.CannotModify, not seen.now.flowing) ∷ [] }
{
    [(Refusal::CannotModify, !seen.flowing)]
}

/// The thread observes the object, and its label is at most the object's.
pub fn modified(seen: &Seen) -> [Condition; 2]
    ensures { result ≡ (refusal.CannotObserve, not seen.now.observed)
        ∷ (refusal.CannotModify, not seen.now.flowing) ∷ [] }
{
    [
        (Refusal::CannotObserve, !seen.observed),
        (Refusal::CannotModify, !seen.flowing),
    ]
}

/// The object is not immutable.
pub fn not_immutable(seen: &Seen) -> [Condition; 1]
    ensures { result ≡ (refusal.Immutable, seen.now.immutable) ∷ [] }
{
    [(Refusal::Immutable, seen.immutable)]
}

/// From `at` on, `count` is 1 to 64 bytes of one page.
pub fn shaped(at: u64, count: u64) -> [Condition; 1]
    ensures { result ≡ (refusal.Bounds, not (is_shape at count)) ∷ [] }
{
    let fit = 1 <= count && count <= 64 && at % 256 + count <= 256;
    [(Refusal::Bounds, !fit)]
}

/// So many bytes from `offset` on lie in the segment.
pub fn within(seen: &Seen, offset: u32, count: u32) -> [Condition; 1]
    ensures { result ≡ (refusal.Bounds, nat_lt (256 * seen.now.pages) (offset + count)) ∷ [] }
{
    let past = 256 * u64::from(seen.pages) < u64::from(offset) + u64::from(count);
    [(Refusal::Bounds, past)]
}

/// The entry names an address space, or none.
pub fn space_entry(space: &Entry, seen: &Sight) -> [Condition; 3]
    ensures { result
        ≡ (refusal.NoAccess, not (names_none space.now) && not seen.now.accessible)
        ∷ (refusal.NoEntry, not (names_none space.now) && not seen.now.held)
        ∷ (
          refusal.WrongType,
          not (names_none space.now) && not (is_of kinds.AddressSpace seen.now.object.kind),
        ) ∷ [] }
{
    let named = !space.names_none();
    [
        (Refusal::NoAccess, named && !seen.accessible),
        (Refusal::NoEntry, named && !seen.held),
        (
            Refusal::WrongType,
            named && !seen.object.is(Kind::AddressSpace),
        ),
    ]
}

/// The address lies in a segment, where the thread may read.
pub fn mapped_to_read(place: &Option<Place>) -> [Condition; 2]
    ensures { result ≡ (refusal.NotMapped, is_none place.now)
        ∷ (refusal.RightsDenied, not (allows may_read place.now)) ∷ [] }
{
    let allowed = match place {
        None => false,
        Some(place) => place.rights.read,
    };
    [
        (Refusal::NotMapped, place.is_none()),
        (Refusal::RightsDenied, !allowed),
    ]
}

/// The address lies in a segment, where the thread may write.
pub fn mapped_to_write(place: &Option<Place>) -> [Condition; 2]
    ensures { result ≡ (refusal.NotMapped, is_none place.now)
        ∷ (refusal.RightsDenied, not (allows may_write place.now)) ∷ [] }
{
    let allowed = match place {
        None => false,
        Some(place) => place.rights.write,
    };
    [
        (Refusal::NotMapped, place.is_none()),
        (Refusal::RightsDenied, !allowed),
    ]
}

//! What a thread sees of an object and of an entry.
ghost use Rattle.std.specs.Prelude.{◌≡◌, ◌&&◌, ◌||◌, true};
ghost use Rattle.base.specs.declared.kinds.Kind.TheVariants as kinds;
ghost use Rattle.kernel_rules.specs.State.{avoids_at, kind_of, object_at, of_object};
ghost use Rattle.kernel_store.specs.Locations.{Stand, entry_of};
ghost use Rattle.kernel_store.specs.Sights.{is_of, kind_at, sight_of};

use crate::names::{Named, find_entry};
use crate::stores::Store;
use base::{Kind, Meter};
use kernel_rules::Entry;

/// What a thread sees of an object.
#[derive(Clone, Copy)]
pub struct Seen {
    /// What it is, where it is recorded.
    pub kind: Option<Kind>,
    /// Whether the thread observes it: its label is at most the thread's with star raised.
    pub observed: bool,
    /// Whether the thread's label is at most the object's.
    pub flowing: bool,
    /// Whether it is read-only for good.
    pub immutable: bool,
    /// Whether its quota never changes again.
    pub fixed: bool,
    /// The whole pages of a segment, of 256 bytes: 0 for any other object.
    pub pages: u32,
}

/// What a thread sees of an entry.
#[derive(Clone, Copy)]
pub struct Sight {
    /// Whether the caller is a live thread.
    pub runs: bool,
    /// Whether the container is a live container that the thread observes.
    pub accessible: bool,
    /// Whether the entry stands: the container lists the object, or is the object.
    pub held: bool,
    /// Whether the container lists the object.
    pub listed: bool,
    /// What the thread sees of the container.
    pub container: Seen,
    /// What the thread sees of the object.
    pub object: Seen,
}

impl Seen {
    /// Whether it is of this kind.
    #[tactic(auto, unfolding(crate::specs::Sights::is_of))]
    pub fn is(&self, kind: Kind) -> bool
        ensures { result ≡ is_of kind self.now.kind }
    {
        match self.kind {
            None => false,
            Some(seen) => seen == kind,
        }
    }
}

// Whether an entry stands, by what was seen of its container, and whether that lists the object or is the object.
#[inline(always)]
fn is_held(container: &Seen, listed: bool, itself: bool) -> bool
    ensures { result ≡ (is_of kinds.Container container.now.kind && (listed || itself)) }
{
    container.is(Kind::Container) && (listed || itself)
}

// Whether an entry can be reached, by whether its container is live and by what was seen of it.
#[inline(always)]
fn is_reached(live: bool, container: &Seen) -> bool
    ensures { result ≡ (live && container.now.observed) }
{
    live && container.observed
}

/// What the caller sees of an entry. (It is put into those who ask, so that what one doesn't ask for is not looked at
/// there.)
#[inline(always)]
#[tactic(auto, using(crate::proofs::SightLaws::kind_seen))]
pub fn look<S: Store>(state: &S, named: Named<S::Location>, meter: &mut Meter) -> Sight
    requires { Stand (S.stands state.now) named }
    ensures value { result ≡ sight_of (S.state state.now) (S.id_of named.caller)
        (entry_of S.id_of named) }
    ensures meter { S.kept meter.new ≡ S.kept meter.old }
{
    let listed = state.lists(named.container, named.object, meter);
    let container = state.seen(named.caller, named.container, meter);
    let object = state.seen(named.caller, named.object, meter);
    let itself = state.id(named.object) == state.id(named.container);
    let live = state.is_live(Kind::Container, named.container);
    Sight {
        runs: state.is_live(Kind::Thread, named.caller),
        accessible: is_reached(live, &container),
        held: is_held(&container, listed, itself),
        listed,
        container,
        object,
    }
}

/// What the caller sees of an entry, which is looked up.
#[inline(never)]
pub fn look_at<S: Store>(state: &S, caller: S::Location, entry: &Entry, meter: &mut Meter) -> Sight
    requires { S.stands state.now caller }
    ensures value { result ≡ sight_of (S.state state.now) (S.id_of caller) entry.now }
    ensures meter { S.kept meter.new ≡ S.kept meter.old }
{
    let named = find_entry(state, caller, entry, meter);
    look(state, named, meter)
}

/// Whether a container won't hold an object, by what was seen of that: it won't where that is not recorded.
#[inline(always)]
pub fn avoids_object<S: Store>(
    state: &S,
    container: S::Location,
    object: S::Location,
    seen: &Seen,
) -> bool
    requires container { S.stands state.now container }
    requires seen { seen.now.kind ≡ kind_at (S.state state.now) (S.id_of object) }
    ensures { result ≡ of_object true (λ x. avoids_at (S.state state.now)
        (kind_of x.body) (S.id_of container)) (object_at (S.state state.now) (S.id_of object)) }
{
    let _object = object;
    match seen.kind {
        Some(kind) => state.avoids(kind, container),
        None => true,
    }
}

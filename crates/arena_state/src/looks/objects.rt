//! What is read of one object. No label is scanned.
ghost use Rattle.std.specs.Prelude.{◌≡◌, ◌≤◌, ◌+◌, IfSome, IfNone, None, is_some, nat_lt};
ghost use Rattle.std.specs.Prelude.{option_copied, option_map};
ghost use Rattle.kernel_rules.specs.State.{object_at, is_fixed, is_immutable, quota_at};
ghost use Rattle.kernel_rules.specs.State.{use_of, is_kind_at, kind_of};
ghost use Rattle.kernel_rules.specs.Changes.{joined_at};
ghost use Rattle.kernel_store.specs.Sights.{kind_at};
ghost use Rattle.arena_state.specs.States.{state_of, find_cost, Shows, Stands, Finds};

use crate::locations::Location;
use crate::looks::uses::pages_of;
use crate::records::{Kept, Record};
use crate::states::ArenaState;
use base::{Data, Kind, Meter, ObjectId, TypeSet};

impl Kept {
    ghost use Rattle.arena_state.specs.Assembled.{body_of};
    ghost use Rattle.arena_state.specs.Filled.{filled_body};

    /// The kind of the object.
    pub fn kind(&self) -> Kind
        ensures { (content : _) (labels : _) (list : _)
            → kind_of (filled_body content (body_of labels self.now list)) ≡ result }
    {
        match self {
            Kept::Container(_, _) => Kind::Container,
            Kept::Segment(_) => Kind::Segment,
            Kept::AddressSpace => Kind::AddressSpace,
            Kept::Thread(_) => Kind::Thread,
            Kept::Gate(_) => Kind::Gate,
            Kept::Device => Kind::Device,
        }
    }
}

impl ArenaState {
    // The record of an object, none where there is no such object.
    #[inline(always)]
    pub(crate) fn record(&self, at: Location) -> Option<&Record>
        requires { Stands self.now at }
        ensures { Finds self.now at.id (option_copied result) }
    {
        match self.told(at) {
            Some(slot) => Some(&self.pieces.holdings.records[slot.0]),
            None => None,
        }
    }

    /// The record of an object, none where there is no such object.
    pub(crate) fn row(&self, id: ObjectId, meter: &mut Meter) -> Option<&Record>
        ensures found { IfSome result (λ r. Shows self.now id r.now) }
        ensures none { IfNone result (object_at (state_of self.now) id ≡ None) }
        ensures scans { meter.new.scans ≡ meter.old.scans }
        ensures probes { meter.new.probes ≤ meter.old.probes + find_cost self.now }
    {
        let at = self.find(id, meter);
        self.record(at)
    }

    /// Whether an object is recorded.
    pub fn is_there(&self, at: Location) -> bool
        requires { Stands self.now at }
        ensures { result ≡ is_some (object_at (state_of self.now) at.id) }
    {
        self.record(at).is_some()
    }

    /// Whether an object's quota never changes again.
    pub fn is_fixed(&self, at: Location) -> bool
        requires { Stands self.now at }
        ensures { result ≡ is_fixed (state_of self.now) at.id }
    {
        match self.record(at) {
            Some(row) => row.fixed,
            None => false,
        }
    }

    /// Whether an object is read-only for good.
    pub fn is_immutable(&self, at: Location) -> bool
        requires { Stands self.now at }
        ensures { result ≡ is_immutable (state_of self.now) at.id }
    {
        match self.record(at) {
            Some(row) => row.immutable,
            None => false,
        }
    }

    /// What an object may use, in pages of 256 bytes: 0 where it is not recorded.
    #[inline(always)]
    pub fn quota(&self, at: Location) -> u32
        requires { Stands self.now at }
        ensures { result ≡ quota_at (state_of self.now) at.id }
    {
        match self.record(at) {
            Some(row) => row.quota,
            None => 0,
        }
    }

    /// What an object uses, in pages of 256 bytes, as it is kept: 0 where it is not recorded.
    pub fn used_pages(&self, at: Location) -> u32
        requires { Stands self.now at }
        ensures { result ≡ use_of (state_of self.now) at.id }
    {
        match self.record(at) {
            Some(row) => pages_of(&row.body, row.quota),
            None => 0,
        }
    }

    /// Whether so many pages more are above the container's quota.
    #[inline(always)]
    pub fn is_over(&self, container: Location, pages: u32) -> bool
        requires { Stands self.now container }
        ensures { result ≡ nat_lt (quota_at (state_of self.now) container.id)
            (use_of (state_of self.now) container.id + pages) }
    {
        match self.record(container) {
            Some(row) => {
                let used = pages_of(&row.body, row.quota);
                u64::from(row.quota) < u64::from(used) + u64::from(pages)
            }
            None => 0 < pages,
        }
    }

    /// What a new container in this one avoids, which is asked to avoid these kinds.
    pub fn joined(&self, container: Location, kinds: TypeSet) -> TypeSet
        requires { Stands self.now container }
        ensures { result ≡ joined_at (state_of self.now) kinds container.id }
    {
        match self.record(container) {
            Some(row) => match &row.body {
                Kept::Container(avoid, _) => kinds | *avoid,
                _ => kinds,
            },
            None => kinds,
        }
    }

    /// The kind of an object, none where it is not recorded.
    #[inline(always)]
    #[tactic(auto, unfolding(kernel_store::specs::Sights::kind_at))]
    pub fn kind(&self, at: Location) -> Option<Kind>
        requires { Stands self.now at }
        ensures { result ≡ kind_at (state_of self.now) at.id }
    {
        match self.record(at) {
            Some(row) => Some(row.body.kind()),
            None => None,
        }
    }

    /// The metadata of an object, where it is recorded.
    pub fn metadata(&self, at: Location) -> Option<Data>
        requires { Stands self.now at }
        ensures { result ≡ option_map (λ x. x.metadata) (object_at (state_of self.now) at.id) }
    {
        match self.record(at) {
            Some(row) => Some(row.metadata),
            None => None,
        }
    }

    /// Whether an id is that of an object of this kind.
    pub fn is_kind(&self, kind: Kind, id: ObjectId, meter: &mut Meter) -> bool
        ensures value { result ≡ is_kind_at (state_of self.now) kind id }
        ensures scans { meter.new.scans ≡ meter.old.scans }
        ensures probes { meter.new.probes ≤ meter.old.probes + find_cost self.now }
    {
        match self.row(id, meter) {
            Some(row) => row.body.kind() == kind,
            None => false,
        }
    }

    /// The id of the next new object; at 2^61 there is none left.
    pub fn next_id(&self) -> ObjectId
        ensures { result ≡ (state_of self.now).next_id }
    {
        ObjectId::new(self.pieces.next_id)
    }

    /// The next new category; at 2^61 there is none left.
    pub fn next_category(&self) -> u64
        ensures { result ≡ (state_of self.now).next_category }
    {
        self.pieces.next_category
    }
}

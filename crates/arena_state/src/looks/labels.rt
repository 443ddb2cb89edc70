//! Tests of the labels of stored objects, by the order bits that are kept. No label is scanned.
ghost use Rattle.std.specs.Prelude.{◌≡◌, ◌==◌, ◌≤◌, ◌+◌, ◌<◌, IsSome, option_copied};
ghost use Rattle.std.specs.Int.RustNames.{bit_and};
ghost use Rattle.label_lattice.specs.LabelRules.{both, below, visible, shown};
ghost use Rattle.label_intern.specs.Held.{held_at, label_of};
ghost use Rattle.kernel_rules.specs.State.{label_at, clearance_at, is_live_kind};
ghost use Rattle.arena_state.specs.States.{state_of, find_cost, label_found, Finds, IsLabelled, Stands};

use crate::locations::Location;
use crate::records::{Kept, Record};
use crate::states::ArenaState;
use base::{Kind, Meter, ObjectId};
use label_intern::LabelIx;
use label_lattice::Label;

impl ArenaState {
    // How the label of one index compares with that of another, both having one.
    fn order(&self, one: LabelIx, other: LabelIx) -> u8
        requires one { IsSome (held_at self.now.pieces.holdings.labels one.0) }
        requires other { IsSome (held_at self.now.pieces.holdings.labels other.0) }
        ensures below { (bit_and result 1 == 1)
            ≡ below (label_of self.now.pieces.holdings.labels one.0)
            (label_of self.now.pieces.holdings.labels other.0) }
        ensures visible { (bit_and result 2 == 2)
            ≡ visible (label_of self.now.pieces.holdings.labels one.0)
            (label_of self.now.pieces.holdings.labels other.0) }
        ensures shown { (bit_and result 4 == 4)
            ≡ shown (label_of self.now.pieces.holdings.labels one.0)
            (label_of self.now.pieces.holdings.labels other.0) }
    {
        self.pieces.holdings.labels.order(one, other).0
    }

    // The label of an index that has one.
    pub(crate) fn label_at(&self, index: LabelIx) -> &Label
        requires { IsSome (held_at self.now.pieces.holdings.labels index.0) }
        ensures { result.now ≡ label_of self.now.pieces.holdings.labels index.0 }
    {
        self.pieces.holdings.labels.get(index)
    }

    // The label of what was looked up.
    #[inline(always)]
    fn label_in(&self, id: ObjectId, found: Option<&Record>) -> Option<&Label>
        requires { Finds self.now id (option_copied found) }
        ensures { option_copied result ≡ label_at (state_of self.now) id }
    {
        let _id = id;
        match found {
            Some(row) => Some(self.label_at(row.label)),
            None => None,
        }
    }

    // The clearance of what was looked up, and `None` where that is no thread.
    #[inline(always)]
    fn clearance_in(&self, id: ObjectId, found: Option<&Record>) -> Option<&Label>
        requires { Finds self.now id (option_copied found) }
        ensures { option_copied result ≡ clearance_at (state_of self.now) id }
    {
        let _id = id;
        match found {
            Some(row) => match &row.body {
                Kept::Thread(kept) => Some(self.label_at(kept.clearance)),
                _ => None,
            },
            None => None,
        }
    }

    /// The label of an object, where it is recorded.
    #[inline(always)]
    pub fn label(&self, at: Location) -> Option<&Label>
        requires { Stands self.now at }
        ensures { option_copied result ≡ label_at (state_of self.now) at.id }
    {
        let id = at.id;
        self.label_in(id, self.record(at))
    }

    /// The clearance of a thread, and `None` for any other object.
    #[inline(always)]
    pub fn clearance(&self, thread: Location) -> Option<&Label>
        requires { Stands self.now thread }
        ensures { option_copied result ≡ clearance_at (state_of self.now) thread.id }
    {
        let id = thread.id;
        self.clearance_in(id, self.record(thread))
    }

    // Whether who has the one record observes what has the other, where both are there.
    pub(crate) fn observed(&self, own: Option<&Record>, other: Option<&Record>) -> bool
        requires own { IsLabelled self.now (option_copied own) }
        requires other { IsLabelled self.now (option_copied other) }
        ensures { result ≡ both visible (label_found self.now (option_copied other.entry))
            (label_found self.now (option_copied own.entry)) }
    {
        match own {
            Some(own) => match other {
                Some(other) => self.order(other.label, own.label) & 2 == 2,
                None => false,
            },
            None => false,
        }
    }

    // Whether the label of the one record is at most that of the other, where both are there.
    pub(crate) fn flowing(&self, own: Option<&Record>, other: Option<&Record>) -> bool
        requires own { IsLabelled self.now (option_copied own) }
        requires other { IsLabelled self.now (option_copied other) }
        ensures { result ≡ both below (label_found self.now (option_copied own.entry))
            (label_found self.now (option_copied other.entry)) }
    {
        match own {
            Some(own) => match other {
                Some(other) => self.order(own.label, other.label) & 1 == 1,
                None => false,
            },
            None => false,
        }
    }

    // Whether the label of an object is at most the clearance of a thread, where both were looked up.
    fn is_cleared_found(
        &self,
        thread: ObjectId,
        own: Option<&Record>,
        id: ObjectId,
        other: Option<&Record>,
    ) -> bool
        requires own { Finds self.now thread (option_copied own) }
        requires other { Finds self.now id (option_copied other) }
        ensures { result
            ≡ both below (label_at (state_of self.now) id) (clearance_at (state_of self.now) thread) }
    {
        let _ids = (thread, id);
        match other {
            Some(other) => match own {
                Some(own) => match &own.body {
                    Kept::Thread(kept) => self.order(other.label, kept.clearance) & 1 == 1,
                    _ => false,
                },
                None => false,
            },
            None => false,
        }
    }

    /// Whether an object's label is at most a thread's clearance.
    pub fn is_cleared(&self, caller: Location, at: Location) -> bool
        requires caller { Stands self.now caller }
        requires there { Stands self.now at }
        ensures { result ≡ both below (label_at (state_of self.now) at.id)
            (clearance_at (state_of self.now) caller.id) }
    {
        let (thread, id) = (caller.id, at.id);
        let own = self.record(caller);
        let other = self.record(at);
        self.is_cleared_found(thread, own, id, other)
    }

    /// Whether an object's label with star raised is at most a thread's with star raised.
    pub fn is_shown(&self, caller: Location, at: Location) -> bool
        requires caller { Stands self.now caller }
        requires there { Stands self.now at }
        ensures { result ≡ both shown (label_at (state_of self.now) at.id)
            (label_at (state_of self.now) caller.id) }
    {
        match self.record(caller) {
            Some(own) => match self.record(at) {
                Some(other) => self.order(other.label, own.label) & 4 == 4,
                None => false,
            },
            None => false,
        }
    }

    /// Whether an id is that of a live object of this kind: each that is recorded is live.
    pub fn is_live_kind(&self, kind: Kind, id: ObjectId, meter: &mut Meter) -> bool
        ensures value { result ≡ is_live_kind (state_of self.now) kind id }
        ensures scans { meter.new.scans ≡ meter.old.scans }
        ensures probes { meter.new.probes ≤ meter.old.probes + find_cost self.now }
    {
        self.is_kind(kind, id, meter)
    }
}

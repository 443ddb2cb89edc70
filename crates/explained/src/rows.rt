//! A row: conditions, in their order, each put at its end by a word of the table.
#![tactic(auto)]

ghost use Rattle.std.specs.Prelude.{◌≡◌, ◌++◌, ◌∷◌, [], IfOk, OnOk};
ghost use Rattle.base.specs.declared.kinds.Kind.TheVariants as kinds;
ghost use Rattle.base.specs.declared.refusals.Refusal.TheVariants as refusals;
ghost use Rattle.kernel_rules.specs.State.{quota_at};
ghost use Rattle.kernel_rules.specs.Rows as rules;
ghost use Rattle.kernel_rules.specs.Conditions.{Above, Listed, NotFixed, When};
ghost use Rattle.plain_state.specs.StateOf.{state_of};
ghost use Rattle.explained.specs.Ruled.{condition_of, conditions_in, right_of, ruled};
ghost use Rattle.explained.specs.Told.{parts_of, told};

use crate::conditions::{Condition, Right};
use crate::deciding::parts_of;
use crate::parts::{Finding, Parts};
use base::{Kind, Meter, NoMemory, ObjectId, Refusal};
use kernel_rules::Entry;
use label_lattice::RawLabel;
use plain_state::PlainState;
use std::alloc::Global;

/// A condition of a row.
#[derive(Clone, Copy)]
pub struct Given {
    /// The refusal that it gives.
    pub refusal: Refusal,
    /// The test that comes before it, where there is one: it is asked only where that holds.
    pub test: Option<bool>,
    /// What it is.
    pub condition: Condition,
}

/// The conditions of a row.
#[derive(Drop)]
pub struct Row {
    pub(crate) given: Vec<Given>,
}

impl Row {
    /// No conditions.
    #[tactic(auto, unfolding(crate::specs::Ruled::conditions_in))]
    pub(crate) fn new(alloc: Global) -> Row
        ensures { conditions_in result ≡ [] }
    {
        Row {
            given: Vec::new(alloc),
        }
    }

    /// One condition more, at the end. The error is want of memory, here and in what follows.
    #[tactic(auto, unfolding(crate::specs::Ruled::conditions_in))]
    pub(crate) fn put(&mut self, refusal: Refusal, condition: Condition) -> Result<(), NoMemory>
        ensures { OnOk result (conditions_in self.new ≡ conditions_in self.old ++ (refusal, condition_of condition) ∷ []) }
    {
        self.given.push(Given {
            refusal,
            test: None,
            condition,
        })?;
        Ok(())
    }

    /// One condition more, which is asked only where a test holds.
    #[tactic(auto, unfolding(crate::specs::Ruled::conditions_in))]
    pub(crate) fn put_if(
        &mut self,
        test: bool,
        refusal: Refusal,
        condition: Condition,
    ) -> Result<(), NoMemory>
        ensures { OnOk result (conditions_in self.new ≡ conditions_in self.old ++ (refusal, When test (condition_of condition)) ∷ []) }
    {
        self.given.push(Given {
            refusal,
            test: Some(test),
            condition,
        })?;
        Ok(())
    }

    /// It is a live container, which the thread observes.
    pub(crate) fn at_container(&mut self, container: ObjectId) -> Result<(), NoMemory>
        ensures { OnOk result (conditions_in self.new ≡ conditions_in self.old ++ rules.at_container container) }
    {
        self.put(Refusal::NoAccess, Condition::NotAccessible(container))
    }

    /// It is such a container, and the entry stands.
    pub(crate) fn in_container(&mut self, entry: &Entry) -> Result<(), NoMemory>
        ensures { OnOk result (conditions_in self.new ≡ conditions_in self.old ++ rules.in_container entry.now) }
    {
        self.at_container(entry.container)?;
        self.put(Refusal::NoEntry, Condition::NotHeld(*entry))
    }

    /// It is such a container, and lists the object.
    pub(crate) fn listed_in(&mut self, entry: &Entry) -> Result<(), NoMemory>
        ensures { OnOk result (conditions_in self.new ≡ conditions_in self.old ++ rules.listed_in entry.now) }
    {
        self.at_container(entry.container)?;
        self.put(Refusal::NoEntry, Condition::NotListed(*entry))
    }

    /// The object has this kind.
    pub(crate) fn of_kind(&mut self, kind: Kind, id: ObjectId) -> Result<(), NoMemory>
        ensures { OnOk result (conditions_in self.new ≡ conditions_in self.old ++ rules.of_kind kind id) }
    {
        self.put(Refusal::WrongType, Condition::NotOfKind(kind, id))
    }

    /// The object has another kind.
    pub(crate) fn not_of_kind(&mut self, kind: Kind, id: ObjectId) -> Result<(), NoMemory>
        ensures { OnOk result (conditions_in self.new ≡ conditions_in self.old ++ rules.not_of_kind kind id) }
    {
        self.put(Refusal::WrongType, Condition::OfKind(kind, id))
    }

    /// The thread observes the object.
    pub(crate) fn observed(&mut self, id: ObjectId) -> Result<(), NoMemory>
        ensures { OnOk result (conditions_in self.new ≡ conditions_in self.old ++ rules.observed id) }
    {
        self.put(Refusal::CannotObserve, Condition::NotObserved(id))
    }

    /// The thread's label is at most the object's.
    pub(crate) fn flowing(&mut self, id: ObjectId) -> Result<(), NoMemory>
        ensures { OnOk result (conditions_in self.new ≡ conditions_in self.old ++ rules.flowing id) }
    {
        self.put(Refusal::CannotModify, Condition::NotFlowing(id))
    }

    /// The thread observes the object, and its label is at most the object's.
    pub(crate) fn modified(&mut self, id: ObjectId) -> Result<(), NoMemory>
        ensures { OnOk result (conditions_in self.new ≡ conditions_in self.old ++ rules.modified id) }
    {
        self.observed(id)?;
        self.flowing(id)
    }

    /// The label can be that of a thread or a gate, a clearance or a verify label.
    pub(crate) fn good_label(&mut self, raw: &RawLabel) -> Result<(), NoMemory>
        ensures { OnOk result (conditions_in self.new ≡ conditions_in self.old ++ rules.good_label raw.now) }
    {
        self.put(Refusal::BadLabel, Condition::BadLabel(*raw))
    }

    /// A number is at most another.
    pub(crate) fn at_most(&mut self, number: u32, most: u32) -> Result<(), NoMemory>
        ensures { OnOk result (conditions_in self.new ≡ conditions_in self.old ++ (refusals.Bounds, Above number most) ∷ []) }
    {
        self.put(
            Refusal::Bounds,
            Condition::Above(u64::from(number), u64::from(most)),
        )
    }

    /// The object is not immutable.
    pub(crate) fn not_immutable(&mut self, id: ObjectId) -> Result<(), NoMemory>
        ensures { OnOk result (conditions_in self.new ≡ conditions_in self.old ++ rules.not_immutable id) }
    {
        self.put(Refusal::Immutable, Condition::Immutable(id))
    }

    /// So many pages more are within the container's quota.
    pub(crate) fn with_room(&mut self, container: ObjectId, pages: u32) -> Result<(), NoMemory>
        ensures { OnOk result (conditions_in self.new ≡ conditions_in self.old ++ rules.with_room container pages) }
    {
        self.put(Refusal::NoQuota, Condition::Overfull(container, pages))
    }

    /// A new object of this kind, quota and use fits into the container.
    fn fitting(
        &mut self,
        kind: Kind,
        container: ObjectId,
        quota: u32,
        used: u64,
    ) -> Result<(), NoMemory>
        ensures { OnOk result (conditions_in self.new ≡ conditions_in self.old ++ rules.fitting kind container quota used) }
    {
        self.at_container(container)?;
        self.modified(container)?;
        self.put(Refusal::AvoidType, Condition::Avoided(kind, container))?;
        self.put(Refusal::NoQuota, Condition::Above(used, u64::from(quota)))?;
        self.with_room(container, quota)?;
        self.not_immutable(container)?;
        self.put(Refusal::Spent, Condition::IdsSpent)
    }

    /// A new container, segment or address space.
    pub(crate) fn new_object(
        &mut self,
        kind: Kind,
        container: ObjectId,
        raw: &RawLabel,
        quota: u32,
        used: u64,
    ) -> Result<(), NoMemory>
        ensures { OnOk result (conditions_in self.new ≡ conditions_in self.old ++ rules.new_object kind container raw.now quota used) }
    {
        self.fitting(kind, container, quota, used)?;
        self.put(Refusal::BadLabel, Condition::BadOrStarred(*raw))?;
        self.put(Refusal::LabelRange, Condition::OutOfRange(*raw))?;
        Ok(())
    }

    /// A new thread or gate of this clearance.
    pub(crate) fn new_bearer(
        &mut self,
        kind: Kind,
        container: ObjectId,
        raw: &RawLabel,
        quota: u32,
        clearance: &RawLabel,
    ) -> Result<(), NoMemory>
        ensures { OnOk result (conditions_in self.new ≡ conditions_in self.old
            ++ rules.new_bearer kind container raw.now quota clearance.now) }
    {
        self.fitting(kind, container, quota, 1)?;
        self.good_label(raw)?;
        self.good_label(clearance)?;
        self.put(Refusal::LabelRange, Condition::BelowThread(*raw))?;
        self.put(
            Refusal::ClearanceRange,
            Condition::OutOfClearance(*raw, *clearance),
        )?;
        Ok(())
    }

    /// From `at` on, `count` is 1 to 64 bytes of one page.
    pub(crate) fn shaped(&mut self, at: u64, count: u32) -> Result<(), NoMemory>
        ensures { OnOk result (conditions_in self.new ≡ conditions_in self.old ++ rules.shaped at count) }
    {
        self.put(Refusal::Bounds, Condition::NotShaped(at, count))
    }

    /// So many bytes from `offset` on lie in the segment.
    pub(crate) fn within(
        &mut self,
        state: &PlainState,
        id: ObjectId,
        offset: u32,
        count: u32,
    ) -> Result<(), NoMemory>
        ensures { OnOk result (conditions_in self.new ≡ conditions_in self.old ++ rules.within (state_of state.now) id offset count) }
    {
        let most = 256 * u64::from(state.page_count(id));
        let end = u64::from(offset) + u64::from(count);
        self.put(Refusal::Bounds, Condition::Above(end, most))
    }

    /// The entry names an address space, or none.
    pub(crate) fn space_entry(&mut self, space: &Entry) -> Result<(), NoMemory>
        ensures { OnOk result (conditions_in self.new ≡ conditions_in self.old ++ rules.space_entry space.now) }
    {
        let named = !space.names_none();
        let is = Condition::NotOfKind(Kind::AddressSpace, space.object);
        self.put_if(
            named,
            Refusal::NoAccess,
            Condition::NotAccessible(space.container),
        )?;
        self.put_if(named, Refusal::NoEntry, Condition::NotHeld(*space))?;
        self.put_if(named, Refusal::WrongType, is)
    }

    /// The address lies in a segment, where the thread has this right.
    pub(crate) fn mapped(&mut self, address: u64, right: Right) -> Result<(), NoMemory>
        ensures { OnOk result (conditions_in self.new ≡ conditions_in self.old ++ rules.mapped address (right_of right)) }
    {
        self.put(Refusal::NotMapped, Condition::NotMapped(address))?;
        self.put(Refusal::RightsDenied, Condition::NotAllowed(address, right))
    }

    /// Both containers are observed, the object is no container, and the target is modified.
    pub(crate) fn link_ends(&mut self, target: ObjectId, entry: &Entry) -> Result<(), NoMemory>
        ensures { OnOk result (conditions_in self.new ≡ conditions_in self.old
            ++ (rules.at_container target ++ rules.in_container entry.now
            ++ rules.not_of_kind kinds.Container entry.now.object ++ rules.modified target)) }
    {
        self.at_container(target)?;
        self.in_container(entry)?;
        self.not_of_kind(Kind::Container, entry.object)?;
        self.modified(target)
    }

    /// The object's quota is within the container's.
    pub(crate) fn link_room(
        &mut self,
        state: &PlainState,
        container: ObjectId,
        id: ObjectId,
    ) -> Result<(), NoMemory>
        ensures { OnOk result (conditions_in self.new ≡ conditions_in self.old
            ++ rules.with_room container (quota_at (state_of state.now) id)) }
    {
        self.with_room(container, state.quota(id))
    }

    /// The object's quota is fixed, and the container does not list the object.
    pub(crate) fn linkable(&mut self, container: ObjectId, id: ObjectId) -> Result<(), NoMemory>
        ensures { OnOk result (conditions_in self.new ≡ conditions_in self.old
            ++ (refusals.NotFixed, NotFixed id) ∷ (refusals.AlreadyLinked, Listed container id) ∷ []) }
    {
        self.put(Refusal::NotFixed, Condition::NotFixed(id))?;
        self.put(Refusal::AlreadyLinked, Condition::Listed(container, id))
    }

    /// What is told of the conditions: of each its refusal and its parts.
    #[tactic(auto, unfolding(crate::specs::Ruled::conditions_in, crate::specs::Told::told))]
    pub(crate) fn findings(
        &self,
        state: &PlainState,
        thread: ObjectId,
        meter: &mut Meter,
    ) -> Result<Vec<Finding>, NoMemory>
        ensures { IfOk result (λ found. found.items
            ≡ told (state_of state.now) thread (conditions_in self.now)) }
    {
        let all = self.given.as_slice();
        let mut found = Vec::new(state.alloc());
        for given in all {
            let parts = parts_given(state, thread, given, meter)?;
            let refusal = given.refusal;
            found.push(Finding { refusal, parts })?;
        }
        Ok(found)
    }
}

/// The parts of a condition, where a test says that it is asked.
fn parts_given(
    state: &PlainState,
    thread: ObjectId,
    given: &Given,
    meter: &mut Meter,
) -> Result<Parts, NoMemory>
    ensures { IfOk result (λ parts. parts ≡ parts_of (state_of state.now) thread (ruled given.now).1) }
{
    match given.test {
        None | Some(true) => parts_of(state, thread, &given.condition, meter),
        Some(false) => Ok(Parts::new(state.alloc())),
    }
}

//! The row of each call: its conditions, in their order.
#![tactic(auto)]

ghost use Rattle.std.specs.Prelude.{◌≡◌, ◌++◌, OnOk};
ghost use Rattle.kernel_rules.specs.Table.{conditions, query_conditions};
ghost use Rattle.plain_state.specs.StateOf.{state_of};
ghost use Rattle.explained.specs.Ruled.{conditions_in};

use crate::conditions::{Condition, Right};
use crate::rows::Row;
use base::{Kind, NoMemory, Refusal};
use kernel_rules::{Call, Query, pages_down};
use plain_state::PlainState;

impl Row {
    /// The conditions of a call beside the first.
    pub(crate) fn put_call(&mut self, state: &PlainState, call: &Call) -> Result<(), NoMemory>
        ensures { OnOk result (conditions_in self.new ≡ conditions_in self.old ++ conditions (state_of state.now) call.now) }
    {
        match call {
            Call::CatCreate => {
                self.put(Refusal::LabelFull, Condition::LabelFull)?;
                self.put(Refusal::Spent, Condition::CategoriesSpent)?;
                Ok(())
            }
            Call::SelfSetLabel { label } => {
                self.good_label(label)?;
                self.put(Refusal::LabelRange, Condition::OutOfRange(*label))?;
                Ok(())
            }
            Call::SelfSetClearance { clearance } => {
                self.good_label(clearance)?;
                self.put(Refusal::ClearanceRange, Condition::NotClearable(*clearance))?;
                Ok(())
            }
            Call::SelfSetAs { space } => self.space_entry(space),
            Call::ContainerCreate(new) => {
                self.new_object(Kind::Container, new.container, &new.label, new.quota, 1)?;
                Ok(())
            }
            Call::SegmentCreate(new) => {
                let used = 1 + u64::from(new.pages);
                self.new_object(Kind::Segment, new.container, &new.label, new.quota, used)?;
                self.at_most(new.pages, 16)?;
                Ok(())
            }
            Call::SegmentCopy(new) => {
                let used = 1 + u64::from(state.page_count(new.source.object));
                self.in_container(&new.source)?;
                self.of_kind(Kind::Segment, new.source.object)?;
                self.observed(new.source.object)?;
                self.new_object(Kind::Segment, new.container, &new.label, new.quota, used)?;
                Ok(())
            }
            Call::AsCreate(new) => {
                self.new_object(Kind::AddressSpace, new.container, &new.label, new.quota, 1)?;
                Ok(())
            }
            Call::ThreadCreate(new) => {
                self.new_bearer(
                    Kind::Thread,
                    new.container,
                    &new.label,
                    new.quota,
                    &new.clearance,
                )?;
                Ok(())
            }
            Call::GateCreate(new) => {
                self.space_entry(&new.space)?;
                self.new_bearer(
                    Kind::Gate,
                    new.container,
                    &new.label,
                    new.quota,
                    &new.clearance,
                )?;
                Ok(())
            }
            Call::Link { target, entry } => {
                self.link_ends(*target, entry)?;
                self.put(Refusal::LabelRange, Condition::AboveClearance(entry.object))?;
                self.put(
                    Refusal::AvoidType,
                    Condition::KindAvoided(*target, entry.object),
                )?;
                self.link_room(state, *target, entry.object)?;
                self.linkable(*target, entry.object)?;
                self.not_immutable(*target)?;
                Ok(())
            }
            Call::Unref { entry } => {
                self.at_container(entry.container)?;
                self.put(Refusal::NoEntry, Condition::NotLinked(*entry))?;
                self.put(Refusal::RootKept, Condition::Root(*entry))?;
                self.modified(entry.container)?;
                self.not_immutable(entry.container)?;
                Ok(())
            }
            Call::QuotaMove { entry, change } => {
                let seen = Condition::NotObserved(entry.object);
                self.listed_in(entry)?;
                self.put_if(0 < pages_down(*change), Refusal::CannotObserve, seen)?;
                self.modified(entry.container)?;
                self.flowing(entry.object)?;
                self.put(Refusal::LabelRange, Condition::AboveClearance(entry.object))?;
                self.put(Refusal::NoQuota, Condition::WithoutRoom(*entry, *change))?;
                self.put(Refusal::FixedQuota, Condition::Fixed(entry.object))?;
                self.not_immutable(entry.container)?;
                self.not_immutable(entry.object)?;
                Ok(())
            }
            Call::SetFixed { entry } => {
                self.in_container(entry)?;
                self.modified(entry.object)?;
                self.not_immutable(entry.object)?;
                Ok(())
            }
            Call::SetImmutable { entry } => {
                self.in_container(entry)?;
                self.not_of_kind(Kind::Thread, entry.object)?;
                self.not_of_kind(Kind::Device, entry.object)?;
                self.modified(entry.object)?;
                Ok(())
            }
            Call::MetaSet { entry, .. } => {
                self.in_container(entry)?;
                self.not_of_kind(Kind::Thread, entry.object)?;
                self.modified(entry.object)?;
                self.not_immutable(entry.object)?;
                Ok(())
            }
            Call::SegmentResize { entry, pages } => {
                let own = Condition::Above(
                    1 + u64::from(*pages),
                    u64::from(state.quota(entry.object)),
                );
                self.in_container(entry)?;
                self.of_kind(Kind::Segment, entry.object)?;
                self.modified(entry.object)?;
                self.put(Refusal::NoQuota, own)?;
                self.not_immutable(entry.object)?;
                self.at_most(*pages, 16)?;
                Ok(())
            }
            Call::SegmentWrite {
                entry,
                offset,
                data,
            } => {
                let count = data.as_slice().len() as u32;
                self.in_container(entry)?;
                self.of_kind(Kind::Segment, entry.object)?;
                self.modified(entry.object)?;
                self.not_immutable(entry.object)?;
                self.shaped(u64::from(*offset), count)?;
                self.within(state, entry.object, *offset, count)?;
                Ok(())
            }
            Call::AsMap {
                space,
                slot,
                mapping,
            } => {
                let overlap = Condition::Overlapping(space.object, *slot, *mapping);
                self.in_container(space)?;
                self.in_container(&mapping.entry)?;
                self.of_kind(Kind::AddressSpace, space.object)?;
                self.of_kind(Kind::Segment, mapping.entry.object)?;
                self.modified(space.object)?;
                self.not_immutable(space.object)?;
                self.put(Refusal::Bounds, Condition::NotMapping(*slot, *mapping))?;
                self.put(Refusal::Overlap, overlap)?;
                Ok(())
            }
            Call::AsUnmap { space, slot } => {
                self.in_container(space)?;
                self.of_kind(Kind::AddressSpace, space.object)?;
                self.modified(space.object)?;
                self.not_immutable(space.object)?;
                self.at_most(*slot, 15)?;
                self.put(
                    Refusal::NotMapped,
                    Condition::SlotEmpty(space.object, *slot),
                )?;
                Ok(())
            }
            Call::Store { address, data } => {
                self.shaped(*address, data.as_slice().len() as u32)?;
                self.mapped(*address, Right::Write)?;
                Ok(())
            }
            Call::GateEnter {
                gate,
                label,
                clearance,
                verify,
            } => {
                let denied = Condition::NotAdmitted(gate.object, *label, *clearance, *verify);
                self.in_container(gate)?;
                self.of_kind(Kind::Gate, gate.object)?;
                self.good_label(label)?;
                self.good_label(clearance)?;
                self.good_label(verify)?;
                self.put(Refusal::GateDenied, denied)?;
                Ok(())
            }
            Call::DevSend { entry, data } => {
                self.in_container(entry)?;
                self.of_kind(Kind::Device, entry.object)?;
                self.modified(entry.object)?;
                self.put(
                    Refusal::Bounds,
                    Condition::Zero(data.as_slice().len() as u64),
                )?;
                self.put(Refusal::DeviceFull, Condition::QueueFull(entry.object))?;
                Ok(())
            }
            Call::DevRecv { entry } => {
                self.in_container(entry)?;
                self.of_kind(Kind::Device, entry.object)?;
                self.modified(entry.object)?;
                self.put(Refusal::DeviceEmpty, Condition::QueueEmpty(entry.object))?;
                Ok(())
            }
        }
    }

    /// The conditions of a query beside the first.
    pub(crate) fn put_query(&mut self, state: &PlainState, query: &Query) -> Result<(), NoMemory>
        ensures { OnOk result (conditions_in self.new ≡ conditions_in self.old ++ query_conditions (state_of state.now) query.now) }
    {
        match query {
            Query::SelfGet => Ok(()),
            Query::ObjLabel { entry } => {
                self.in_container(entry)?;
                self.put(Refusal::CannotObserve, Condition::NotShown(entry.object))?;
                Ok(())
            }
            Query::ObjQuota { entry } => {
                self.in_container(entry)?;
                self.observed(entry.object)?;
                Ok(())
            }
            Query::ContainerList { container, from } => {
                let most = state.list(*container).len() as u64;
                self.at_container(*container)?;
                self.put(Refusal::Bounds, Condition::Above(u64::from(*from), most))?;
                Ok(())
            }
            Query::ContainerParent { container } => self.at_container(*container),
            Query::SegmentLen { entry } => {
                self.in_container(entry)?;
                self.of_kind(Kind::Segment, entry.object)?;
                self.observed(entry.object)?;
                Ok(())
            }
            Query::SegmentRead {
                entry,
                offset,
                count,
            } => {
                self.in_container(entry)?;
                self.of_kind(Kind::Segment, entry.object)?;
                self.observed(entry.object)?;
                self.shaped(u64::from(*offset), *count)?;
                self.within(state, entry.object, *offset, *count)?;
                Ok(())
            }
            Query::MetaGet { entry } => {
                self.in_container(entry)?;
                self.not_of_kind(Kind::Thread, entry.object)?;
                self.observed(entry.object)?;
                Ok(())
            }
            Query::AsGet { space, slot } => {
                self.in_container(space)?;
                self.of_kind(Kind::AddressSpace, space.object)?;
                self.observed(space.object)?;
                self.at_most(*slot, 15)?;
                Ok(())
            }
            Query::Load { address, count } => {
                self.shaped(*address, *count)?;
                self.mapped(*address, Right::Read)?;
                Ok(())
            }
        }
    }
}

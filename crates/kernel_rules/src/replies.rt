//! What a machine answers.
use crate::calls::Entry;
use crate::lists::Ids;
use crate::objects::Mapping;
use base::{Category, Data, ObjectId, Refusal};
use label_lattice::Label;

/// What a call answers.
#[derive(Clone, Copy)]
pub enum Reply {
    /// The call was done.
    Done,
    /// The category that was made: 1 to 2^61 - 1.
    Category(Category),
    /// The object that was made: 4 to 2^61 - 1.
    Object(ObjectId),
    /// The caller entered a gate.
    Entered {
        /// Where it runs.
        entry_point: u64,
        /// What it was handed.
        closure: u64,
    },
    /// Bytes that were read or received: 1 to 64.
    Bytes(Data),
    /// What the caller is.
    Own {
        /// Its label.
        label: Label,
        /// Its clearance.
        clearance: Label,
        /// The label that it last proved at a gate.
        verify: Label,
        /// The entry of its address space, (0, 0) for none.
        space: Entry,
        /// Where it runs.
        entry_point: u64,
        /// What it was handed by a gate.
        closure: u64,
    },
    /// The label of an object.
    Label(Label),
    /// What an object may use and uses, in pages of 256 bytes.
    Quota {
        /// What it may use.
        quota: u32,
        /// What it uses.
        used: u32,
        /// Its quota never changes again.
        fixed: bool,
        /// It is read-only for good.
        immutable: bool,
    },
    /// Ids that a container lists.
    Listed {
        /// How many it lists.
        count: u64,
        /// Up to 16 of them, in the order of their linking.
        ids: Ids,
    },
    /// The container that lists a container.
    Parent(ObjectId),
    /// The length of a segment in pages of 256 bytes: 0 to 16.
    Pages(u32),
    /// What a slot maps, if anything.
    Mapping(Option<Mapping>),
    /// The call was refused, and nothing changed.
    Refused(Refusal),
}

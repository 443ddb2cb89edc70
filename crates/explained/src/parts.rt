//! What a condition of a row is made of.
ghost use Rattle.std.specs.Prelude.{◌≡◌, ◌≤◌, ◌++◌, ◌∷◌, [], map, length, OnOk, IfOk};

use crate::facts::Fact;
use base::{NoMemory, ObjectId, Refusal};
use kernel_rules::Mapping;
use label_lattice::Label;
use std::alloc::Global;
use std::marker::Model;

/// Whose a label is that is compared, or what the call gives it as.
#[derive(Clone, Copy, PartialEq, Eq, Debug)]
pub enum Role {
    /// The label of the calling thread.
    Own,
    /// Its clearance.
    OwnClearance,
    /// The label of an object.
    Object(ObjectId),
    /// The clearance of a gate.
    Gate(ObjectId),
    /// The label that the call gives.
    Given,
    /// The clearance that it gives.
    GivenClearance,
    /// The label that it shows to a gate.
    Verified,
}

/// A label that is compared, where it is there, and whose it is.
#[derive(Clone, Copy)]
pub struct Side {
    /// Whose it is.
    pub role: Role,
    /// The label.
    pub label: Option<Label>,
}

/// Labels that are compared. A comparison fails where one is not there.
#[derive(Clone, Copy)]
pub enum Comparison {
    /// The first is at most the second.
    Below(Side, Side),
    /// The first is at most the second with star raised.
    Visible(Side, Side),
    /// The first with star raised is at most the second with star raised.
    Shown(Side, Side),
    /// The first is at most the maximum of the others.
    BelowJoin(Side, Side, Side),
    /// The first is at most the maximum of the second and of the third with star raised.
    BelowJoinUp(Side, Side, Side),
    /// The third is at least the floor of a thread of the first past a gate of the second.
    AboveFloor(Side, Side, Side),
}

/// One part of a condition. The condition holds, and refuses the call, where a part stands against
/// it. Each part tells the values by which it is decided.
#[derive(Clone, Copy)]
pub enum Part {
    /// A fact that neither labels nor numbers decide, and whether it is so: then it stands against the call.
    Fact(Fact, bool),
    /// Labels, against the call where the comparison fails.
    Compared(Comparison),
    /// A number that is to be at least another: the number, and its least.
    AtLeast(u64, u64),
    /// A number that is to be at most another: the number, and its most.
    AtMost(u64, u64),
    /// An object, what it uses, what is to come, in pages of 256 bytes, and its quota, which both are to be at most.
    Sum(ObjectId, u128, u32, u32),
    /// A slot that is to be empty, and what it maps.
    Empty(u32, Option<Mapping>),
    /// A mapping that is to meet no page of what a slot maps: the slot, the mapping, and what it
    /// maps.
    Apart(u32, Mapping, Option<Mapping>),
}

/// The parts of a condition, in their order. A contract sees the list.
#[derive(Drop)]
pub struct Parts {
    parts: Vec<Part>,
}

impl Model for Parts {
    ghost use Rattle.std.specs.Prelude.{List};
    ghost use Rattle.explained.specs.declared.parts.Part.{Part};

    ghost Value = { List Part };

    ghost view = { λ a. a.parts.items };
}

impl Parts {
    /// No parts.
    pub(crate) fn new(alloc: Global) -> Parts
        ensures { result ≡ [] }
    {
        Parts {
            parts: Vec::new(alloc),
        }
    }

    /// These parts. The error is want of memory.
    pub(crate) fn of(alloc: Global, parts: &[Part]) -> Result<Parts, NoMemory>
        ensures { IfOk result (λ made. made ≡ parts.now) }
    {
        Ok(Parts {
            parts: Vec::from_slice(alloc, parts)?,
        })
    }

    /// One part more, at the end. The error is want of memory.
    pub(crate) fn push(&mut self, part: Part) -> Result<(), NoMemory>
        ensures { OnOk result (self.new ≡ self.old ++ part ∷ []) }
    {
        self.parts.extend_from_slice(&[part])?;
        Ok(())
    }

    /// The parts.
    pub fn as_slice(&self) -> &[Part]
        ensures { result.now ≡ self.now }
    {
        self.parts.as_slice()
    }
}

/// A condition of a row: the refusal that it gives, and its parts.
#[derive(Drop)]
pub struct Finding {
    /// The refusal.
    pub refusal: Refusal,
    /// What it is made of.
    pub parts: Parts,
}

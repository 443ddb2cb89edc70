//! The filled slots of an address space.
ghost use Rattle.std.specs.Prelude.{◌≡◌, [], ◌∷◌, ◌++◌, OnOk, OnErr};

use kernel_rules::Mapping;
use std::alloc::{AllocError, Global};
use std::marker::Model;

/// A slot of an address space that has a mapping.
#[derive(Clone, Copy)]
pub struct FilledSlot {
    /// The slot: 0 to 15, where the checkpoint can be restored.
    pub slot: u32,
    /// What it maps.
    pub mapping: Mapping,
}

/// Filled slots as they are written. A contract sees the list.
#[derive(Drop)]
pub struct SlotList {
    slots: Vec<FilledSlot>,
}

impl Model for SlotList {
    ghost use Rattle.std.specs.Prelude.{List};
    ghost use Rattle.checkpoints.specs.declared.slot_lists.FilledSlot.{FilledSlot};

    ghost Value = { List FilledSlot };

    ghost view = { λ a. a.slots.items };
}

impl SlotList {
    /// No slots.
    pub fn new(alloc: Global) -> SlotList
        ensures { result ≡ [] }
    {
        SlotList {
            slots: Vec::new(alloc),
        }
    }

    /// The slots.
    pub fn as_slice(&self) -> &[FilledSlot]
        ensures { result.now ≡ self.now }
    {
        self.slots.as_slice()
    }

    /// Adds a slot at the end. Without memory the list is as it was.
    pub fn push(&mut self, slot: FilledSlot) -> Result<(), AllocError>
        ensures ok { OnOk result (self.new ≡ self.old ++ slot ∷ []) }
        ensures err { OnErr result (self.new ≡ self.old) }
    {
        self.slots.push(slot)?;
        Ok(())
    }
}

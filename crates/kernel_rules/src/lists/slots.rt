//! The slots of an address space.
ghost use Rattle.std.specs.Prelude.{◌≡◌, ◌<◌, None, replicate, slice_set};

use crate::objects::Mapping;

/// The sixteen slots of an address space.
#[derive(Clone, Copy)]
pub struct Slots {
    /// The mapping of each slot, where it has one.
    pub slots: [Option<Mapping>; 16],
}

impl Slots {
    /// Sixteen empty slots.
    pub fn empty() -> Slots
        ensures { result ≡ record { slots = replicate 16 None } }
    {
        Slots { slots: [None; 16] }
    }

    /// Fills or empties a slot.
    pub fn set(&mut self, slot: usize, mapping: Option<Mapping>)
        requires { slot < 16 }
        ensures { self.new ≡ record { slots = slice_set self.old.slots slot mapping } }
    {
        self.slots[slot] = mapping;
    }
}

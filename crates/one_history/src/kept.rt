//! What a kernel keeps.
ghost use Rattle.one_history.specs.OneHistory.{IsRecomputed};
ghost use Rattle.syscall_core.specs.Kernel.{kernel_state};

use base::{Meter, ObjectId, Rights};
use label_intern::{LabelIx, OrderBits};
use label_lattice::Label;
use syscall_core::Kernel;

/// What is looked at in a kernel.
#[derive(Clone, Copy)]
pub struct Looked {
    /// An object.
    pub object: ObjectId,
    /// A slot of its address space, from 0, where it is a thread.
    pub slot: usize,
    /// The place of a live id among all of them, from 0.
    pub place: usize,
    /// The index of a stored label.
    pub one: LabelIx,
    /// That of another.
    pub other: LabelIx,
}

/// What a kernel keeps: a live id, what an object uses, what a slot of a thread's address space shows, and how two labels compare.
#[derive(Clone, Copy)]
pub struct KeptParts {
    /// The live id at a place among all of them.
    pub live: Option<ObjectId>,
    /// The pages that an object uses, where it is live.
    pub used: Option<u32>,
    /// The segment that a slot shows to the object, if that is a thread, with the rights to it.
    pub shown: Option<(ObjectId, Rights)>,
    /// The label of one index, where it has one.
    pub one: Option<Label>,
    /// The label of the other.
    pub other: Option<Label>,
    /// How the one compares with the other, where both are there.
    pub order: Option<OrderBits>,
}

/// What a kernel keeps of what is looked at.
pub fn kept_of(kernel: &Kernel, looked: &Looked, meter: &mut Meter) -> KeptParts
    ensures { IsRecomputed (kernel_state kernel.now) looked.now result }
{
    kernel.labels_are_kept();
    KeptParts {
        live: kernel.kept_live(looked.place, meter),
        used: kernel.kept_use(looked.object, meter),
        shown: kernel.kept_translation(looked.object, looked.slot, meter),
        one: kernel.kept_label(looked.one).copied(),
        other: kernel.kept_label(looked.other).copied(),
        order: kernel.kept_order(looked.one, looked.other),
    }
}

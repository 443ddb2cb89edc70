//! What a new object is made of.

use crate::bearers::ThreadStart;
use base::TypeSet;
use kernel_rules::Gate;

/// What a new object is, beside its label and its quota. Objects that it names lie at locations `L`.
#[derive(Clone, Copy)]
pub enum NewBody<'a, L> {
    /// A container that will hold none of these kinds, and lists nothing.
    Container(TypeSet),
    /// A segment of so many pages of 0: 0 to 16.
    Segment(u32),
    /// A segment with the bytes of the one that lies there, and without a page where there is none.
    Copy(L),
    /// An address space of sixteen empty slots.
    AddressSpace,
    /// A thread without an address space.
    Thread(ThreadStart<'a>),
    /// A gate.
    Gate(&'a Gate),
}

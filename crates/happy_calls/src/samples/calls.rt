//! Calls that make an object in the root.
use crate::samples::labels::{everywhere, plain};
use base::{Level, ObjectId, TypeSet};
use kernel_rules::{Call, NewContainer, NewSegment, NewThread};
use label_lattice::RawLabel;

/// A call that makes a container.
pub fn new_container(quota: u32) -> Call {
    Call::ContainerCreate(NewContainer {
        container: ObjectId::root(),
        label: plain(),
        quota,
        avoid: TypeSet::none(),
    })
}

/// A call that makes a segment of one page.
pub fn new_segment(label: RawLabel) -> Call {
    Call::SegmentCreate(NewSegment {
        container: ObjectId::root(),
        label,
        quota: 2,
        pages: 1,
    })
}

/// A call that makes a thread with the clearance {2}.
pub fn new_thread() -> Call {
    Call::ThreadCreate(NewThread {
        container: ObjectId::root(),
        label: plain(),
        quota: 1,
        clearance: everywhere(Level::L2),
        entry_point: 0,
    })
}

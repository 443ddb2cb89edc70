//! What a kernel is asked.
use base::{Category, Data, Level, ObjectId, Rights, TypeSet};
use kernel_rules::{
    Call, Entry, Mapping, NewAddressSpace, NewContainer, NewSegment, NewThread, Query, Reply,
};
use label_lattice::RawLabel;

const BYTES: [u8; 64] = [7; 64];

/// The thread that asks.
pub fn asker() -> ObjectId {
    ObjectId::new(2)
}

/// An object's entry in the root container.
pub fn in_root(object: ObjectId) -> Entry {
    Entry {
        container: ObjectId::root(),
        object,
    }
}

/// A segment of so many pages in the root container.
pub fn new_segment(label: &RawLabel, pages: u32) -> Call {
    Call::SegmentCreate(NewSegment {
        container: ObjectId::root(),
        label: *label,
        quota: pages.saturating_add(1),
        pages,
    })
}

/// The label that is at this level everywhere.
pub fn everywhere(level: Level) -> RawLabel {
    RawLabel::new(level, &[])
}

/// A thread in the root container with the label {1} and the clearance {2}.
pub fn new_thread() -> Call {
    Call::ThreadCreate(NewThread {
        container: ObjectId::root(),
        label: everywhere(Level::L1),
        quota: 1,
        clearance: everywhere(Level::L2),
        entry_point: 0,
    })
}

/// An address space in the root container.
pub fn new_space(label: &RawLabel) -> Call {
    Call::AsCreate(NewAddressSpace {
        container: ObjectId::root(),
        label: *label,
        quota: 1,
    })
}

/// A container in the root container, with room for an object of a page.
pub fn new_container(label: &RawLabel) -> Call {
    Call::ContainerCreate(NewContainer {
        container: ObjectId::root(),
        label: *label,
        quota: 2,
        avoid: TypeSet::none(),
    })
}

/// The first page of a segment at the first page of a space, by its first slot.
pub fn map(space: ObjectId, segment: ObjectId) -> Call {
    Call::AsMap {
        space: in_root(space),
        slot: 0,
        mapping: Mapping {
            page: 0,
            entry: in_root(segment),
            first: 0,
            count: 1,
            rights: Rights {
                read: true,
                write: true,
            },
        },
    }
}

/// The caller gets a space.
pub fn use_space(space: ObjectId) -> Call {
    Call::SelfSetAs {
        space: in_root(space),
    }
}

/// An object's quota never changes again.
pub fn fix(object: ObjectId) -> Call {
    Call::SetFixed {
        entry: in_root(object),
    }
}

/// A second link to an object of the root container.
pub fn link(target: ObjectId, object: ObjectId) -> Call {
    Call::Link {
        target,
        entry: in_root(object),
    }
}

/// A container's link to an object goes.
pub fn unref(container: ObjectId, object: ObjectId) -> Call {
    Call::Unref {
        entry: Entry { container, object },
    }
}

/// The object of a call that takes a container's link to it out is another one. (So that the call, which is large, is made
/// once.)
pub fn name_object(unlinking: &mut Call, object: ObjectId) {
    if let Call::Unref { entry } = unlinking {
        entry.object = object;
    }
}

/// 64 bytes at the start of a segment.
pub fn write(segment: ObjectId) -> Call {
    Call::SegmentWrite {
        entry: in_root(segment),
        offset: 0,
        data: Data::from_slice(&BYTES),
    }
}

/// The first 64 bytes of a segment.
pub fn read(segment: ObjectId) -> Query {
    Query::SegmentRead {
        entry: in_root(segment),
        offset: 0,
        count: 64,
    }
}

/// 64 bytes at address 0.
pub fn store() -> Call {
    Call::Store {
        address: 0,
        data: Data::from_slice(&BYTES),
    }
}

/// The 64 bytes at address 0.
pub fn load() -> Query {
    Query::Load {
        address: 0,
        count: 64,
    }
}

/// The object that a reply tells of, if any.
pub fn object_in(reply: &Reply) -> Option<ObjectId> {
    match reply {
        Reply::Object(id) => Some(*id),
        _ => None,
    }
}

/// The category that a reply tells of, if any.
pub fn category_in(reply: &Reply) -> Option<Category> {
    match reply {
        Reply::Category(category) => Some(*category),
        _ => None,
    }
}

/// Whether a reply has the bytes that are written.
pub fn shows_bytes(reply: &Reply) -> bool {
    match reply {
        Reply::Bytes(bytes) => bytes.as_slice() == BYTES.as_slice(),
        _ => false,
    }
}

/// Whether a reply is no refusal.
pub fn is_done(reply: &Reply) -> bool {
    !matches!(reply, Reply::Refused(_))
}

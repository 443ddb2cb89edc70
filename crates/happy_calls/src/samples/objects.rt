//! The objects of a booted kernel.
use base::ObjectId;
use kernel_rules::Entry;

/// The thread that is there after a boot.
pub fn boot_thread() -> ObjectId {
    ObjectId::new(2)
}

/// The device that is there after a boot.
pub fn device() -> ObjectId {
    ObjectId::new(3)
}

/// The entry of an object, by its number, in the root.
pub fn in_root(number: u64) -> Entry {
    Entry {
        container: ObjectId::root(),
        object: ObjectId::new(number),
    }
}

/// The entry that names nothing.
pub fn no_entry() -> Entry {
    Entry {
        container: ObjectId::new(0),
        object: ObjectId::new(0),
    }
}

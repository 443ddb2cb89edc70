//! The records, as `include/histar.h` declares them.

/// A label: a default, and up to 24 categories with their levels. A level is 0 to 3, or 4 for star.
#[repr(C)]
#[derive(Clone, Copy)]
pub struct LabelRecord {
    /// The level of each category that stands in no pair.
    pub default_level: u8,
    /// How many pairs there are: 0 to 24.
    pub count: u8,
    /// The levels of the pairs.
    pub levels: [u8; 24],
    /// The categories of the pairs.
    pub categories: [u64; 24],
}

/// What a thread asks for, told by the number of a call. A field that the call does not name is not read.
#[repr(C)]
#[derive(Clone, Copy)]
pub struct Request {
    /// What is asked for: 1 to 24 is a write call, 25 to 34 a read call, 35 to 39 a look-up, 40 to 42, 48 and 49 of the log.
    pub call: u32,
    /// How many bytes there are: 0 to 64.
    pub len: u32,
    /// Who calls.
    pub thread: u64,
    /// The container that is named, or the container of the first entry.
    pub container: u64,
    /// The object of the first entry.
    pub object: u64,
    /// The container of the second entry, or where an object is linked.
    pub other_container: u64,
    /// The object of the second entry.
    pub other_object: u64,
    /// The numbers of the call, in the order in which a script has them.
    pub numbers: [u64; 5],
    /// The bytes.
    pub bytes: [u8; 64],
    /// The label.
    pub label: LabelRecord,
    /// The clearance.
    pub clearance: LabelRecord,
    /// The verify label.
    pub verify: LabelRecord,
}

/// What is answered, told by the number of a reply. A field that the reply does not have is as it was.
#[repr(C)]
#[derive(Clone, Copy)]
pub struct Answer {
    /// The number of the reply: 0 to 12, in the order of `Reply`, 13 of a look-up, or 14 of a text's length.
    pub reply: u32,
    /// How many bytes, ids or mappings there are, or what was found: 0 or 1.
    pub len: u32,
    /// The numbers of the reply, in the order in which a script prints them.
    pub numbers: [u64; 17],
    /// The bytes.
    pub bytes: [u8; 64],
    /// The label.
    pub label: LabelRecord,
    /// The clearance.
    pub clearance: LabelRecord,
    /// The verify label.
    pub verify: LabelRecord,
}

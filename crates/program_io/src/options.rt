//! What is asked of a run and of an audit.
use base::{Category, Level, Limits, ObjectId};

/// How a script is played.
#[derive(Clone, Copy, Debug, PartialEq, Eq)]
pub struct Options {
    /// What the kernel is booted with.
    pub limits: Limits,
    /// Whether a dump of the run is made.
    pub dump: bool,
    /// How many of the run's first events a dump tells by the state that they lead to, in place of one by one; all where
    /// it has fewer.
    pub checkpoint: u32,
    /// Whether the names of the run are told.
    pub names: bool,
}

/// The options of a run that is told none: 64 pages, a device of level 1, the first id 4 and the first category 1, no
/// dump, no event told by a state, and no names.
pub const DEFAULTS: Options = Options {
    limits: Limits {
        pages: 64,
        device: Level::L1,
        next_id: 4,
        next_category: 1,
    },
    dump: false,
    checkpoint: 0,
    names: false,
};

/// How a dump is audited.
#[derive(Clone, Copy, Debug, PartialEq, Eq)]
pub struct AuditOptions {
    /// Whether a clean dump of format 1 is written anew in format 2.
    pub migrate: bool,
    /// The object whose flows outside the category are told of a clean dump, where they are asked for.
    pub flow: Option<(ObjectId, Category)>,
}

/// The options of an audit that is told none: no dump is written, and no flows are told.
pub const AUDIT_DEFAULTS: AuditOptions = AuditOptions {
    migrate: false,
    flow: None,
};

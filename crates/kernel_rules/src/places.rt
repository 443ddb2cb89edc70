//! Where an address of a thread lies.
ghost use Rattle.std.specs.Prelude.{◌≡◌};
ghost use Rattle.kernel_rules.specs.Translate.{covers};

use crate::objects::Mapping;
use base::{ObjectId, Rights};

/// Where an address lies, by the one mapping that covers it.
#[derive(Clone, Copy)]
pub struct Place {
    /// The segment.
    pub segment: ObjectId,
    /// The place in it, from 0.
    pub offset: u64,
    /// What the thread may do there.
    pub rights: Rights,
}

/// Whether a mapping covers a virtual page.
pub fn covers(mapping: &Option<Mapping>, page: u64) -> bool
    ensures { result ≡ covers page mapping.now }
{
    match mapping {
        None => false,
        Some(mapping) => {
            let first = u64::from(mapping.page);
            first <= page && page < first + u64::from(mapping.count)
        }
    }
}

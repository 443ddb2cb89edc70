//! The limits that a machine is booted with.
ghost use Rattle.std.specs.Prelude.{◌≡◌};
ghost use Rattle.base.specs.Limits.{in_range};

use crate::levels::Level;

/// What a machine is booted with.
#[derive(Clone, Copy, PartialEq, Eq, Debug)]
pub struct Limits {
    /// The quota of the root, in pages of 256 bytes: 8 to 1,024.
    pub pages: u32,
    /// The level of the device's label: any but `Star`.
    pub device: Level,
    /// The first id that a call gives: 4 to 2^61, where 2^61 is spent.
    pub next_id: u64,
    /// The first category that a call gives: 1 to 2^61, where 2^61 is spent.
    pub next_category: u64,
}

impl Limits {
    /// Whether each limit is in its range, so that a machine boots with them.
    pub fn is_in_range(&self) -> bool
        ensures { result ≡ in_range self.now }
    {
        let spent = 1u64 << 61;
        8 <= self.pages
            && self.pages <= 1024
            && self.device.rank() != 0
            && 4 <= self.next_id
            && self.next_id <= spent
            && 1 <= self.next_category
            && self.next_category <= spent
    }
}

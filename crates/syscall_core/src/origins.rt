//! The limits that a kernel began with.
ghost use Rattle.std.specs.Prelude.{◌≡◌};

use base::Limits;
use std::marker::Model;

/// The limits that a kernel began with. A contract sees them.
#[derive(Drop)]
pub(crate) struct Origin {
    limits: Limits,
}

impl Model for Origin {
    ghost use Rattle.base.specs.declared.ranges.Limits.{Limits};

    ghost Value = { Limits };

    ghost view = { λ o. o.limits };
}

impl Origin {
    /// These limits.
    pub(crate) fn new(limits: &Limits) -> Origin
        ensures { result ≡ limits.now }
    {
        Origin { limits: *limits }
    }

    /// The limits.
    pub(crate) fn limits(&self) -> &Limits
        ensures { result.now ≡ self.now }
    {
        &self.limits
    }
}

//! Sets of rights and of kinds.
ghost use Rattle.std.specs.Prelude.{◌≡◌};
ghost use Rattle.base.specs.Sets.{no_kind, only, has_kind, no_right, reading};

use crate::kinds::Kind;

/// What a mapping allows: to read, to write, both or nothing.
#[derive(Clone, Copy, PartialEq, Eq, Debug)]
pub struct Rights {
    /// Whether to read.
    pub read: bool,
    /// Whether to write.
    pub write: bool,
}

impl Rights {
    /// Neither to read nor to write.
    pub fn none() -> Rights
        ensures { result ≡ no_right }
    {
        Rights {
            read: false,
            write: false,
        }
    }

    /// The rights without writing.
    pub fn reading(self) -> Rights
        ensures { result ≡ reading self }
    {
        Rights {
            read: self.read,
            write: false,
        }
    }
}

/// A set of kinds, as a container's kinds to avoid.
#[derive(Clone, Copy, PartialEq, Eq, Debug)]
pub struct TypeSet {
    /// Whether containers are in it.
    pub container: bool,
    /// Whether segments are.
    pub segment: bool,
    /// Whether address spaces are.
    pub address_space: bool,
    /// Whether threads are.
    pub thread: bool,
    /// Whether gates are.
    pub gate: bool,
    /// Whether devices are.
    pub device: bool,
}

impl TypeSet {
    /// The set of no kind.
    pub fn none() -> TypeSet
        ensures { result ≡ no_kind }
    {
        TypeSet {
            container: false,
            segment: false,
            address_space: false,
            thread: false,
            gate: false,
            device: false,
        }
    }

    /// The set of one kind.
    pub fn of(kind: Kind) -> TypeSet
        ensures { result ≡ only kind }
    {
        let none = TypeSet::none();
        match kind {
            Kind::Container => TypeSet {
                container: true,
                ..none
            },
            Kind::Segment => TypeSet {
                segment: true,
                ..none
            },
            Kind::AddressSpace => TypeSet {
                address_space: true,
                ..none
            },
            Kind::Thread => TypeSet {
                thread: true,
                ..none
            },
            Kind::Gate => TypeSet { gate: true, ..none },
            Kind::Device => TypeSet {
                device: true,
                ..none
            },
        }
    }

    /// Whether a kind is in the set.
    pub fn has(self, kind: Kind) -> bool
        ensures { result ≡ has_kind self kind }
    {
        match kind {
            Kind::Container => self.container,
            Kind::Segment => self.segment,
            Kind::AddressSpace => self.address_space,
            Kind::Thread => self.thread,
            Kind::Gate => self.gate,
            Kind::Device => self.device,
        }
    }
}

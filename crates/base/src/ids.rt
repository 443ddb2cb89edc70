//! What objects, categories and places are named by.
ghost use Rattle.std.specs.Prelude.{◌≡◌};

use std::marker::Model;

/// A category: a number from 1, below 2^61, given by a counter and never used again.
#[derive(Clone, Copy, PartialEq, Eq, PartialOrd, Ord, Debug)]
pub struct Category(pub u64);

/// The id of an object: a number from 1, below 2^61, given by a counter and never used again. A contract sees the number.
#[derive(Clone, Copy, PartialEq, Eq, PartialOrd, Ord, Debug)]
pub struct ObjectId(u64);

impl Model for ObjectId {
    ghost use Rattle.std.specs.Prelude.{ℕ};

    ghost Value = { ℕ };

    ghost view = { λ id. id.0 };

    ghost inverse = { λ n. record { 0 = n } };
}

impl ObjectId {
    /// The root container, which is never deallocated.
    pub const fn root() -> ObjectId
        ensures { result ≡ 1 }
    {
        ObjectId(1)
    }

    /// The id with this number, of an object or not.
    pub const fn new(number: u64) -> ObjectId
        ensures { result ≡ number }
    {
        ObjectId(number)
    }

    /// The number.
    pub const fn number(self) -> u64
        ensures { result ≡ self }
    {
        self.0
    }
}

/// The place of an object's record in an arena, from 0.
#[derive(Clone, Copy, PartialEq, Eq, Debug)]
pub struct Slot(pub usize);

//! Lists of ids.
ghost use Rattle.std.specs.Prelude.{◌≡◌, ◌≤◌, ◌-◌, [], ◌∷◌, ◌++◌, length, take, OnOk, OnErr};

use base::ObjectId;
use std::alloc::{AllocError, Global};
use std::marker::Model;

/// Ids in the order of their linking.
#[derive(Drop)]
pub struct IdList {
    ids: Vec<ObjectId>,
}

impl Model for IdList {
    ghost use Rattle.std.specs.Prelude.{ℕ, List};

    ghost Value = { List ℕ };

    ghost view = { λ a. a.ids.items };
}

impl IdList {
    /// No ids.
    pub fn new(alloc: Global) -> IdList
        ensures { result ≡ [] }
    {
        IdList {
            ids: Vec::new(alloc),
        }
    }

    /// The ids.
    pub fn as_slice(&self) -> &[ObjectId]
        ensures { result.now ≡ self.now }
    {
        self.ids.as_slice()
    }

    /// Adds an id at the end. Without memory the list is as it was.
    pub fn push(&mut self, id: ObjectId) -> Result<(), AllocError>
        ensures ok { OnOk result (self.new ≡ self.old ++ id ∷ []) }
        ensures err { OnErr result (self.new ≡ self.old) }
    {
        self.ids.push(id)?;
        Ok(())
    }

    /// Takes the last id away, if there is one.
    pub fn pop(&mut self)
        ensures { self.new ≡ take (length self.old - 1) self.old }
    {
        let _ = self.ids.pop();
    }
}

/// 0 to 16 ids, which take no memory. A contract sees the list of the ids.
#[derive(Clone, Copy)]
pub struct Ids {
    len: u8,
    ids: [ObjectId; 16],
}

impl Model for Ids {
    ghost use Rattle.std.specs.Prelude.{◌≡◌, ◌≤◌, ℕ, List, length, take};
    ghost use Rattle.base.specs.Padded.{padded};

    ghost Value = { List ℕ };

    ghost view = { λ a. take a.len a.ids };

    ghost invariant = { λ a. (a.len ≤ 16) × (length a.ids ≡ 16)
        × (a.ids ≡ padded 16 0 (take a.len a.ids)) };

    ghost inverse = { λ ids. record { len = length ids; ids = padded 16 0 ids } };
}

impl Ids {
    /// The most ids that an `Ids` holds.
    pub const MOST: usize = 16;

    /// These ids.
    pub fn from_slice(given: &[ObjectId]) -> Ids
        requires { length given.now ≤ 16 }
        ensures { result ≡ given.now }
    {
        let mut all = [ObjectId::new(0); 16];
        all[..given.len()].copy_from_slice(given);
        Ids {
            len: given.len() as u8,
            ids: all,
        }
    }

    /// The ids.
    pub fn as_slice(&self) -> &[ObjectId]
        ensures value { result.now ≡ self.now }
        ensures few { length self.now ≤ 16 }
    {
        &self.ids[..self.len as usize]
    }
}

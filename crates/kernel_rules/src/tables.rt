//! What a machine may keep beside its records, so that it decides fast.
use base::{ObjectId, Rights};
use label_lattice::RawLabel;
use std::marker::Model;

/// What an object uses.
#[derive(Clone, Copy)]
pub struct Used {
    /// The object.
    pub id: ObjectId,
    /// Its own cost and the declared quotas of what it lists, in pages of 256 bytes.
    pub pages: u32,
}

/// What a slot of a thread's address space shows (HiStar, OSDI 2006).
#[derive(Clone, Copy)]
pub struct Shown {
    /// The thread.
    pub thread: ObjectId,
    /// The slot, from 0 to 15.
    pub slot: u32,
    /// The segment.
    pub segment: ObjectId,
    /// What may be done with it.
    pub rights: Rights,
}

/// How two labels of a list compare, each named by its place in the list, from 0.
#[derive(Clone, Copy)]
pub struct Compared {
    /// The place of the label A.
    pub first: usize,
    /// The place of the label B.
    pub second: usize,
    /// From 0 to 7: the sum of 1 where A is at most B at each category, 2 where it is once B's
    /// star is raised above all levels, and 4 where it is once the star of both is raised.
    pub bits: u8,
}

/// All that a machine may keep beside its records. A contract sees the five lists.
#[derive(Drop)]
pub struct Tables {
    /// The ids of the live objects, rising.
    pub live: Vec<ObjectId>,
    /// What each live object uses, by rising ids.
    pub uses: Vec<Used>,
    /// What the slots of live threads show, by rising threads and slots: a slot that shows nothing
    /// is left out.
    pub shown: Vec<Shown>,
    /// The labels, clearances and verify labels of live objects, each once: by their defaults, and
    /// then by their lists of exceptions, place by place, a list before those that it begins.
    pub labels: Vec<RawLabel>,
    /// How every two of them compare, by rising places.
    pub orders: Vec<Compared>,
}

impl Model for Tables {
    ghost use Rattle.kernel_rules.specs.Tables.{TableLists};

    ghost Value = { TableLists };

    ghost view = { λ t. record {
      live = t.live.items;
      uses = t.uses.items;
      shown = t.shown.items;
      labels = t.labels.items;
      orders = t.orders.items;
    } };
}

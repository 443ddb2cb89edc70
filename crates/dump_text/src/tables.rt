//! A dump as a value.

use crate::reads::Read;
use base::{Limits, ObjectId};
use checkpoints::Checkpoint;
use kernel_rules::histories::Event;
use kernel_rules::{Compared, Shown, Used};
use label_lattice::RawLabel;
use std::marker::Model;

/// A label with its place among the labels, from 0.
#[derive(Clone, Copy)]
pub struct Stored {
    /// Its place. In a text it is below 2^32.
    pub index: usize,
    /// The label, with its pairs as they stand in the text.
    pub label: RawLabel,
}

/// The tables at the end of a run. A contract sees the five lists.
#[derive(Drop)]
pub struct DumpTables {
    /// The live ids.
    pub live: Vec<ObjectId>,
    /// What objects use.
    pub uses: Vec<Used>,
    /// What the slots of threads show.
    pub maps: Vec<Shown>,
    /// The labels that objects store.
    pub labels: Vec<Stored>,
    /// How every two of them compare.
    pub orders: Vec<Compared>,
}

impl Model for DumpTables {
    ghost use Rattle.dump_text.specs.Lists.{TableLists};

    ghost Value = { TableLists };

    ghost view = { λ t. record {
      live = t.live.items;
      uses = t.uses.items;
      maps = t.maps.items;
      labels = t.labels.items;
      orders = t.orders.items;
    } };
}

/// A read with its place among the events.
#[derive(Clone, Copy)]
pub struct PlacedRead {
    /// How many of the dump's events stand before it.
    pub place: usize,
    /// The read.
    pub read: Read,
}

/// What a run was booted with, where its events begin, the events, the reads among them, and the tables at the end. A contract
/// sees the lists.
#[derive(Drop)]
pub struct Dump {
    /// What the run was booted with.
    pub limits: Limits,
    /// The state that the events begin from, where that isn't the boot's. Format 1 has none.
    pub checkpoint: Option<Checkpoint>,
    /// The events, the oldest first.
    pub events: Vec<Event>,
    /// The reads, in the order of their places, of which none is past the last event. Format 1 has none.
    pub reads: Vec<PlacedRead>,
    /// The tables at the end.
    pub tables: DumpTables,
}

impl Model for Dump {
    ghost use Rattle.dump_text.specs.Lists.{DumpLists};

    ghost Value = { DumpLists };

    ghost view = { λ d. record {
      limits = d.limits;
      checkpoint = d.checkpoint;
      events = d.events.items;
      reads = d.reads.items;
      tables = d.tables;
    } };
}

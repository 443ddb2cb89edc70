//! The meter, which counts scans and probes.
ghost use Rattle.std.specs.Prelude.{◌≡◌, IfOk};
ghost use Rattle.base.specs.Counts.{scanned, probed, uncounted};

use crate::memory::NoMemory;
use std::alloc::Global;
use std::marker::Model;

/// Counts of scans (calls that read a label's content) and of probes (reads of one directory, list, mapping or row
/// cell). A count stops at 2^64 - 1. A meter holds memory, so a call that takes none cannot make one, and it can't be
/// copied.
#[derive(Drop)]
pub struct Meter {
    scans: u64,
    probes: u64,
    held: Box<u8>,
}

impl Model for Meter {
    ghost use Rattle.base.specs.Counts.{Counts};

    ghost Value = { Counts };

    ghost view = { λ m. record { scans = m.scans; probes = m.probes } };
}

impl Meter {
    /// A meter that has counted nothing.
    pub fn new(alloc: Global) -> Result<Meter, NoMemory>
        ensures { IfOk result (λ m. m ≡ uncounted) }
    {
        let held = Box::new(alloc, 0)?;
        Ok(Meter {
            scans: 0,
            probes: 0,
            held,
        })
    }

    /// How many scans it has counted.
    pub fn scans(&self) -> u64
        ensures { result ≡ self.now.scans }
    {
        self.scans
    }

    /// How many probes it has counted.
    pub fn probes(&self) -> u64
        ensures { result ≡ self.now.probes }
    {
        self.probes
    }

    /// Counts one scan.
    pub fn scan(&mut self)
        ensures { self.new ≡ scanned 1 self.old }
    {
        self.scans = self.scans.saturating_add(1);
    }

    /// Counts so many probes.
    pub fn probe_many(&mut self, count: u64)
        ensures { self.new ≡ probed count self.old }
    {
        self.probes = self.probes.saturating_add(count);
    }

    /// Counts one probe.
    pub fn probe(&mut self)
        ensures { self.new ≡ probed 1 self.old }
    {
        self.probes = self.probes.saturating_add(1);
    }
}

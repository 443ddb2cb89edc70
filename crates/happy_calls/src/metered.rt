//! A kernel with its meters, and looks at it of which the prover is told nothing.
use crate::look::Look;
use crate::samples::boot_thread;
use anyhow::Result;
use base::{Limits, Meter, NoMemory, ObjectId};
use label_intern::LabelIx;
use std::alloc::Global;
use syscall_core::{Call, Kernel, Query, Reply, run};

/// A kernel, the meter of its calls, and another for its tables.
#[derive(Drop)]
pub struct Metered {
    kernel: Kernel,
    meter: Meter,
    recomputing: Meter,
}

impl Metered {
    /// A kernel of these limits after its boot.
    pub fn boot(alloc: Global, limits: &Limits) -> Result<Metered> {
        // (The kernel comes last: what fails after it would drop it.)
        Ok(Metered {
            meter: Meter::new(alloc)?,
            recomputing: Meter::new(alloc)?,
            kernel: Kernel::boot(alloc, limits)?,
        })
    }

    /// Whether an object is a live thread.
    pub fn is_thread(&mut self, id: ObjectId) -> bool {
        self.kernel.is_thread(id, &mut self.meter)
    }

    /// The kept use of an object, if it is live.
    pub fn kept_use(&mut self, id: ObjectId) -> Option<u32> {
        self.kernel.kept_use(id, &mut self.meter)
    }

    /// The live object at a place, if there is one.
    pub fn kept_live(&mut self, place: usize) -> Option<ObjectId> {
        self.kernel.kept_live(place, &mut self.meter)
    }

    /// Whether a label is kept under an index.
    pub fn is_kept(&self, index: LabelIx) -> bool {
        self.kernel.kept_label(index).is_some()
    }

    /// Whether it is kept how the label of an index compares with itself.
    pub fn is_ordered(&self, index: LabelIx) -> bool {
        self.kernel.kept_order(index, index).is_some()
    }

    /// How many labels the tables have.
    pub fn labels(&mut self) -> Result<usize, NoMemory> {
        let tables = self.kernel.tables(&mut self.recomputing)?;
        Ok(tables.labels.len())
    }

    /// What a call of the boot thread answers.
    pub fn step(&mut self, call: &Call) -> Reply {
        self.kernel
            .step_surely(boot_thread(), call, &mut self.meter)
    }

    /// What these calls answer, one after another.
    pub fn run(
        &mut self,
        alloc: Global,
        calls: &[(ObjectId, Call)],
    ) -> Result<Vec<Reply>, NoMemory> {
        run(alloc, &mut self.kernel, calls)
    }

    /// How many labels a call of the boot thread scans, where it is not refused.
    pub fn scans(&mut self, call: &Call) -> Option<u64> {
        let before = self.meter.scans();
        match self.step(call) {
            Reply::Refused(_) => None,
            _ => Some(self.meter.scans().saturating_sub(before)),
        }
    }

    /// How many labels a query of the boot thread scans, be it refused or not.
    pub fn scans_asked(&mut self, query: &Query) -> u64 {
        let before = self.meter.scans();
        self.kernel
            .ask_surely(boot_thread(), query, &mut self.meter);
        self.meter.scans().saturating_sub(before)
    }

    /// How many cells a call of the boot thread reads, where it is not refused.
    pub fn probes(&mut self, call: &Call) -> Option<u64> {
        let before = self.meter.probes();
        match self.step(call) {
            Reply::Refused(_) => None,
            _ => Some(self.meter.probes().saturating_sub(before)),
        }
    }

    /// How many cells a query of the boot thread reads, where it is not refused.
    pub fn probes_asked(&mut self, query: &Query) -> Option<u64> {
        let before = self.meter.probes();
        match self
            .kernel
            .ask_surely(boot_thread(), query, &mut self.meter)
        {
            Reply::Refused(_) => None,
            _ => Some(self.meter.probes().saturating_sub(before)),
        }
    }

    /// Whether a call that stores so many labels is done, and scans as few as it says: none where it stores none.
    pub fn scans_few(&mut self, call: &Call, stores: u64) -> Result<bool, NoMemory> {
        let carried = self.labels()? as u64;
        let Some(scans) = self.scans(call) else {
            return Ok(false);
        };
        let labels = carried.saturating_add(stores);
        let product = stores.saturating_add(1).saturating_mul(labels);
        let most = product.saturating_mul(6).saturating_add(12);
        Ok(scans <= most && (scans == 0) == (stores == 0))
    }
}

//! The boot: the root, the boot thread and the device.
ghost use Rattle.std.specs.Prelude.{◌≡◌, ◌≤◌, ◌+◌, ◌==◌, true, false, IfOk, length};
ghost use Rattle.base.specs.Level.{rank_of};
ghost use Rattle.base.specs.Limits.{in_range};
ghost use Rattle.base.specs.declared.levels.Level.TheVariants.{L1, L2, L3};
ghost use Rattle.label_intern.specs.Held.{owned, label_of};
ghost use Rattle.label_intern.specs.Owners.{one_at, Takes};
ghost use Rattle.kernel_rules.specs.Runs.{booted};
ghost use Rattle.kernel_rules.specs.Step.{uniform};
ghost use Rattle.arena_state.specs.States.{state_of};

use crate::holdings::Holdings;
use crate::making::uniform;
use crate::pieces::Pieces;
use crate::records::{Kept, fresh_record, kept_thread};
use crate::states::ArenaState;
use arena_memory::address_spaces::Spaces;
use arena_memory::segments::{Queues, Segments};
use base::{Level, Limits, Meter, NoMemory, ObjectId, TypeSet};
use containers::Containers;
use label_intern::{LabelIx, Labels};
use std::alloc::Global;

// The labels that a boot stores: those of the root, of the boot thread with its clearance and verify label, and of the
// device.
#[derive(Clone, Copy)]
struct First {
    root: LabelIx,
    thread: LabelIx,
    clearance: LabelIx,
    verify: LabelIx,
    device: LabelIx,
}

fn first_labels(labels: &mut Labels, device: Level, meter: &mut Meter) -> First
    requires device { (rank_of device == 0) ≡ false }
    requires room { owned labels.old + 5 ≤ length labels.old }
    ensures takes { Takes labels.old labels.new (λ i. one_at i result.root.0
        + (one_at i result.thread.0 + (one_at i result.clearance.0 + one_at i result.verify.0))
        + one_at i result.device.0) }
    ensures root { label_of labels.new result.root.0 ≡ uniform L1 }
    ensures thread { label_of labels.new result.thread.0 ≡ uniform L1 }
    ensures clearance { label_of labels.new result.clearance.0 ≡ uniform L2 }
    ensures verify { label_of labels.new result.verify.0 ≡ uniform L3 }
    ensures device { label_of labels.new result.device.0 ≡ uniform device }
{
    let plain = uniform(Level::L1, meter);
    let high = uniform(Level::L2, meter);
    let top = uniform(Level::L3, meter);
    let outer = uniform(device, meter);
    let root = labels.intern(&plain, meter);
    let thread = labels.intern(&plain, meter);
    let clearance = labels.intern(&high, meter);
    let verify = labels.intern(&top, meter);
    let device = labels.intern(&outer, meter);
    First {
        root,
        thread,
        clearance,
        verify,
        device,
    }
}

impl ArenaState {
    /// The newly booted state: the root container, and in it the boot thread and the device. All pools are taken here:
    /// as many slots, links and frames as the root has pages, and three indexes of labels for each, and three more. The
    /// error is want of memory.
    pub fn boot(alloc: Global, limits: &Limits, meter: &mut Meter) -> Result<ArenaState, NoMemory>
        requires { in_range limits.now ≡ true }
        ensures { IfOk result (λ a. state_of a ≡ booted limits.now) }
    {
        let pool = limits.pages as usize;
        let mut labels = Labels::boot(alloc, 3 * pool + 3)?;
        let first = first_labels(&mut labels, limits.device, meter);
        let root = fresh_record(
            first.root,
            limits.pages,
            Kept::Container(TypeSet::none(), 4),
        );
        let kept = kept_thread(first.clearance, first.verify, 0);
        let boot_thread = fresh_record(first.thread, 1, Kept::Thread(kept));
        let boot_device = fresh_record(first.device, 2, Kept::Device);
        let mut records = vec![in alloc; root; pool]?;
        let mut places = Containers::boot(alloc, pool, ())?;
        let thread = places.create(ObjectId::root(), ObjectId::new(2), (), meter);
        let device = places.create(ObjectId::root(), ObjectId::new(3), (), meter);
        let _count = places.len();
        records[thread.0] = boot_thread;
        records[device.0] = boot_device;
        let segments = Segments::boot(alloc, pool)?;
        let queues = Queues::boot(alloc, pool)?;
        let spaces = Spaces::boot(alloc, pool)?;
        Ok(ArenaState {
            pieces: Pieces {
                limits: *limits,
                places,
                holdings: Holdings {
                    records,
                    labels,
                    segments,
                    queues,
                    spaces,
                },
                next_id: limits.next_id,
                next_category: limits.next_category,
            },
        })
    }
}

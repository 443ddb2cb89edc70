//! The packets of devices, by slot.
ghost use Rattle.std.specs.Prelude.{◌≡◌, ◌<◌, ◌≤◌, [], ◌∷◌, ◌++◌, length, drop, replicate, IfOk};
ghost use Rattle.std.specs.Prelude.{slice_set};
ghost use Rattle.base.specs.Counts.{probed};

use crate::segments::waiting::Waiting;
use base::{Data, Meter, NoMemory, Slot};
use std::alloc::Global;
use std::marker::Model;

/// The packets that wait in each slot, 0 to 4, the first one first. A contract sees the list of them, by slot; a slot that
/// is no device has none.
#[derive(Drop)]
pub struct Queues {
    queues: Vec<Waiting>,
}

impl Model for Queues {
    ghost use Rattle.std.specs.Prelude.{ℕ, List};

    ghost Value = { List (List (List ℕ)) };

    ghost view = { λ a. a.queues.items };
}

impl Queues {
    ghost use Rattle.arena_memory.specs.Queues.{packets_in};

    /// So many slots with no packet. Only this takes memory; the error is want of it.
    pub fn boot(alloc: Global, slots: usize) -> Result<Queues, NoMemory>
        ensures { IfOk result (λ queues. queues ≡ replicate slots []) }
    {
        let mut queues = Vec::with_capacity(alloc, slots)?;
        for _slot in 0..slots {
            queues.push_reserved(Waiting::new());
        }
        Ok(Queues { queues })
    }

    /// The packets of a slot, the first one first, 4 at most.
    pub fn packets(&self, slot: Slot) -> &[Data]
        requires { slot.0 < length self.now }
        ensures value { result.now ≡ packets_in self.now slot.0 }
        ensures few { length result.now ≤ 4 }
    {
        self.queues[slot.0].packets()
    }

    /// A packet comes last in a slot that has fewer than 4. All other slots stay. One probe.
    pub fn send(&mut self, slot: Slot, packet: Data, meter: &mut Meter)
        requires slot { slot.0 < length self.old }
        requires room { length (packets_in self.old slot.0) < 4 }
        ensures after { self.new
            ≡ slice_set self.old slot.0 (packets_in self.old slot.0 ++ packet ∷ []) }
        ensures counted { meter.new ≡ probed 1 meter.old }
    {
        meter.probe();
        let queue = &mut self.queues[slot.0];
        queue.push(packet);
    }

    /// The first packet of a slot goes, if there is one. All other slots stay. One probe.
    pub fn receive(&mut self, slot: Slot, meter: &mut Meter)
        requires { slot.0 < length self.old }
        ensures after { self.new ≡ slice_set self.old slot.0 (drop 1 (packets_in self.old slot.0)) }
        ensures counted { meter.new ≡ probed 1 meter.old }
    {
        meter.probe();
        let queue = &mut self.queues[slot.0];
        queue.pop_front();
    }
}

//! The packets of one slot.
ghost use Rattle.std.specs.Prelude.{◌≡◌, ◌<◌, ◌≤◌, [], ◌∷◌, ◌++◌, length, drop};

use base::Data;
use std::marker::Model;

/// The packets that wait in a slot, 0 to 4, the first one first. A contract sees the list of them.
#[derive(Drop)]
pub struct Waiting {
    len: usize,
    packets: [Data; 4],
}

impl Model for Waiting {
    ghost use Rattle.std.specs.Prelude.{◌≡◌, ◌≤◌, ℕ, List, length, take};

    ghost Value = { List (List ℕ) };

    ghost view = { λ q. take q.len q.packets };

    ghost invariant = { λ q. (q.len ≤ 4) × (length q.packets ≡ 4) };
}

impl Waiting {
    /// No packet.
    pub fn new() -> Waiting
        ensures { result ≡ [] }
    {
        Waiting {
            len: 0,
            packets: [Data::from_slice(&[]); 4],
        }
    }

    /// The packets, the first one first.
    pub fn packets(&self) -> &[Data]
        ensures value { result.now ≡ self.now }
        ensures few { length self.now ≤ 4 }
    {
        &self.packets[..self.len]
    }

    /// Puts a packet last, where there are fewer than 4.
    pub fn push(&mut self, packet: Data)
        requires { length self.old < 4 }
        ensures { self.new ≡ self.old ++ packet ∷ [] }
    {
        self.packets[self.len] = packet;
        self.len += 1;
    }

    /// Takes the first packet out, if there is one.
    pub fn pop_front(&mut self)
        ensures { self.new ≡ drop 1 self.old }
    {
        if self.len > 0 {
            self.len -= 1;
            for i in 0..self.len {
                self.packets[i] = self.packets[i + 1];
            }
        }
    }
}

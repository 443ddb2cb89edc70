//! The packets of a device.
ghost use Rattle.std.specs.Prelude.{◌≡◌, [], ◌∷◌, ◌++◌, drop, OnOk, OnErr};

use base::Data;
use std::alloc::{AllocError, Global};
use std::marker::Model;

/// Packets in the order of their coming.
#[derive(Drop)]
pub struct Packets {
    packets: Vec<Data>,
}

impl Model for Packets {
    ghost use Rattle.std.specs.Prelude.{ℕ, List};

    ghost Value = { List (List ℕ) };

    ghost view = { λ a. a.packets.items };
}

impl Packets {
    /// The packets.
    pub fn as_slice(&self) -> &[Data]
        ensures { result.now ≡ self.now }
    {
        self.packets.as_slice()
    }

    /// Adds a packet at the end. Without memory the list is as it was.
    pub fn push(&mut self, packet: Data) -> Result<(), AllocError>
        ensures ok { OnOk result (self.new ≡ self.old ++ packet ∷ []) }
        ensures err { OnErr result (self.new ≡ self.old) }
    {
        self.packets.push(packet)?;
        Ok(())
    }

    /// Takes the first packet away, if there is one.
    pub fn remove_first(&mut self)
        ensures { self.new ≡ drop 1 self.old }
    {
        if !self.packets.is_empty() {
            let _ = self.packets.remove(0);
        }
    }

    /// No packets.
    pub fn new(alloc: Global) -> Packets
        ensures { result ≡ [] }
    {
        Packets {
            packets: Vec::new(alloc),
        }
    }
}

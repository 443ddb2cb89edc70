//! A dump of what seats have seen, for callers.
ghost use Rattle.std.specs.Prelude.{◌≡◌, IfOk};
ghost use Rattle.shared_calls.specs.Cursors.{IsPlaced};
ghost use Rattle.shared_calls.specs.Dumps.{IsAt, IsDumpAfter, IsPieceOf, IsTelling, dump_in};

use crate::cursors::Cursor;
use crate::tellings::{Telling, tell_piece};
use base::NoMemory;
use std::alloc::Global;
use std::marker::Model;

/// A dump of batches that seats of a list have seen, of which some pieces were told. A contract sees the limits of the kernel's boot, the
/// checkpoint at which the dump begins, its events, and the number of its next piece.
#[derive(Drop)]
pub struct SeatDump {
    telling: Telling,
    number: u64,
}

impl Model for SeatDump {
    ghost use Rattle.std.specs.Prelude.{◌+◌, ◌*◌, ◌<◌};
    ghost use Rattle.shared_calls.specs.Dumps.{DumpView, IsAt, IsTelling, dump_in};

    ghost Value = { DumpView };

    ghost view = { λ d. dump_in d.telling d.number };

    ghost invariant = { λ d. IsTelling d.telling × IsAt d.telling d.number
        × (64 * d.number < d.telling.end.count + 192) };
}

impl SeatDump {
    /// A dump of which nothing was told.
    pub(crate) fn begun(telling: Telling) -> SeatDump
        requires telling { IsTelling telling }
        requires at { IsAt telling 0 }
        ensures { result ≡ dump_in telling 0 }
    {
        SeatDump { telling, number: 0 }
    }

    /// With which beginning of the list it ends.
    pub(crate) fn end(&self) -> &Cursor
        ensures placed { IsPlaced result.now }
        ensures list { result.now.seen.book ≡ self.now.list }
        ensures seen { result.now.seen.log ≡ self.now.seen }
    {
        &self.telling.end
    }

    /// The number of the next piece.
    pub fn number(&self) -> u64
        ensures { result ≡ self.now.number }
    {
        self.number
    }

    /// The next piece, and the dump after it. Number 0 has what stands before the events, each next one up to 64 events, and the last one
    /// the tables; past it a piece is empty, and the dump is over. One after another they are the dump of legal events, so an audit finds
    /// it clean. The error is want of memory.
    pub fn next_piece(self, alloc: Global) -> Result<(Vec<u8>, Option<SeatDump>), NoMemory>
        ensures piece { IfOk result (λ told. IsPieceOf self told.0.items) }
        ensures after { IfOk result (λ told. IsDumpAfter self told.0.items told.1) }
    {
        let SeatDump {
            mut telling,
            number,
        } = self;
        match tell_piece(alloc, &mut telling, number) {
            Ok(Some(text)) => Ok((
                text,
                Some(SeatDump {
                    telling,
                    number: number + 1,
                }),
            )),
            Ok(None) => Ok((Vec::new(alloc), None)),
            Err(error) => Err(error),
        }
    }
}

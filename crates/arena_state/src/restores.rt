//! States that are laid out anew.
ghost use Rattle.std.specs.Prelude.{◌≡◌, ◌≤◌, ℕ, List, [], IfOk};
ghost use Rattle.kernel_rules.specs.State.{State};
ghost use Rattle.plain_state.specs.Recorded.{records_state};
ghost use Rattle.arena_state.specs.Restored.{IsFilled, IsHoldable};
ghost use Rattle.arena_state.specs.States.{state_of};

mod ages;
mod contents;
mod fills;
mod kept;
mod trees;

use crate::holdings::Holdings;
use crate::pieces::Pieces;
use crate::records::{Kept, Record, fresh_record};
use crate::states::ArenaState;
pub use ages::are_younger;
use arena_memory::address_spaces::Spaces;
use arena_memory::segments::{Queues, Segments};
use base::{Meter, NoMemory};
use fills::fill;
use label_intern::{LabelIx, Labels};
use plain_state::Records;
use std::alloc::Global;
use trees::tree_of;

// What is kept by slots, none of which holds anything yet.
fn no_holdings(alloc: Global, pool: usize) -> Result<Holdings, NoMemory>
    requires { pool ≤ 1024 }
    ensures { IfOk result (λ h. (s : State) → s.limits.pages ≡ pool → (slots : List ℕ) → IsFilled s slots [] h) }
{
    let blank: Record = fresh_record(LabelIx(0), 0, Kept::Device);
    let records = vec![in alloc; blank; pool]?;
    let labels = Labels::boot(alloc, 3 * pool + 3)?;
    let segments = Segments::boot(alloc, pool)?;
    let queues = Queues::boot(alloc, pool)?;
    let spaces = Spaces::boot(alloc, pool)?;
    Ok(Holdings {
        records,
        labels,
        segments,
        queues,
        spaces,
    })
}

impl ArenaState {
    /// The state that records are, laid out anew, where a container is younger than the one that lists it. All pools are taken
    /// here, as at a boot. The error is want of memory.
    pub fn of_records(
        alloc: Global,
        records: &Records,
        meter: &mut Meter,
    ) -> Result<ArenaState, NoMemory>
        requires { IsHoldable (records_state records.now) }
        ensures { IfOk result (λ a. state_of a ≡ records_state records.now) }
    {
        let places = tree_of(alloc, records, meter)?;
        let _count = places.len();
        let mut holdings = no_holdings(alloc, records.limits.pages as usize)?;
        fill(&mut holdings, &places, records, meter);
        Ok(ArenaState {
            pieces: Pieces {
                limits: records.limits,
                places,
                holdings,
                next_id: records.next_id,
                next_category: records.next_category,
            },
        })
    }
}

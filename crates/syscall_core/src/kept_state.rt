//! What the arena kernel keeps.
ghost use Rattle.arena_state.specs.Shown.{AreKept};
ghost use Rattle.arena_state.specs.States.{state_of};
ghost use Rattle.kernel_laws.specs.Names.{IsNamedRightly};

use arena_memory::translation_rows::Rows;
use arena_state::ArenaState;

/// The objects, and the rows of what the slots of each thread's address space show. It is private to this crate: who has it
/// as a store can change a state past every refusal.
#[derive(Drop)]
pub(crate) struct KeptState {
    pub(crate) state: ArenaState,
    pub(crate) rows: Rows,
    ghost kept: { AreKept state rows },
    ghost named: { IsNamedRightly (state_of state) },
}

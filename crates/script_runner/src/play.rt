//! Playing a script.
ghost use Rattle.std.specs.Prelude.{◌≡◌, ◌<◌, ◌≤◌, true, false, max, min, IfOk};
ghost use Rattle.script_runner.specs.Dumps.{IsPlayed};
ghost use Rattle.script_rules.specs.Workers as rules;
ghost use Rattle.script_rules.specs.Workers.{lines_in};
ghost use Rattle.script_runner.specs.Reads.{reads_kept};
ghost use Rattle.script_runner.specs.Shared.{IsShared};
ghost use Rattle.script_runner.specs.Turns.{IsTurns};
ghost use Rattle.script_runner.specs.Workers.{take_turns};

use crate::faults::PlayFault;
use crate::lone_play::play_alone;
use crate::names::BoundNames;
use crate::parts::{Workers, workers_of};
use crate::reads::Reads;
use crate::shared_play::play_shared;
use base::Limits;
use call_text::Script;
use indexmap::IndexSet;
use kept_events::KeptEvent;
use kernel_rules::Tables;
use published_copy::Boot;
use std::alloc::Global;
use std::marker::Brand;
use std::sync::Wait;
use std::thread::Threads;
use text_words::Name;

/// What a script's lines printed, and what the kernel was asked.
#[derive(Drop)]
pub struct Played {
    /// A line `WORKER N: REPLY` for each line, N its number in the script: the workers in the order of their first lines,
    /// for each its lines in order.
    pub output: Vec<u8>,
    /// The journal: each write call that was made, in the order in which the kernel took them.
    pub events: Vec<KeptEvent>,
    /// The reads: each query of a worker that was answered, with how many events its thread had then seen.
    pub reads: Vec<Reads>,
    /// The tables of the state that the journal leads to.
    pub tables: Tables,
    /// The names of the script that something is bound to at the end.
    pub names: BoundNames,
}

/// How many seats so many workers can have, of the most that a boot has.
fn seats_for(workers: usize) -> usize
    ensures seats { result ≡ max 1 (min 64 workers) }
    ensures within { (0 < result) × (result ≤ 64) }
{
    workers.clamp(1, 64)
}

/// Plays a script of these workers through seats, on a newly booted kernel in two copies.
fn play_seated<R: Threads + Wait + Sync>(
    rt: &R,
    alloc: Global,
    script: &Script,
    workers: &IndexSet<Name>,
    limits: &Limits,
) -> Result<Played, PlayFault>
    requires { workers.now.keys ≡ rules.workers_of (lines_in script.now) }
    ensures shared { IfOk result (λ played. IsShared limits.now script.now played.output.items played.events.items played.names
        (reads_kept played.reads.items)) }
    ensures played { IfOk result (λ played. IsPlayed limits.now played.events.items played.tables) }
{
    match Boot::with_seats(alloc, limits, seats_for(workers.len())) {
        Ok(boot) => play_shared::<Brand, R>(rt, alloc, boot, script, workers),
        Err(refusal) => Err(PlayFault::Boot(refusal)),
    }
}

/// Plays a script of these workers, who take turns, on one newly booted kernel without copies.
fn play_turns(
    alloc: Global,
    script: &Script,
    workers: &IndexSet<Name>,
    limits: &Limits,
) -> Result<Played, PlayFault>
    requires { workers.now.keys ≡ rules.workers_of (lines_in script.now) }
    ensures turns { IfOk result (λ played. take_turns script.now ≡ true
        → IsTurns limits.now script.now played.output.items played.events.items played.names
        (reads_kept played.reads.items)) }
    ensures played { IfOk result (λ played. IsPlayed limits.now played.events.items played.tables) }
{
    let seats = seats_for(workers.len());
    play_alone::<Brand>(alloc, limits, seats, script, workers)
}

/// Plays a script on a newly booted kernel: its phases one after another, in each the workers at once, each one with a
/// seat in a thread of its own; after each phase every seat has seen what every other was told of. Where no phase has
/// lines of two workers, none plays beside another, and all are played in this thread, on one kernel that has no copies. A
/// name is known to the worker that bound it from its next line on, and to all others from the next phase on. The replies
/// print the names of the script as they are bound when all is played, and `#` and the number of what has none. It waits
/// for all threads that it starts. Nothing is printed after a fault. The journal and the tables are the book's at the end:
/// the journal is legal, and the tables are those of the state that it leads to. The limits are then in range. Which
/// lines are printed, in which order and with which numbers, depends on the script alone; each has the text of a reply, or
/// of a name that is not known. Where the workers take turns, the output, the journal and the names are those of the script's run
/// by the rules: each line has the reply of the rules in the state in which its turn came. Where they share phases, each line has
/// the reply of the rules after the events that its worker had then seen: these begin the journal, and begin with those of the line
/// before, and a call is the next event after them. Its reads are the queries that its workers were so answered.
pub fn play_all<R: Threads + Wait + Sync>(
    rt: &R,
    alloc: Global,
    script: &Script,
    limits: &Limits,
) -> Result<Played, PlayFault>
    ensures shared { IfOk result (λ played. take_turns script.now ≡ false
        → IsShared limits.now script.now played.output.items played.events.items played.names
        (reads_kept played.reads.items)) }
    ensures turns { IfOk result (λ played. take_turns script.now ≡ true
        → IsTurns limits.now script.now played.output.items played.events.items played.names
        (reads_kept played.reads.items)) }
    ensures played { IfOk result (λ played. IsPlayed limits.now played.events.items played.tables) }
{
    let Workers {
        names,
        take_turns: turns,
    } = workers_of(alloc, script)?;
    if !turns {
        return play_seated(rt, alloc, script, &names, limits);
    }
    play_turns(alloc, script, &names, limits)
}

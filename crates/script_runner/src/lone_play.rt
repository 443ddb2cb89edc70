//! Playing a script whose workers take turns: in one thread, on one kernel that has no copies.
ghost use Rattle.std.specs.Prelude.{◌≡◌, [], ℕ, None, IfOk, IfSome, OnOk, length, slice_get};
ghost use Rattle.std.specs.List.{IsDistinct};
ghost use Rattle.std.specs.Str.{bytes_eq};
ghost use Rattle.kernel_rules.specs.History.{state_of};
ghost use Rattle.kernel_rules.specs.Scratch.{scratch};
ghost use Rattle.call_text.specs.Known.{start_values};
ghost use Rattle.script_rules.specs.Output.{text_of};
ghost use Rattle.script_rules.specs.Run.{phase_after, refusal_by, run_from, seat_for, seated, start, unless_refused, Run};
ghost use Rattle.script_runner.specs.Dumps.{IsPlayed};
ghost use Rattle.script_runner.specs.Reads.{reads_kept, reads_left};
ghost use Rattle.script_runner.specs.Turns.{reads_in, seated_after, thread_after, AreOwn, IsRun, IsUnplayed};

use crate::answers::{Answers, Left};
use crate::batches::Batch;
use crate::desks::SoleDesk;
use crate::faults::PlayFault;
use crate::names::{BoundNames, object_in};
use crate::play::Played;
use crate::players::Player;
use crate::printing::{Printed, told_of};
use base::{Limits, ObjectId, Refusal};
use call_text::{Known, Phase, Script, Value};
use indexmap::IndexSet;
use kernel_rules::{Call, Reply, Tables};
use published_copy::Naming;
use std::alloc::{AllocError, Global};
use text_words::Name;

/// A seat for the thread of a worker that has none, or what refuses it one.
fn open<B: Naming>(
    own: &mut Left,
    desk: &mut SoleDesk<B>,
    thread: ObjectId,
) -> Result<ObjectId, Option<Refusal>>
    ensures seat { result ≡ unless_refused thread
        (refusal_by B.boot.limits B.boot.seats desk.old.journal desk.old.seated thread) }
    ensures thread { own.old.thread ≡ None → own.new.thread ≡ thread_after None result }
    ensures answers { own.new.answers ≡ own.old.answers }
    ensures seated { desk.new.seated ≡ seated_after desk.old.seated None result }
    ensures journal { desk.new.journal ≡ desk.old.journal }
{
    match desk.seat(thread) {
        Ok(seated) => {
            own.thread = Some(seated);
            Ok(seated)
        }
        Err(refusal) => Err(refusal),
    }
}

/// The seat of a worker, which is given one where it has none and its name is bound to an object, or what refuses it one.
fn sit<B: Naming>(
    own: &mut Left,
    desk: &mut SoleDesk<B>,
    bound: &Option<Value>,
) -> Result<ObjectId, Option<Refusal>>
    ensures seat { result ≡ seated own.old.thread
        (seat_for (refusal_by B.boot.limits B.boot.seats desk.old.journal desk.old.seated) bound.now) }
    ensures thread { own.new.thread ≡ thread_after own.old.thread result }
    ensures answers { own.new.answers ≡ own.old.answers }
    ensures seated { desk.new.seated ≡ seated_after desk.old.seated own.old.thread result }
    ensures journal { desk.new.journal ≡ desk.old.journal }
{
    match own.thread {
        Some(thread) => Ok(thread),
        None => match object_in(bound) {
            Some(thread) => open(own, desk, thread),
            None => Err(None),
        },
    }
}

/// Plays a phase, for the worker of its first line.
fn play_phase<B: Naming>(
    player: &mut Player<B>,
    phase: &Phase,
    workers: &IndexSet<Name>,
    played: &mut Vec<Left>,
) -> Result<(), PlayFault>
    requires { IsDistinct bytes_eq workers.now.keys }
    ensures { OnOk result ((r : Run)
        → IsRun workers.now.keys player.old.desk player.old.names played.old.items r
        → IsRun workers.now.keys player.new.desk player.new.names played.new.items
        (phase_after B.boot.limits B.boot.seats r phase.now)) }
{
    let Some(name) = phase.worker(0) else {
        return Ok(());
    };
    let Some(index) = workers.get_index_of(&name) else {
        return Err(PlayFault::Stopped);
    };
    let Some(own) = played.get_mut(index) else {
        return Err(PlayFault::Stopped);
    };
    let bound = player.names.value_of(&name);
    let seat = sit(own, &mut player.desk, &bound);
    Ok(player.play_lines(&seat, phase, &mut own.answers)?)
}

/// The workers of a script, none with a seat.
fn idle(alloc: Global, count: usize) -> Result<Vec<Left>, AllocError>
    ensures unplayed { IfOk result (λ idle. (i : ℕ) → IfSome (slice_get idle.items i) IsUnplayed) }
    ensures count { IfOk result (λ idle. length idle.items ≡ count) }
{
    let mut idle = Vec::new(alloc);
    for _ in 0..count {
        idle.push(Left {
            thread: None,
            answers: Answers::none(alloc),
        })?;
    }
    Ok(idle)
}

/// Plays the phases of a script one after another, and says what the workers leave.
fn play_phases<B: Naming>(
    alloc: Global,
    player: &mut Player<B>,
    script: &Script,
    workers: &IndexSet<Name>,
) -> Result<Vec<Left>, PlayFault>
    requires journal { player.old.desk.journal ≡ [] }
    requires seated { player.old.desk.seated ≡ [] }
    requires names { player.old.names ≡ start_values }
    ensures { IfOk result (λ left. IsRun workers.now.keys player.new.desk player.new.names left.items
        (run_from B.boot.limits B.boot.seats start script.now)) }
{
    let mut played = idle(alloc, workers.len())?;
    for phase in &script.phases {
        play_phase(player, phase, workers, &mut played)?;
    }
    Ok(played)
}

/// What is told of what workers leave, and the tables of the state in which they leave the kernel.
fn told_with<B: Naming>(
    alloc: Global,
    player: &Player<B>,
    workers: &IndexSet<Name>,
    left: Vec<Left>,
) -> Result<(Printed, Tables), PlayFault>
    ensures text { IfOk result (λ told. (r : Run) → AreOwn workers.now.keys left.items r → player.now.names ≡ r.names
        → told.0.output.items ≡ text_of r workers.now.keys) }
    ensures reads { IfOk result (λ told. reads_kept told.0.reads.items ≡ reads_left left.items) }
    ensures tables { IfOk result (λ told. told.1 ≡ scratch (state_of B.boot.limits player.now.desk.journal)) }
{
    let told = told_of(alloc, workers, left, &player.names)?;
    let tables = player.desk.tables(alloc)?;
    Ok((told, tables))
}

/// What a script prints, what was read, and the tables of the state in which it leaves the kernel.
fn told_in<B: Naming>(
    alloc: Global,
    player: &mut Player<B>,
    script: &Script,
    workers: &IndexSet<Name>,
) -> Result<(Printed, Tables), PlayFault>
    requires journal { player.old.desk.journal ≡ [] }
    requires seated { player.old.desk.seated ≡ [] }
    requires names { player.old.names ≡ start_values }
    ensures text { IfOk result (λ told. told.0.output.items
        ≡ text_of (run_from B.boot.limits B.boot.seats start script.now) workers.now.keys) }
    ensures reads { IfOk result (λ told. reads_kept told.0.reads.items
        ≡ reads_in (run_from B.boot.limits B.boot.seats start script.now) workers.now.keys) }
    ensures events { OnOk result (player.new.desk.journal
        ≡ (run_from B.boot.limits B.boot.seats start script.now).events) }
    ensures names { OnOk result (player.new.names
        ≡ (run_from B.boot.limits B.boot.seats start script.now).names) }
    ensures tables { IfOk result (λ told. told.1 ≡ scratch (state_of B.boot.limits player.new.desk.journal)) }
{
    let left = play_phases(alloc, player, script, workers)?;
    Ok(told_with(alloc, player, workers, left)?)
}

/// Plays a script on a newly booted kernel for so many seats, and makes the output. No phase has lines of two
/// workers. (Who owns the book has no place to leave early: its drop would be written out at each.)
pub fn play_alone<B: Naming>(
    alloc: Global,
    limits: &Limits,
    seats: usize,
    script: &Script,
    workers: &IndexSet<Name>,
) -> Result<Played, PlayFault>
    requires limits { limits.now ≡ B.boot.limits }
    requires seats { seats ≡ B.boot.seats }
    ensures played { IfOk result (λ played. IsPlayed limits.now played.events.items played.tables) }
    ensures text { IfOk result (λ played. played.output.items
        ≡ text_of (run_from limits.now seats start script.now) workers.now.keys) }
    ensures events { IfOk result (λ played. played.events.items
        ≡ (run_from limits.now seats start script.now).events) }
    ensures names { IfOk result (λ played. played.names
        ≡ (run_from limits.now seats start script.now).names) }
    ensures reads { IfOk result (λ played. reads_kept played.reads.items
        ≡ reads_in (run_from limits.now seats start script.now) workers.now.keys) }
{
    let names = BoundNames::start(alloc)?;
    let mut player = Player::<B> {
        desk: SoleDesk::<B>::boot(alloc, limits, seats)?,
        names,
        batch: Batch::none(alloc),
        call: Call::CatCreate,
        reply: Reply::Done,
    };
    let told = told_in(alloc, &mut player, script, workers);
    let Player {
        desk,
        names,
        batch: _,
        call: _,
        reply: _,
    } = player;
    let events = desk.into_events();
    let (told, tables) = told?;
    let Printed { output, reads } = told;
    Ok(Played {
        output,
        events,
        reads,
        tables,
        names,
    })
}

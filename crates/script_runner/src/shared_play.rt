//! Playing a script whose workers share phases: each in a thread of its own, through a seat of one kernel in two copies.
ghost use Rattle.std.specs.Prelude.{◌≡◌, ◌<◌, [], ◌∷◌, ◌++◌, List, true, map, vec_len, IfOk, IfSome, IsTrue, OnOk};
ghost use Rattle.std.specs.List.{AllByRecursion, AllZip};
ghost use Rattle.std.specs.Thread.{IsSend, IsSync};
ghost use mathlib.Core.List.{IsPrefix};
ghost use Rattle.call_text.specs.Known.{start_values};
ghost use Rattle.script_runner.specs.Dumps.{IsClosing};
ghost use Rattle.script_runner.specs.Reads.{reads_kept};
ghost use Rattle.script_runner.specs.Shared as rules;
ghost use Rattle.script_runner.specs.Shared.{Post, all_known, notes_of, posts_text, unplayed, ArePhases, AreLeft, AreSeen, HasSeen, IsPhase, Plays, Settles, Sits};

use crate::answers::Left;
use crate::closings::{Closing, closing_of};
use crate::faults::PlayFault;
use crate::names::BoundNames;
use crate::play::Played;
use crate::printing::{Printed, told_of};
use crate::workers::Worker;
use call_text::{Phase, Script};
use indexmap::IndexSet;
use published_copy::{Book, Boot, Naming, Note, Pass, Shared};
use std::alloc::{AllocError, Global};
use std::sync::Wait;
use std::thread;
use std::thread::Threads;
use text_words::Name;

/// What was played.
#[derive(Drop)]
struct Answered<B: Naming> {
    /// What each worker leaves, in the order of their first lines.
    left: Vec<Left>,
    /// The passes of their seats.
    passes: Vec<Option<Pass<B>>>,
    /// The names as they are bound at the end.
    names: BoundNames,
}

/// The workers before a phase: each that has lines there is given a seat, in the workers' order.
fn seat_all<'s, B: Naming, R: Wait>(
    rt: &R,
    alloc: Global,
    shared: &'s Shared<B>,
    workers: Vec<Worker<'s, B>>,
    phase: &Phase,
    known: &BoundNames,
) -> Result<Vec<Worker<'s, B>>, AllocError>
    ensures { IfOk result (λ seated. AllZip (Sits B.boot.limits B.boot.seats known.now phase.now) workers.entry.items seated.items) }
{
    let mut seated = Vec::with_capacity(alloc, workers.len())?;
    for mut worker in workers {
        worker.sit(rt, shared, phase, known);
        seated.push(worker)?;
    }
    Ok(seated)
}

/// A worker after it played its lines.
fn played<'s, B: Naming, R: Wait>(
    rt: &R,
    phase: &Phase,
    known: &BoundNames,
    mut worker: Worker<'s, B>,
) -> Result<Worker<'s, B>, PlayFault>
    ensures { IfOk result (Plays B.boot.limits known.now phase.now worker.entry) }
{
    worker.play(rt, phase, known)?;
    Ok(worker)
}

/// At most one worker after it played its lines.
fn played_alone<'s, B: Naming, R: Wait>(
    rt: &R,
    alloc: Global,
    phase: &Phase,
    known: &BoundNames,
    mut workers: Vec<Worker<'s, B>>,
) -> Result<Vec<Worker<'s, B>>, PlayFault>
    requires { vec_len workers < 2 }
    ensures { IfOk result (λ played. AllZip (Plays B.boot.limits known.now phase.now) workers.entry.items played.items) }
{
    let Some(worker) = workers.pop() else {
        return Ok(workers);
    };
    workers.push(played(rt, phase, known, worker)?)?;
    Ok(workers)
}

/// Workers after they all played at once, each in a thread of its own where one can be made. All threads are joined. Half of
/// the workers go to another thread at each step, so the stack grows as the logarithm of their number.
#[cycle(together)]
fn played_together<'s, B: Naming + Send, R: Threads + Wait + Sync>(
    rt: &R,
    alloc: Global,
    phase: &Phase,
    known: &BoundNames,
    mut workers: Vec<Worker<'s, B>>,
) -> Result<Vec<Worker<'s, B>>, PlayFault>
    ensures { IfOk result (λ played. AllZip (Plays B.boot.limits known.now phase.now) workers.entry.items played.items) }
{
    if workers.len() < 2 {
        return played_alone(rt, alloc, phase, known, workers);
    }
    let others = workers.split_off(workers.len() / 2)?;
    let front = move || -> Result<Vec<Worker<'_, B>>, PlayFault>
        requires { IsSync R.row × IsSend B.row }
        ensures { IfOk result (λ played. AllZip (Plays B.boot.limits known.entry.now phase.entry.now) workers.entry.items played.items) }
    { played_together(rt, alloc, phase, known, workers) };
    let back = move || -> Result<Vec<Worker<'_, B>>, PlayFault>
        requires { IsSync R.row × IsSend B.row }
        ensures { IfOk result (λ played. AllZip (Plays B.boot.limits known.entry.now phase.entry.now) others.entry.items played.items) }
    { played_together(rt, alloc, phase, known, others) };
    let (first, second) = thread::join(rt, front, back);
    let mut all = first?;
    let mut rest = second?;
    all.append(&mut rest)?;
    Ok(all)
}

/// What the workers' lines bound in a phase is known to all.
fn bind_all<B: Naming>(workers: &[Worker<'_, B>], names: &mut BoundNames) -> Result<(), AllocError>
    ensures { OnOk result (names.new ≡ all_known workers.now names.old) }
{
    for worker in workers {
        names.bind_all(worker.names())?;
    }
    Ok(())
}

/// What each worker that has a seat tells the others.
fn notes_of<B: Naming>(alloc: Global, workers: &[Worker<'_, B>]) -> Result<Vec<Note<B>>, AllocError>
    ensures { IfOk result (λ notes. notes.items ≡ notes_of workers.now) }
{
    let mut notes = Vec::with_capacity(alloc, workers.len())?;
    for worker in workers {
        if let Some(note) = worker.note() {
            notes.push(note)?;
        }
    }
    Ok(notes)
}

/// The workers after they learnt notes.
fn settled<'s, B: Naming>(
    alloc: Global,
    notes: &[Note<B>],
    workers: Vec<Worker<'s, B>>,
) -> Result<Vec<Worker<'s, B>>, AllocError>
    ensures { IfOk result (λ settled. AllZip (Settles notes.now) workers.entry.items settled.items) }
{
    let mut settled = Vec::with_capacity(alloc, workers.len())?;
    for mut worker in workers {
        worker.settle(alloc, notes);
        settled.push(worker)?;
    }
    Ok(settled)
}

/// The workers after a phase: each has seen what every other tells.
fn settle_all<'s, B: Naming>(
    alloc: Global,
    workers: Vec<Worker<'s, B>>,
) -> Result<Vec<Worker<'s, B>>, AllocError>
    ensures { IfOk result
        (λ settled. AllZip (Settles (notes_of workers.entry.items)) workers.entry.items settled.items) }
{
    let notes = notes_of(alloc, workers.as_slice())?;
    settled(alloc, notes.as_slice(), workers)
}

/// Plays a phase.
fn play_phase<'s, B: Naming + Send, R: Threads + Wait + Sync>(
    rt: &R,
    alloc: Global,
    shared: &'s Shared<B>,
    workers: Vec<Worker<'s, B>>,
    phase: &Phase,
    known: &mut BoundNames,
) -> Result<Vec<Worker<'s, B>>, PlayFault>
    ensures { IfOk result (λ after. IsPhase B.boot.limits B.boot.seats phase.now known.old workers.entry.items known.new after.items) }
{
    let seated = seat_all(rt, alloc, shared, workers, phase, known)?;
    let played = played_together(rt, alloc, phase, known, seated)?;
    bind_all(played.as_slice(), known)?;
    Ok(settle_all(alloc, played)?)
}

/// The workers of these names, none of which has played.
fn idle<'s, B: Naming>(
    alloc: Global,
    names: &IndexSet<Name>,
) -> Result<Vec<Worker<'s, B>>, PlayFault>
    ensures { IfOk result (λ idle. idle.items ≡ map unplayed names.now.keys) }
{
    let mut idle = Vec::new(alloc);
    for index in 0..names.len() {
        let Some(name) = names.get_index(index) else {
            return Err(PlayFault::Stopped);
        };
        idle.push(Worker::new(alloc, *name))?;
    }
    Ok(idle)
}

/// Plays the phases one after another.
fn play_phases<'s, B: Naming + Send, R: Threads + Wait + Sync>(
    rt: &R,
    alloc: Global,
    shared: &'s Shared<B>,
    script: &Script,
    workers: &IndexSet<Name>,
    known: &mut BoundNames,
) -> Result<Vec<Worker<'s, B>>, PlayFault>
    ensures { IfOk result (λ after. ArePhases B.boot.limits B.boot.seats script.now known.old
        (map unplayed workers.now.keys) known.new after.items) }
{
    let mut played = idle(alloc, workers)?;
    for phase in &script.phases {
        played = play_phase(rt, alloc, shared, played, phase, known)?;
    }
    Ok(played)
}

/// Adds what a worker leaves, and the pass of its seat.
fn add_left<B: Naming>(
    left: &mut Vec<Left>,
    passes: &mut Vec<Option<Pass<B>>>,
    worker: Worker<'_, B>,
) -> Result<(), AllocError>
    ensures left { OnOk result ((before : List Post) → AreLeft before left.old.items
        → AreLeft (before ++ worker.entry ∷ []) left.new.items) }
    ensures seen { OnOk result ((before : List Post) → AllZip (λ p pass. HasSeen pass p.events) before passes.old.items
        → AllZip (λ p pass. HasSeen pass p.events) (before ++ worker.entry ∷ []) passes.new.items) }
{
    let (own, pass) = worker.leave();
    left.push(own)?;
    passes.push(pass)?;
    Ok(())
}

/// What workers leave, and the passes of their seats.
fn part<B: Naming>(
    alloc: Global,
    workers: Vec<Worker<'_, B>>,
) -> Result<(Vec<Left>, Vec<Option<Pass<B>>>), AllocError>
    ensures left { IfOk result (λ parted. AreLeft workers.entry.items parted.0.items) }
    ensures seen { IfOk result (λ parted. AllZip (λ p pass. HasSeen pass p.events) workers.entry.items parted.1.items) }
{
    let mut left = Vec::new(alloc);
    let mut passes = Vec::new(alloc);
    for worker in workers {
        add_left(&mut left, &mut passes, worker)?;
    }
    Ok((left, passes))
}

/// Plays a script, and gives what its workers leave.
fn play_workers<B: Naming + Send, R: Threads + Wait + Sync>(
    rt: &R,
    alloc: Global,
    shared: &Shared<B>,
    script: &Script,
    workers: &IndexSet<Name>,
) -> Result<Answered<B>, PlayFault>
    ensures { IfOk result (λ answered. rules.IsAnswered B.boot.limits B.boot.seats script.now workers.now.keys
        answered.names answered.left.items answered.passes.items) }
{
    let mut names = BoundNames::start(alloc)?;
    let played = play_phases(rt, alloc, shared, script, workers, &mut names)?;
    let (left, passes) = part(alloc, played)?;
    Ok(Answered {
        left,
        passes,
        names,
    })
}

/// Whether the journal has no fewer events than each pass has seen, which it has in every run.
fn are_seen<B: Naming>(book: &Book<B>, passes: &[Option<Pass<B>>]) -> bool
    ensures { IsTrue result → AllByRecursion (AreSeen book.now.journal) passes.now }
{
    for pass in passes {
        if let Some(pass) = pass {
            if !book.has_seen(pass) {
                return false;
            }
        }
    }
    true
}

/// Whether the journal has no fewer events than each pass has seen, where there was no fault.
fn all_seen<B: Naming>(book: &Book<B>, answered: &Result<Answered<B>, PlayFault>) -> bool
    ensures { IsTrue result → IfOk answered.now (λ a. AllByRecursion (AreSeen book.now.journal) a.passes.items) }
{
    match answered {
        Ok(answered) => are_seen(book, answered.passes.as_slice()),
        Err(_) => true,
    }
}

/// Plays a script on a boot, closes it, and makes the output: what is told of the book is what stands in it once every
/// seat is gone. It is closed after a fault too, so the copies' memory is given back.
pub fn play_shared<B: Naming + Send, R: Threads + Wait + Sync>(
    rt: &R,
    alloc: Global,
    boot: Boot,
    script: &Script,
    workers: &IndexSet<Name>,
) -> Result<Played, PlayFault>
    requires { boot ≡ B.boot }
    ensures closing { IfOk result (λ played. IsClosing B.boot.limits played.events.items played.tables) }
    ensures shared { IfOk result (λ played. rules.IsSharedBy B.boot.limits B.boot.seats script.now workers.now.keys
        played.output.items played.events.items played.names (reads_kept played.reads.items)) }
{
    let shared = boot.open::<B>();
    let answered = play_workers(rt, alloc, &shared, script, workers);
    let book = shared.close();
    let seen = all_seen(&book, &answered);
    let closing = closing_of(rt, alloc, book);
    let Answered {
        left,
        passes: _,
        names,
    } = answered?;
    let Closing { events, tables } = closing?;
    if !seen {
        return Err(PlayFault::Stopped);
    }
    let Printed { output, reads } = told_of(alloc, workers, left, &names)?;
    Ok(Played {
        output,
        events,
        reads,
        tables,
        names,
    })
}

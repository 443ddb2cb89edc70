//! Which worker has which lines.
ghost use Rattle.std.specs.Prelude.{◌≡◌, true, IfOk, IfSome, OnOk, slice_get};
ghost use Rattle.std.specs.List.{list_any};
ghost use Rattle.std.specs.Str.{bytes_eq};
ghost use Rattle.indexmap.specs.IndexSet.{insert_key};
ghost use Rattle.script_rules.specs.Workers as rules;
ghost use Rattle.script_runner.specs.Shared as shared;
ghost use Rattle.script_runner.specs.Workers as spec;
ghost use Rattle.script_rules.specs.Workers.{lines_in, with_workers};

use call_text::{Phase, Script};
use indexmap::IndexSet;
use std::alloc::{AllocError, Global};
use text_words::Name;

/// The workers of a script.
#[derive(Drop)]
pub struct Workers {
    /// Their names, in the order of their first lines.
    pub names: IndexSet<Name>,
    /// Whether no phase has lines of two workers.
    pub take_turns: bool,
}

/// Whether the line at a place is a worker's.
pub fn is_of(phase: &Phase, place: usize, worker: &Name) -> bool
    ensures { IfSome (slice_get phase.now place) (λ line. result ≡ bytes_eq line.worker worker.now) }
{
    match phase.worker(place) {
        Some(other) => other.as_slice() == worker.as_slice(),
        None => true,
    }
}

/// Whether a line of a phase is a worker's.
pub fn takes_part(phase: &Phase, worker: &Name) -> bool
    ensures { result ≡ shared.takes_part worker.now phase.now }
{
    for place in 0..phase.len() {
        let is_of = is_of(phase, place, worker);
        if is_of {
            return true;
        }
    }
    false
}

/// Whether all lines of a phase are a worker's.
fn are_of(phase: &Phase, worker: &Name) -> bool
    ensures { result ≡ spec.are_of worker.now phase.now }
{
    for place in 0..phase.len() {
        let is_of = is_of(phase, place, worker);
        if !is_of {
            return false;
        }
    }
    true
}

/// Whether no two lines of a phase are of different workers.
fn is_of_one(phase: &Phase) -> bool
    ensures { result ≡ spec.is_of_one phase.now }
{
    match phase.worker(0) {
        Some(first) => are_of(phase, &first),
        None => true,
    }
}

/// Whether no phase has lines of two workers.
fn take_turns(phases: &[Phase]) -> bool
    ensures { result ≡ spec.take_turns phases.now }
{
    phases.iter().all(|phase| is_of_one(phase))
}

/// Adds the worker of a line, where the worker of the line before it is among them.
fn add_worker(
    workers: &mut IndexSet<Name>,
    last: Option<Name>,
    worker: Name,
) -> Result<(), AllocError>
    requires { IfSome last (λ w. list_any (bytes_eq w) workers.old.keys ≡ true) }
    ensures added { OnOk result (workers.new.keys ≡ insert_key bytes_eq workers.old.keys worker) }
    ensures known { OnOk result (list_any (bytes_eq worker) workers.new.keys ≡ true) }
{
    if last == Some(worker) {
        return Ok(());
    }
    workers.insert(worker)?;
    Ok(())
}

/// Adds the workers of a phase.
fn add_workers(workers: &mut IndexSet<Name>, phase: &Phase) -> Result<(), AllocError>
    ensures { OnOk result (workers.new.keys ≡ with_workers workers.old.keys phase.now) }
{
    let mut last = None;
    for place in 0..phase.len() {
        let Some(worker) = phase.worker(place) else {
            return Ok(());
        };
        add_worker(workers, last, worker)?;
        last = Some(worker);
    }
    Ok(())
}

/// The workers of a script.
pub fn workers_of(alloc: Global, script: &Script) -> Result<Workers, AllocError>
    ensures names { IfOk result (λ workers. workers.names.keys ≡ rules.workers_of (lines_in script.now)) }
    ensures turns { IfOk result (λ workers. workers.take_turns ≡ spec.take_turns script.now) }
{
    let mut names = IndexSet::new(alloc);
    for phase in &script.phases {
        add_workers(&mut names, phase)?;
    }
    Ok(Workers {
        names,
        take_turns: take_turns(script.phases.as_slice()),
    })
}

//! What the lines of a script print.
ghost use Rattle.std.specs.Prelude.{◌≡◌, ◌++◌, IfOk, IfSome, OnOk, flat_map, slice_get};
ghost use Rattle.script_rules.specs.Output.{text_of, told_text};
ghost use Rattle.script_rules.specs.Run.{Run};
ghost use Rattle.script_runner.specs.Reads.{reads_kept, reads_left};
ghost use Rattle.script_runner.specs.Shared.{left_text};
ghost use Rattle.script_runner.specs.Turns.{AreOwn};

use crate::answers::{Answers, Left};
use crate::faults::PlayFault;
use crate::names::BoundNames;
use crate::reads::Reads;
use indexmap::IndexSet;
use std::alloc::{AllocError, Global};
use text_words::{Name, put_name, put_number};

/// What a run prints, and the reads in it.
#[derive(Drop)]
pub struct Printed {
    /// The lines of the workers.
    pub output: Vec<u8>,
    /// The reads of each worker that was given a seat.
    pub reads: Vec<Reads>,
}

/// Adds the line of a worker that stands at this place among those that were told something.
fn put_line(
    out: &mut Vec<u8>,
    worker: &Name,
    answers: &Answers,
    place: usize,
    names: &BoundNames,
) -> Result<(), PlayFault>
    ensures { OnOk result (IfSome (slice_get answers.now.told place)
        (λ t. out.new.items ≡ out.old.items ++ told_text names.now worker.now t)) }
{
    let Some(number) = answers.number(place) else {
        return Err(PlayFault::Stopped);
    };
    put_name(out, worker)?;
    out.push(b' ')?;
    put_number(out, u64::from(number))?;
    out.extend_from_slice(b": ")?;
    answers.put(out, place, names)?;
    out.push(b'\n')?;
    Ok(())
}

/// Adds the lines of a worker.
fn put_worker(
    out: &mut Vec<u8>,
    worker: &Name,
    answers: &Answers,
    names: &BoundNames,
) -> Result<(), PlayFault>
    ensures { OnOk result (out.new.items ≡ out.old.items ++ flat_map (told_text names.now worker.now) answers.now.told) }
{
    for place in 0..answers.len() {
        put_line(out, worker, answers, place, names)?;
    }
    Ok(())
}

/// The lines of the workers, in the workers' order: for each its own lines in theirs.
fn output_of(
    alloc: Global,
    workers: &IndexSet<Name>,
    left: &[Left],
    names: &BoundNames,
) -> Result<Vec<u8>, PlayFault>
    ensures text { IfOk result (λ out. (r : Run) → AreOwn workers.now.keys left.now r → names.now ≡ r.names
        → out.items ≡ text_of r workers.now.keys) }
    ensures lines { IfOk result (λ out. out.items ≡ left_text names.now workers.now.keys left.now) }
{
    let mut out = Vec::new(alloc);
    for index in 0..workers.len() {
        let (Some(worker), Some(left)) = (workers.get_index(index), left.get(index)) else {
            return Err(PlayFault::Stopped);
        };
        put_worker(&mut out, worker, &left.answers, names)?;
    }
    Ok(out)
}

/// The reads of each worker that was given a seat.
fn reads_of(alloc: Global, left: Vec<Left>) -> Result<Vec<Reads>, AllocError>
    ensures { IfOk result (λ reads. reads_kept reads.items ≡ reads_left left.items) }
{
    let mut reads = Vec::with_capacity(alloc, left.len())?;
    for own in left {
        if let Some(own) = own.into_reads() {
            reads.push(own)?;
        }
    }
    Ok(reads)
}

/// What is told of what workers leave.
pub fn told_of(
    alloc: Global,
    workers: &IndexSet<Name>,
    left: Vec<Left>,
    names: &BoundNames,
) -> Result<Printed, PlayFault>
    ensures text { IfOk result (λ told. (r : Run) → AreOwn workers.now.keys left.items r → names.now ≡ r.names
        → told.output.items ≡ text_of r workers.now.keys) }
    ensures lines { IfOk result (λ told. told.output.items ≡ left_text names.now workers.now.keys left.items) }
    ensures reads { IfOk result (λ told. reads_kept told.reads.items ≡ reads_left left.items) }
{
    let output = output_of(alloc, workers, left.as_slice(), names)?;
    let reads = reads_of(alloc, left)?;
    Ok(Printed { output, reads })
}

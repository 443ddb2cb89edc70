//! A worker that plays its lines in order while others play theirs.
ghost use Rattle.std.specs.Prelude.{◌≡◌, ◌≤◌, ℕ, [], true, false, List, Option, Ok, Err, length, map, OnOk};
ghost use Rattle.std.specs.List.{list_all};
ghost use mathlib.Core.List.{IsPrefix};
ghost use Rattle.base.specs.declared.refusals.Refusal.{Refusal as RefusalValue};
ghost use Rattle.call_text.specs.declared.asking.Asked.TheVariants.{Read, Write};
ghost use Rattle.script_rules.specs.Lines as lines;
ghost use Rattle.script_runner.specs.Desks.{events_in, noted_in, seat_in};
ghost use Rattle.script_runner.specs.Shared as shared;
ghost use Rattle.script_runner.specs.Shared.{line_among, made_after, note_of, unplayed, wait_among, seeing, with_note, with_waiting, AreLearnt, IsAfter, IsPlayed, IsSeated, Plays, Settles, Sits};
ghost use Rattle.script_runner.specs.Turns.{idle, stand, waiting_in};
ghost use Rattle.script_runner.specs.Workers.{lines_of};

use crate::answers::{Answers, Left};
use crate::batches::{Batch, tell_made, tell_unseated};
use crate::faults::PlayFault;
use crate::names::{BoundNames, WorkerNames, object_in};
use crate::parts::{is_of, takes_part};
use crate::shared_desks::SharedDesk;
use base::Refusal;
use call_text::{Known, Line, Phase, Value, resolve_into};
use kernel_rules::{Call, Query, Reply};
use published_copy::{Naming, Note, Pass, Shared};
use std::alloc::{AllocError, Global};
use std::marker::Model;
use std::sync::Wait;
use text_words::Name;

/// A worker's seat, or what refused it one when it asked last: nothing where its name is no object's.
pub type Seating<'s, B> = Result<SharedDesk<'s, B>, Option<Refusal>>;

/// A seat for what a worker's name is bound to, where that is an object.
fn seated<'s, B: Naming, R: Wait>(
    rt: &R,
    shared: &'s Shared<B>,
    bound: &Option<Value>,
) -> Seating<'s, B>
    ensures given { (refusal : Option RefusalValue) → IsSeated B.boot.limits B.boot.seats bound.now (Err refusal) (seat_in result) }
    ensures noted { noted_in result ≡ events_in result }
{
    match object_in(bound) {
        Some(thread) => SharedDesk::open(rt, shared, thread),
        None => Err(None),
    }
}

/// A worker that has a seat learns notes.
fn learn_notes<B: Naming>(seating: &mut Seating<'_, B>, notes: &[Note<B>])
    ensures seat { seat_in seating.new ≡ seat_in seating.old }
    ensures seen { IsPrefix (events_in seating.old) (events_in seating.new) }
    ensures noted { IsPrefix (noted_in seating.old) (noted_in seating.new) }
    ensures learnt { OnOk (seat_in seating.old) (AreLearnt notes.now (noted_in seating.new)
        × IsPrefix (noted_in seating.new) (events_in seating.new)) }
{
    if let Ok(desk) = seating {
        desk.learn(notes);
    }
}

/// What a worker's lines bound and were told, and those that wait.
#[derive(Drop)]
struct Hand {
    alloc: Global,
    /// What its lines bound in this phase.
    own: BoundNames,
    /// What its lines were told.
    answers: Answers,
    /// The lines that wait for their batch.
    batch: Batch,
    /// Where the call of a line is written. (A call is large, and so is a reply.)
    call: Call,
    /// Where the reply to a line is put.
    reply: Reply,
}

impl Hand {
    /// Asks the query of a line.
    fn ask<B: Naming>(
        &mut self,
        desk: &mut SharedDesk<'_, B>,
        number: u32,
        query: &Query,
    ) -> Result<(), PlayFault>
        ensures asked { OnOk result ((binds : Option (List ℕ)) → IsAfter
            (made_after B.boot.limits desk.old.thread
            (with_waiting (stand desk.old.events self.old.own [] self.old.answers) number binds (Ok (Read query.now))))
            (with_note desk.old.noted (stand desk.old.events self.old.own [] self.old.answers))
            (with_note desk.new.noted (stand desk.new.events self.new.own [] self.new.answers))) }
        ensures thread { OnOk result (desk.new.thread ≡ desk.old.thread) }
        ensures batch { self.new.batch ≡ self.old.batch }
    {
        let receipt = desk.ask(query)?;
        Ok(
            self.answers
                .tell_read(number, query, receipt.length, &receipt.reply)?,
        )
    }

    /// Makes the call that is written, of a line that binds this name.
    fn submit<B: Naming, R: Wait>(
        &mut self,
        rt: &R,
        desk: &mut SharedDesk<'_, B>,
        number: u32,
        binds: Option<Name>,
    ) -> Result<(), PlayFault>
        ensures asked { OnOk result (IsAfter
            (made_after B.boot.limits desk.old.thread
            (with_waiting (stand desk.old.events self.old.own [] self.old.answers) number binds (Ok (Write self.old.call))))
            (with_note desk.old.noted (stand desk.old.events self.old.own [] self.old.answers))
            (with_note desk.new.noted (stand desk.new.events self.new.own [] self.new.answers))) }
        ensures thread { OnOk result (desk.new.thread ≡ desk.old.thread) }
        ensures batch { self.new.batch ≡ self.old.batch }
    {
        desk.submit(rt, &self.call, &mut self.reply)?;
        Ok(tell_made(&mut self.own, &mut self.answers, number, binds, &self.reply)?)
    }

    /// Asks a line that is no batch's.
    fn play_single<B: Naming, R: Wait>(
        &mut self,
        rt: &R,
        desk: &mut SharedDesk<'_, B>,
        line: &Line<'_>,
        known: &BoundNames,
    ) -> Result<(), PlayFault>
        ensures asked { OnOk result (IsAfter
            (made_after B.boot.limits desk.old.thread
            (wait_among known.now (stand desk.old.events self.old.own [] self.old.answers) line.now))
            (with_note desk.old.noted (stand desk.old.events self.old.own [] self.old.answers))
            (with_note desk.new.noted (stand desk.new.events self.new.own [] self.new.answers))) }
        ensures thread { OnOk result (desk.new.thread ≡ desk.old.thread) }
        ensures batch { self.new.batch ≡ self.old.batch }
    {
        let names = WorkerNames {
            own: &self.own,
            earlier: known,
        };
        match resolve_into(&line.call, &names, &mut self.call) {
            Err(name) => Ok(self.answers.tell_unbound(line.number, &name)?),
            Ok(Some(query)) => self.ask(desk, line.number, &query),
            Ok(None) => self.submit(rt, desk, line.number, line.binds),
        }
    }

    /// Asks the lines that wait, which are a batch.
    fn submit_batch<B: Naming, R: Wait>(
        &mut self,
        rt: &R,
        desk: &mut SharedDesk<'_, B>,
    ) -> Result<(), PlayFault>
        ensures asked { OnOk result (list_all (λ w. lines.is_no_read w.asks) (map waiting_in self.old.batch.lines.items) ≡ true
            → IsAfter (λ events. idle (lines.asked B.boot.limits desk.old.thread
            (seeing events (stand desk.old.events self.old.own self.old.batch.lines.items self.old.answers))))
            (with_note desk.old.noted (stand desk.old.events self.old.own self.old.batch.lines.items self.old.answers))
            (with_note desk.new.noted (stand desk.new.events self.new.own [] self.new.answers))) }
        ensures thread { OnOk result (desk.new.thread ≡ desk.old.thread) }
    {
        self.batch.put_calls()?;
        let replies = desk.submit_all(rt, self.alloc, self.batch.calls.as_slice())?;
        Ok(self.batch.tell(replies, &mut self.own, &mut self.answers)?)
    }

    /// Asks the lines that wait, of which there are several, or they are refused where they are no batch.
    fn make<B: Naming, R: Wait>(
        &mut self,
        rt: &R,
        desk: &mut SharedDesk<'_, B>,
    ) -> Result<(), PlayFault>
        requires { 2 ≤ length self.old.batch.lines.items }
        ensures asked { OnOk result (IsAfter
            (made_after B.boot.limits desk.old.thread
            (stand desk.old.events self.old.own self.old.batch.lines.items self.old.answers))
            (with_note desk.old.noted (stand desk.old.events self.old.own self.old.batch.lines.items self.old.answers))
            (with_note desk.new.noted (stand desk.new.events self.new.own [] self.new.answers))) }
        ensures thread { OnOk result (desk.new.thread ≡ desk.old.thread) }
    {
        if self.batch.is_batch() {
            self.submit_batch(rt, desk)
        } else {
            Ok(self.batch.refuse(Refusal::BadBatch, &mut self.answers)?)
        }
    }

    /// A line waits for its batch, which is asked at its last line. A name that a line binds is not known before that.
    fn play_in_batch<B: Naming, R: Wait>(
        &mut self,
        rt: &R,
        desk: &mut SharedDesk<'_, B>,
        line: &Line<'_>,
        known: &BoundNames,
    ) -> Result<(), PlayFault>
        requires { line.now.more ≡ false → 1 ≤ length self.old.batch.lines.items }
        ensures line { OnOk result (IsAfter
            (line_among B.boot.limits known.now (Ok desk.old.thread)
            (stand desk.old.events self.old.own self.old.batch.lines.items self.old.answers) line.now)
            (with_note desk.old.noted (stand desk.old.events self.old.own self.old.batch.lines.items self.old.answers))
            (with_note desk.new.noted (stand desk.new.events self.new.own self.new.batch.lines.items self.new.answers))) }
        ensures thread { OnOk result (desk.new.thread ≡ desk.old.thread) }
    {
        let names = WorkerNames {
            own: &self.own,
            earlier: known,
        };
        self.batch.gather(line, &names)?;
        if line.more {
            return Ok(());
        }
        self.make(rt, desk)?;
        self.batch.clear();
        Ok(())
    }

    /// Plays a line of a worker that has a seat.
    fn play_seated<B: Naming, R: Wait>(
        &mut self,
        rt: &R,
        desk: &mut SharedDesk<'_, B>,
        line: &Line<'_>,
        known: &BoundNames,
    ) -> Result<(), PlayFault>
        ensures line { OnOk result (IsAfter
            (line_among B.boot.limits known.now (Ok desk.old.thread)
            (stand desk.old.events self.old.own self.old.batch.lines.items self.old.answers) line.now)
            (with_note desk.old.noted (stand desk.old.events self.old.own self.old.batch.lines.items self.old.answers))
            (with_note desk.new.noted (stand desk.new.events self.new.own self.new.batch.lines.items self.new.answers))) }
        ensures thread { OnOk result (desk.new.thread ≡ desk.old.thread) }
    {
        if line.more || !self.batch.is_empty() {
            self.play_in_batch(rt, desk, line, known)
        } else {
            self.play_single(rt, desk, line, known)
        }
    }

    /// Plays a line of a worker that has this seat, or was refused one so.
    fn play_line<B: Naming, R: Wait>(
        &mut self,
        rt: &R,
        seating: &mut Seating<'_, B>,
        line: &Line<'_>,
        known: &BoundNames,
    ) -> Result<(), PlayFault>
        ensures line { OnOk result (IsAfter
            (line_among B.boot.limits known.now (seat_in seating.old)
            (stand (events_in seating.old) self.old.own self.old.batch.lines.items self.old.answers) line.now)
            (with_note (noted_in seating.old) (stand (events_in seating.old) self.old.own self.old.batch.lines.items self.old.answers))
            (with_note (noted_in seating.new) (stand (events_in seating.new) self.new.own self.new.batch.lines.items self.new.answers))) }
        ensures seat { OnOk result (seat_in seating.new ≡ seat_in seating.old) }
    {
        match seating {
            Ok(desk) => self.play_seated(rt, desk, line, known),
            Err(refusal) => Ok(tell_unseated(refusal, line, &mut self.answers)?),
        }
    }

    /// Plays the lines of a phase that are its worker's, with the names of earlier phases.
    fn play_lines<B: Naming, R: Wait>(
        &mut self,
        rt: &R,
        seating: &mut Seating<'_, B>,
        worker: &Name,
        phase: &Phase,
        known: &BoundNames,
    ) -> Result<(), PlayFault>
        ensures played { OnOk result (IsPlayed B.boot.limits known.now (seat_in seating.old)
            (with_note (noted_in seating.old) (stand (events_in seating.old) self.old.own [] self.old.answers)) (lines_of worker.now phase.now)
            (with_note (noted_in seating.new) (stand (events_in seating.new) self.new.own self.new.batch.lines.items self.new.answers))) }
        ensures seat { OnOk result (seat_in seating.new ≡ seat_in seating.old) }
    {
        self.batch.clear();
        for place in 0..phase.len() {
            if !is_of(phase, place, worker) {
                continue;
            }
            let Some(line) = phase.line(place) else {
                return Err(PlayFault::Stopped);
            };
            self.play_line(rt, seating, &line, known)?;
        }
        Ok(())
    }
}

/// A worker. A contract sees its name, its seat or what refused it one, what it has seen, what its note tells the others, and what
/// its lines bound, were told and read.
#[derive(Drop)]
pub struct Worker<'s, B: Naming> {
    name: Name,
    seating: Seating<'s, B>,
    hand: Hand,
}

impl<'s, B: Naming> Model for Worker<'s, B> {
    ghost use Rattle.script_runner.specs.Desks.{events_in, noted_in, seat_in};
    ghost use Rattle.script_runner.specs.Shared.{Post};

    ghost Value = { Post };

    ghost view = { λ w. record {
      worker = w.name;
      seat = seat_in w.seating;
      events = events_in w.seating;
      noted = noted_in w.seating;
      names = w.hand.own;
      told = w.hand.answers.told;
      reads = w.hand.answers.reads;
    } };
}

impl<'s, B: Naming> Worker<'s, B> {
    /// A worker that has played nothing.
    pub fn new(alloc: Global, name: Name) -> Worker<'s, B>
        ensures { result ≡ unplayed name }
    {
        Worker {
            name,
            seating: Err(None),
            hand: Hand {
                alloc,
                own: BoundNames::none(alloc),
                answers: Answers::none(alloc),
                batch: Batch::none(alloc),
                call: Call::CatCreate,
                reply: Reply::Done,
            },
        }
    }

    /// Before a phase in which it has lines it is given a seat, where it has none and its name is bound to an object.
    pub fn sit<R: Wait>(&mut self, rt: &R, shared: &'s Shared<B>, phase: &Phase, known: &BoundNames)
        ensures { Sits B.boot.limits B.boot.seats known.now phase.now self.old self.new }
    {
        if self.seating.is_ok() || !takes_part(phase, &self.name) {
            return;
        }
        let bound = known.value_of(&self.name);
        self.seating = seated(rt, shared, &bound);
    }

    /// Plays its lines of a phase.
    pub fn play<R: Wait>(
        &mut self,
        rt: &R,
        phase: &Phase,
        known: &BoundNames,
    ) -> Result<(), PlayFault>
        ensures { OnOk result (Plays B.boot.limits known.now phase.now self.old self.new) }
    {
        let hand = &mut self.hand;
        hand.play_lines(rt, &mut self.seating, &self.name, phase, known)
    }

    /// What it tells the others, where it has a seat.
    pub fn note(&self) -> Option<Note<B>>
        ensures { result ≡ note_of self.now }
    {
        match &self.seating {
            Ok(desk) => Some(desk.note()),
            Err(_) => None,
        }
    }

    /// What its lines bound in this phase.
    pub fn names(&self) -> &BoundNames
        ensures { result.now ≡ self.now.names }
    {
        &self.hand.own
    }

    /// After a phase: it has seen what the notes tell, and what its lines bound is no longer its own.
    pub fn settle(&mut self, alloc: Global, notes: &[Note<B>])
        ensures { Settles notes.now self.old self.new }
    {
        learn_notes(&mut self.seating, notes);
        self.hand.own = BoundNames::none(alloc);
    }

    /// What it leaves, and the pass of its seat, where it has one.
    pub fn leave(self) -> (Left, Option<Pass<B>>)
        ensures left { shared.IsLeftBy self.entry result.0 }
        ensures seen { shared.HasSeen result.1 self.entry.events }
    {
        let Worker {
            name: _,
            seating,
            hand,
        } = self;
        let Hand {
            alloc: _,
            own,
            answers,
            batch,
            call: _,
            reply: _,
        } = hand;
        drop(own);
        drop(batch);
        match seating {
            Ok(desk) => {
                let pass = desk.into_pass();
                let left = Left {
                    thread: Some(pass.thread()),
                    answers,
                };
                (left, Some(pass))
            }
            Err(_) => {
                let left = Left {
                    thread: None,
                    answers,
                };
                (left, None)
            }
        }
    }
}

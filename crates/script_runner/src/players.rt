//! A kernel, with what its workers need at their turns.
ghost use Rattle.std.specs.Prelude.{◌≡◌, ◌≤◌, ◌++◌, [], ◌∷◌, true, false, None, Ok, map, length, OnOk};
ghost use Rattle.std.specs.List.{list_all};
ghost use Rattle.kernel_rules.specs.History.{state_of};
ghost use Rattle.kernel_rules.specs.Step.{answer, query_answer};
ghost use Rattle.script_rules.specs.Asking.{with_calls};
ghost use Rattle.script_rules.specs.Lines as rules;
ghost use Rattle.script_rules.specs.Lines.{asked, is_no_read, line_by, lines_by, seen, told, wait};
ghost use Rattle.script_rules.specs.Names.{made_by, with_name};
ghost use Rattle.script_runner.specs.Turns.{idle, stand, waiting_in};

use crate::answers::Answers;
use crate::batches::{Batch, tell_made, tell_unseated};
use crate::desks::SoleDesk;
use crate::faults::PlayFault;
use crate::names::BoundNames;
use base::{NoMemory, ObjectId, Refusal};
use call_text::{Line, Phase, resolve_into};
use kernel_rules::{Call, Query, Reply};
use published_copy::Naming;
use text_words::Name;

/// The kernel of a run whose workers take turns, the names that are known, and the lines that wait for their batch.
#[derive(Drop)]
pub struct Player<B: Naming> {
    /// The kernel.
    pub desk: SoleDesk<B>,
    /// The names.
    pub names: BoundNames,
    /// The lines that wait.
    pub batch: Batch,
    /// Where the call of a line is written. (A call is large, and so is a reply.)
    pub call: Call,
    /// Where the reply to a line is put.
    pub reply: Reply,
}

impl<B: Naming> Player<B> {
    /// A thread asks the query of a line.
    fn ask(
        &mut self,
        thread: ObjectId,
        number: u32,
        query: &Query,
        answers: &mut Answers,
    ) -> Result<(), NoMemory>
        ensures told { OnOk result (answers.new.told ≡ answers.old.told
            ++ told number (Ok (query_answer (state_of B.boot.limits self.old.desk.journal) thread query.now)) ∷ []) }
        ensures reads { OnOk result (answers.new.reads ≡ answers.old.reads
            ++ seen (length self.old.desk.journal) query.now
            (query_answer (state_of B.boot.limits self.old.desk.journal) thread query.now) ∷ []) }
        ensures desk { self.new.desk ≡ self.old.desk }
        ensures names { self.new.names ≡ self.old.names }
        ensures batch { self.new.batch ≡ self.old.batch }
    {
        let length = self.desk.ask(thread, query, &mut self.reply);
        Ok(answers.tell_read(number, query, length, &self.reply)?)
    }

    /// A thread makes the call that is written, of a line that binds this name.
    fn submit(
        &mut self,
        thread: ObjectId,
        number: u32,
        binds: Option<Name>,
        answers: &mut Answers,
    ) -> Result<(), NoMemory>
        ensures journal { OnOk result (self.new.desk.journal
            ≡ with_calls B.boot.limits thread self.old.desk.journal (self.old.call ∷ [])) }
        ensures names { OnOk result (self.new.names ≡ with_name self.old.names binds
            (made_by (answer (state_of B.boot.limits self.old.desk.journal) thread self.old.call))) }
        ensures told { OnOk result (answers.new.told ≡ answers.old.told
            ++ told number (Ok (answer (state_of B.boot.limits self.old.desk.journal) thread self.old.call)) ∷ []) }
        ensures reads { OnOk result (answers.new.reads ≡ answers.old.reads) }
        ensures seated { self.new.desk.seated ≡ self.old.desk.seated }
        ensures batch { self.new.batch ≡ self.old.batch }
    {
        self.desk.submit(thread, &self.call, &mut self.reply)?;
        Ok(tell_made(&mut self.names, answers, number, binds, &self.reply)?)
    }

    /// A thread asks a line that is no batch's.
    fn play_single(
        &mut self,
        thread: ObjectId,
        line: &Line<'_>,
        answers: &mut Answers,
    ) -> Result<(), NoMemory>
        ensures stands { OnOk result (stand self.new.desk.journal self.new.names [] answers.new
            ≡ rules.make B.boot.limits thread
            (wait (stand self.old.desk.journal self.old.names [] answers.old) line.now)) }
        ensures seated { self.new.desk.seated ≡ self.old.desk.seated }
        ensures batch { self.new.batch ≡ self.old.batch }
    {
        match resolve_into(&line.call, &self.names, &mut self.call) {
            Err(name) => Ok(answers.tell_unbound(line.number, &name)?),
            Ok(Some(query)) => Ok(self.ask(thread, line.number, &query, answers)?),
            Ok(None) => Ok(self.submit(thread, line.number, line.binds, answers)?),
        }
    }

    /// A thread asks the lines that wait, which are a batch.
    fn submit_batch(&mut self, thread: ObjectId, answers: &mut Answers) -> Result<(), NoMemory>
        ensures stands { OnOk result (list_all (λ w. is_no_read w.asks) (map waiting_in self.old.batch.lines.items) ≡ true
            → stand self.new.desk.journal self.new.names [] answers.new
            ≡ idle (asked B.boot.limits thread
            (stand self.old.desk.journal self.old.names self.old.batch.lines.items answers.old))) }
        ensures seated { self.new.desk.seated ≡ self.old.desk.seated }
    {
        self.batch.put_calls()?;
        let replies = self.desk.submit_all(thread, self.batch.calls.as_slice())?;
        Ok(self.batch.tell(replies, &mut self.names, answers)?)
    }

    /// A thread asks the lines that wait, of which there are several, or they are refused where they are no batch.
    fn make(&mut self, thread: ObjectId, answers: &mut Answers) -> Result<(), NoMemory>
        requires { 2 ≤ length self.old.batch.lines.items }
        ensures stands { OnOk result (stand self.new.desk.journal self.new.names [] answers.new
            ≡ rules.make B.boot.limits thread
            (stand self.old.desk.journal self.old.names self.old.batch.lines.items answers.old)) }
        ensures seated { self.new.desk.seated ≡ self.old.desk.seated }
    {
        if self.batch.is_batch() {
            Ok(self.submit_batch(thread, answers)?)
        } else {
            Ok(self.batch.refuse(Refusal::BadBatch, answers)?)
        }
    }

    /// A line waits for its batch, which a thread asks at its last line.
    fn play_in_batch(
        &mut self,
        thread: ObjectId,
        line: &Line<'_>,
        answers: &mut Answers,
    ) -> Result<(), NoMemory>
        requires { line.now.more ≡ false → 1 ≤ length self.old.batch.lines.items }
        ensures stands { OnOk result (stand self.new.desk.journal self.new.names self.new.batch.lines.items answers.new
            ≡ line_by B.boot.limits (Ok thread)
            (stand self.old.desk.journal self.old.names self.old.batch.lines.items answers.old) line.now) }
        ensures seated { self.new.desk.seated ≡ self.old.desk.seated }
    {
        self.batch.gather(line, &self.names)?;
        if line.more {
            return Ok(());
        }
        self.make(thread, answers)?;
        self.batch.clear();
        Ok(())
    }

    /// Plays a line of the worker of a thread.
    fn play_seated(
        &mut self,
        thread: ObjectId,
        line: &Line<'_>,
        answers: &mut Answers,
    ) -> Result<(), NoMemory>
        ensures stands { OnOk result (stand self.new.desk.journal self.new.names self.new.batch.lines.items answers.new
            ≡ line_by B.boot.limits (Ok thread)
            (stand self.old.desk.journal self.old.names self.old.batch.lines.items answers.old) line.now) }
        ensures seated { self.new.desk.seated ≡ self.old.desk.seated }
    {
        if line.more || !self.batch.is_empty() {
            Ok(self.play_in_batch(thread, line, answers)?)
        } else {
            Ok(self.play_single(thread, line, answers)?)
        }
    }

    /// Plays a line of a worker that has this seat, or was refused one so.
    fn play_line(
        &mut self,
        seat: &Result<ObjectId, Option<Refusal>>,
        line: &Line<'_>,
        answers: &mut Answers,
    ) -> Result<(), NoMemory>
        ensures stands { OnOk result (stand self.new.desk.journal self.new.names self.new.batch.lines.items answers.new
            ≡ line_by B.boot.limits seat.now
            (stand self.old.desk.journal self.old.names self.old.batch.lines.items answers.old) line.now) }
        ensures seated { self.new.desk.seated ≡ self.old.desk.seated }
    {
        match seat {
            Ok(thread) => Ok(self.play_seated(*thread, line, answers)?),
            Err(refusal) => Ok(tell_unseated(refusal, line, answers)?),
        }
    }

    /// Plays the lines of a phase for the worker that has this seat, or was refused one so.
    pub fn play_lines(
        &mut self,
        seat: &Result<ObjectId, Option<Refusal>>,
        phase: &Phase,
        answers: &mut Answers,
    ) -> Result<(), PlayFault>
        ensures stands { OnOk result (stand self.new.desk.journal self.new.names self.new.batch.lines.items answers.new
            ≡ lines_by B.boot.limits seat.now
            (stand self.old.desk.journal self.old.names [] answers.old) phase.now) }
        ensures seated { self.new.desk.seated ≡ self.old.desk.seated }
    {
        self.batch.lines.clear();
        for place in 0..phase.len() {
            let Some(line) = phase.line(place) else {
                return Err(PlayFault::Stopped);
            };
            self.play_line(seat, &line, answers)?;
        }
        Ok(())
    }
}

//! Where a dialogue stands.
ghost use Rattle.std.specs.Prelude.{◌≡◌, Some, IfOk, OnErr, OnOk};
ghost use Rattle.std.specs.Option.{option_copied};
ghost use Rattle.call_text.specs.Known.{value_of};
ghost use Rattle.plain_state.specs.StateOf.{state_of};
ghost use Rattle.try_text.specs.Standing.{start, question, reply_to, made_by, state_after};
ghost use Rattle.try_text.specs.Standing.{after_question, after_kept, after_all, first_line};
ghost use Rattle.try_text.specs.Takes.{rebound, checked};

use crate::tried_lines::answers::LineAnswer;
use crate::tried_lines::kept::{TriedLine, first_line};
use crate::tried_lines::questions::Question;
use base::{Kind, Limits, Meter, NoMemory};
use call_text::{Asked, Known, Line, NameList, Named, Script, Value, resolve, start_names};
use kernel_calls::{ask, step};
use kernel_rules::{Mapping, Reply};
use plain_state::PlainState;
use std::alloc::Global;
use std::marker::Model;
use text_words::Name;

/// Where a dialogue stands: the state of its kernel, and the names that are known.
#[derive(Drop)]
pub struct Standing {
    state: PlainState,
    names: Vec<Named>,
}

impl Model for Standing {
    ghost use Rattle.plain_state.specs.StateOf.{state_of};
    ghost use Rattle.try_text.specs.Stands.{Stands};

    ghost Value = { Stands };

    ghost view = { λ s. record { state = state_of s.state; names = s.names.items } };
}

/// What a call made that was answered so.
pub fn made_by(reply: &Reply) -> Option<Value>
    ensures { result ≡ made_by reply.now }
{
    match reply {
        Reply::Category(category) => Some(Value::Category(*category)),
        Reply::Object(id) => Some(Value::Object(*id)),
        _ => None,
    }
}

/// Asks, and answers the rules' reply. An `Err`, which is want of memory, changes nothing.
fn put_question(
    state: &mut PlainState,
    question: &Question,
    meter: &mut Meter,
) -> Result<Reply, NoMemory>
    ensures reply { IfOk result (λ reply. reply ≡ reply_to (state_of state.old) question.now) }
    ensures state { OnOk result (state_of state.new ≡ state_after (state_of state.old) question.now) }
    ensures err { OnErr result (state_of state.new ≡ state_of state.old) }
{
    match &question.asked {
        Asked::Write(call) => step(state, question.thread, call, meter),
        Asked::Read(query) => Ok(ask(state, question.thread, query, meter)),
    }
}

impl Standing {
    /// Where a dialogue stands before its first line. The error is want of memory, where the limits are in range.
    pub fn start(alloc: Global, limits: &Limits) -> Result<Standing, NoMemory>
        ensures { IfOk result (λ made. made ≡ start limits.now) }
    {
        let Ok(state) = PlainState::boot(alloc, limits) else {
            return Err(NoMemory);
        };
        let names = Vec::from_slice(alloc, &start_names())?;
        Ok(Standing { state, names })
    }

    /// The state of its kernel.
    pub fn state(&self) -> &PlainState
        ensures { state_of result.now ≡ self.now.state }
    {
        &self.state
    }

    /// The names that are known, to be looked up.
    pub fn names(&self) -> NameList<'_>
        ensures { result.named.now ≡ self.now.names }
    {
        NameList {
            named: self.names.as_slice(),
        }
    }

    /// What a line asks, or its first name that isn't known, or known as the other kind.
    pub fn question(&self, line: &Line<'_>) -> Result<Question, Name>
        ensures { result ≡ question self.now.names line.now }
    {
        let names = self.names();
        let bound = names.value_of(&line.worker);
        let Some(Value::Object(thread)) = &bound else {
            return Err(line.worker);
        };
        match resolve(&line.call, &names) {
            Ok(asked) => Ok(Question {
                thread: *thread,
                asked,
            }),
            Err(name) => Err(name),
        }
    }

    /// The name, where it is known already.
    fn rebound(&self, binds: Option<Name>) -> Option<Name>
        ensures { result ≡ rebound binds self.now.names }
    {
        let Some(name) = binds else {
            return None;
        };
        match self.names().value_of(&name) {
            Some(_) => Some(name),
            None => None,
        }
    }

    /// What the line of a script asks, or why it is not asked.
    pub fn check(&self, script: &Script) -> Result<Question, LineAnswer>
        ensures { result ≡ checked self.now (first_line script.now) }
    {
        let Some(line) = first_line(script) else {
            return Err(LineAnswer::Nothing);
        };
        if let Some(name) = self.rebound(line.binds) {
            return Err(LineAnswer::Rebound(name));
        }
        match self.question(&line) {
            Err(name) => Err(LineAnswer::Unbound(name)),
            Ok(question) => {
                if self.state.is_live_kind(Kind::Thread, question.thread) {
                    Ok(question)
                } else {
                    Err(LineAnswer::NoThread(line.worker))
                }
            }
        }
    }

    /// Asks, answers the rules' reply, and binds the name, where there is one, to what was made. An `Err`, which is want
    /// of memory, changes nothing.
    pub fn answer(
        &mut self,
        binds: &Option<Name>,
        question: &Question,
        meter: &mut Meter,
    ) -> Result<Reply, NoMemory>
        ensures reply { IfOk result (λ reply. reply ≡ reply_to self.old.state question.now) }
        ensures ok { OnOk result (self.new ≡ after_question self.old binds.now question.now) }
        ensures err { OnErr result (self.new ≡ self.old) }
    {
        self.names.reserve(1)?;
        let reply = put_question(&mut self.state, question, meter)?;
        if let Some(name) = binds {
            if let Some(value) = made_by(&reply) {
                self.names.push_reserved(Named { name: *name, value });
            }
        }
        Ok(reply)
    }

    /// Asks a kept line again. An `Err` is want of memory.
    fn replay(&mut self, kept: &TriedLine, meter: &mut Meter) -> Result<(), NoMemory>
        ensures { OnOk result (self.new ≡ after_kept self.old kept.now) }
    {
        // (a type that a reply has, which the proof names)
        let _mapping: Option<Mapping> = None;
        let Some(line) = kept.line() else {
            return Ok(());
        };
        let Ok(question) = self.question(&line) else {
            return Ok(());
        };
        self.answer(&kept.binds, &question, meter)?;
        Ok(())
    }

    /// Asks kept lines again, one after another. An `Err` is want of memory.
    fn replay_all(&mut self, kept: &[TriedLine], meter: &mut Meter) -> Result<(), NoMemory>
        ensures { OnOk result (self.new ≡ after_all self.old kept.now) }
    {
        for one in kept {
            self.replay(one, meter)?;
        }
        Ok(())
    }

    /// Where a dialogue of these lines stands. The error is want of memory, where the limits are in range.
    pub fn after(alloc: Global, limits: &Limits, kept: &[TriedLine]) -> Result<Standing, NoMemory>
        ensures { IfOk result (λ made. made ≡ after_all (start limits.now) kept.now) }
    {
        let mut meter = Meter::new(alloc)?;
        let mut made = Standing::start(alloc, limits)?;
        made.replay_all(kept, &mut meter)?;
        Ok(made)
    }
}

//! Batches that a worker gathers before it submits them.
ghost use Rattle.std.specs.Prelude.{◌≡◌, ◌++◌, ◌+◌, ◌≤◌, [], ◌∷◌, List, Ok, true, false, map, length, OnOk};
ghost use Rattle.std.specs.List.{list_all};
ghost use Rattle.kernel_rules.specs.Events.{Event};
ghost use Rattle.call_text.specs.declared.known_names.Named.{Named as NamedValue};
ghost use Rattle.script_rules.specs.Lines as rules;
ghost use Rattle.script_rules.specs.Lines.{are_batch, calls_of, refuse_all, told, unseated};
ghost use Rattle.script_rules.specs.Names as known;
ghost use Rattle.script_rules.specs.Names.{with_name};
ghost use Rattle.script_runner.specs.Turns.{stand, tell_with, waiting_for, waiting_in};

use crate::answers::Answers;
use crate::names::BoundNames;
use base::{NoMemory, Refusal};
use call_text::{Asked, Known, Line, Named, Value, resolve};
use kernel_rules::{Call, Reply};
use std::alloc::{AllocError, Global};
use text_words::Name;

/// A line that waits for its batch.
#[derive(Clone, Copy)]
pub struct Gathered {
    /// The line's number in the script.
    pub number: u32,
    /// The name that is bound to what its call makes.
    pub binds: Option<Name>,
    /// What it asks, or the first name in it that is not known.
    pub asks: Result<Asked, Name>,
}

/// The lines of a batch so far, and where their calls are put.
#[derive(Drop)]
pub struct Batch {
    /// The lines.
    pub lines: Vec<Gathered>,
    /// The calls.
    pub calls: Vec<Call>,
}

/// Whether a line asks no query.
fn is_no_read(asks: &Result<Asked, Name>) -> bool
    ensures { result ≡ rules.is_no_read asks.now }
{
    match asks {
        Ok(Asked::Read(_)) => false,
        _ => true,
    }
}

/// Whether no line asks a query.
fn have_no_read(lines: &[Gathered]) -> bool
    ensures { result ≡ list_all (λ x. rules.is_no_read x.asks) lines.now }
{
    lines.iter().all(|line| is_no_read(&line.asks))
}

/// Puts the calls of lines after others.
fn put_calls(calls: &mut Vec<Call>, lines: &[Gathered]) -> Result<(), AllocError>
    ensures { OnOk result (calls.new.items ≡ calls.old.items ++ calls_of (map waiting_in lines.now)) }
{
    for line in lines {
        if let Ok(Asked::Write(call)) = &line.asks {
            calls.push(*call)?;
        }
    }
    Ok(())
}

/// What a call made that was answered so.
fn made_by(reply: &Reply) -> Option<Value>
    ensures { result ≡ known.made_by reply.now }
{
    match reply {
        Reply::Category(category) => Some(Value::Category(*category)),
        Reply::Object(id) => Some(Value::Object(*id)),
        _ => None,
    }
}

/// Binds the name of a line whose call was answered so, if it binds one and something was made.
fn bind(names: &mut BoundNames, binds: Option<Name>, reply: &Reply) -> Result<(), AllocError>
    ensures { OnOk result (names.new ≡ with_name names.old binds (known.made_by reply.now)) }
{
    if let (Some(name), Some(value)) = (binds, made_by(reply)) {
        names.bind(&Named { name, value })?;
    }
    Ok(())
}

/// A line, whose call was answered so, is told that, and binds its name.
pub fn tell_made(
    names: &mut BoundNames,
    answers: &mut Answers,
    number: u32,
    binds: Option<Name>,
    reply: &Reply,
) -> Result<(), NoMemory>
    ensures names { OnOk result (names.new ≡ with_name names.old binds (known.made_by reply.now)) }
    ensures told { OnOk result (answers.new.told ≡ answers.old.told ++ told number (Ok reply.now) ∷ []) }
    ensures reads { OnOk result (answers.new.reads ≡ answers.old.reads) }
{
    bind(names, binds, reply)?;
    Ok(answers.tell(number, reply)?)
}

/// The line of a worker without a seat is told what refused it one, or that the worker's name is no thread's.
pub fn tell_unseated(
    refusal: &Option<Refusal>,
    line: &Line<'_>,
    answers: &mut Answers,
) -> Result<(), NoMemory>
    ensures told { OnOk result (answers.new.told
        ≡ answers.old.told ++ told line.now.number (unseated refusal.now line.now.worker) ∷ []) }
    ensures reads { OnOk result (answers.new.reads ≡ answers.old.reads) }
{
    match refusal {
        Some(refusal) => Ok(answers.tell(line.number, &Reply::Refused(*refusal))?),
        None => Ok(answers.tell_unbound(line.number, &line.worker)?),
    }
}

/// Lines that waited are told these replies, one to each call, and bind their names. Where replies are wanting there is
/// the error of want of memory.
fn tell_lines(
    lines: &[Gathered],
    replies: &[Reply],
    names: &mut BoundNames,
    answers: &mut Answers,
) -> Result<(), NoMemory>
    ensures { OnOk result ((journal : List Event)
        → stand journal names.new [] answers.new
        ≡ tell_with (map waiting_in lines.now) replies.now (stand journal names.old [] answers.old)) }
{
    let mut left = replies;
    for line in lines {
        match &line.asks {
            Ok(Asked::Write(_)) => {
                let [reply, more @ ..] = left else {
                    return Err(NoMemory);
                };
                tell_made(names, answers, line.number, line.binds, reply)?;
                left = more;
            }
            Ok(Asked::Read(_)) => {}
            Err(name) => answers.tell_unbound(line.number, name)?,
        }
    }
    Ok(())
}

/// Each line is refused so.
fn refuse_lines(lines: &[Gathered], refusal: Refusal, answers: &mut Answers) -> Result<(), NoMemory>
    ensures { OnOk result ((journal : List Event) (names : List NamedValue)
        → stand journal names [] answers.new
        ≡ refuse_all refusal (stand journal names [] answers.old) (map waiting_in lines.now)) }
{
    for line in lines {
        answers.tell(line.number, &Reply::Refused(refusal))?;
    }
    Ok(())
}

impl Batch {
    /// No lines. It takes no memory before there is one.
    pub fn none(alloc: Global) -> Batch
        ensures { result.lines.items ≡ [] }
    {
        Batch {
            lines: Vec::new(alloc),
            calls: Vec::new(alloc),
        }
    }

    /// Whether it has no lines.
    pub fn is_empty(&self) -> bool
        ensures empty { result ≡ true → self.now.lines.items ≡ [] }
        ensures lines { result ≡ false → 1 ≤ length self.now.lines.items }
    {
        self.lines.is_empty()
    }

    /// A line waits, and asks what it means with the names that are known.
    pub fn gather<K: Known>(&mut self, line: &Line<'_>, names: &K) -> Result<(), AllocError>
        ensures waits { OnOk result (map waiting_in self.new.lines.items
            ≡ map waiting_in self.old.lines.items ++ waiting_for line.now (K.names names.now) ∷ []) }
        ensures length { OnOk result (length self.new.lines.items ≡ length self.old.lines.items + 1) }
    {
        self.lines.push(Gathered {
            number: line.number,
            binds: line.binds,
            asks: resolve(&line.call, names),
        })?;
        Ok(())
    }

    /// Whether the lines, of which there are several, can be submitted at once.
    pub fn is_batch(&self) -> bool
        ensures { 2 ≤ length self.now.lines.items → result ≡ are_batch (map waiting_in self.now.lines.items) }
    {
        self.lines.len() <= 16 && have_no_read(self.lines.as_slice())
    }

    /// Puts the calls of its lines together.
    pub fn put_calls(&mut self) -> Result<(), AllocError>
        ensures calls { OnOk result (self.new.calls.items ≡ calls_of (map waiting_in self.old.lines.items)) }
        ensures lines { self.new.lines ≡ self.old.lines }
    {
        self.calls.clear();
        put_calls(&mut self.calls, self.lines.as_slice())
    }

    /// The lines are told these replies, one to each call, and bind their names.
    pub fn tell(
        &self,
        replies: Vec<Reply>,
        names: &mut BoundNames,
        answers: &mut Answers,
    ) -> Result<(), NoMemory>
        ensures { OnOk result ((journal : List Event)
            → stand journal names.new [] answers.new
            ≡ tell_with (map waiting_in self.now.lines.items) replies.items (stand journal names.old [] answers.old)) }
    {
        tell_lines(self.lines.as_slice(), replies.as_slice(), names, answers)
    }

    /// Each line is refused so.
    pub fn refuse(&self, refusal: Refusal, answers: &mut Answers) -> Result<(), NoMemory>
        ensures { OnOk result ((journal : List Event) (names : List NamedValue)
            → stand journal names [] answers.new
            ≡ refuse_all refusal (stand journal names [] answers.old) (map waiting_in self.now.lines.items)) }
    {
        refuse_lines(self.lines.as_slice(), refusal, answers)
    }

    /// Forgets the lines.
    pub fn clear(&mut self)
        ensures { self.new.lines.items ≡ [] }
    {
        self.lines.clear();
    }
}

//! What the lines of a worker were told.
//!
//! A line is printed at the end of the run, with the names as they are bound then. A reply is large, and most of them say
//! little: what such a reply says is kept in place of it.
ghost use Rattle.std.specs.Prelude.{◌≡◌, ◌++◌, ◌∷◌, [], ℕ, true, Ok, Err, List, IfOk, IfSome, OnErr, OnOk, is_some, length, map, slice_get};
ghost use Rattle.std.specs.List.{AllByRecursion};
ghost use Rattle.std.specs.Option.{option_map};
ghost use Rattle.kernel_rules.specs.declared.replies.Reply.{Reply as ReplyValue};
ghost use Rattle.kernel_rules.specs.declared.replies.Reply.TheVariants as replies;
ghost use Rattle.call_text.specs.Reply.{reply_text};
ghost use Rattle.call_text.specs.declared.known_names.Named.{Named};
ghost use Rattle.script_rules.specs.Lines.{seen, told};
ghost use Rattle.script_rules.specs.Output.{answer_text};
ghost use Rattle.script_runner.specs.Answers.{answer_of, seen_in, AllStay, IsReply, Keeps};
ghost use Rattle.script_runner.specs.Reads.{with_thread, AddsReads, IsReadOf};

use crate::faults::PlayFault;
use crate::names::BoundNames;
use crate::reads::{Reads, SeenRead};
use base::{Data, NoMemory, ObjectId, Refusal};
use call_text::{Value, put_made, put_reply};
use kernel_rules::{Mapping, Query, Reply};
use std::alloc::{AllocError, Global};
use std::marker::Model;
use text_words::Name;

/// What a line was told.
#[derive(Clone, Copy)]
pub enum KeptAnswer {
    /// Its call was done.
    Done,
    /// The object or the category that its call made.
    Made(Value),
    /// The worker entered a gate.
    Entered {
        /// Where it runs.
        entry_point: u64,
        /// What it was handed.
        closure: u64,
    },
    /// What an object may use and uses, in pages.
    Quota {
        /// What it may use.
        quota: u32,
        /// What it uses.
        used: u32,
        /// Its quota never changes again.
        fixed: bool,
        /// It is read-only for good.
        immutable: bool,
    },
    /// The length of a segment in pages.
    Pages(u32),
    /// The bytes at a place among those that were read.
    Bytes(usize),
    /// The reply at a place among those that are kept whole.
    Replied(usize),
    /// What refused the worker's seat, the call or the query.
    Refused(Refusal),
    /// The first name of the line, the worker's before all, that is not known, or known as the other kind.
    Unbound(Name),
}

/// A line, and what it was told.
#[derive(Clone, Copy)]
pub struct ToldLine {
    /// The line's number in the script.
    pub number: u32,
    /// What it was told.
    pub answer: KeptAnswer,
}

/// A query that was answered.
#[derive(Clone, Copy)]
pub struct AskedQuery {
    /// How many events its thread had then seen: the reply is the answer in the state after them.
    pub length: usize,
    /// What it asked.
    pub query: Query,
    /// What it was answered.
    pub answer: KeptAnswer,
}

/// What a worker's lines were told, in their order, and which queries were answered. A contract sees both lists.
#[derive(Drop)]
pub struct Answers {
    lines: Vec<ToldLine>,
    // Bytes that were read.
    bytes: Vec<Data>,
    // Replies that are kept whole: names can stand in them.
    replies: Vec<Reply>,
    asked: Vec<AskedQuery>,
}

impl Model for Answers {
    ghost use Rattle.std.specs.Prelude.{length};
    ghost use Rattle.script_runner.specs.Answers.{kept_in, AreThere, LineAnswers};

    ghost Value = { LineAnswers };

    ghost view = { λ a. kept_in a.bytes.items a.replies.items a.lines.items a.asked.items };

    ghost invariant = { λ a. AreThere (length a.bytes.items) (length a.replies.items) a.lines.items a.asked.items };
}

/// What says all of a reply that is small and has no bytes.
fn short(reply: &Reply) -> Option<KeptAnswer>
    ensures { IfSome result (λ answer. (bytes : List (List ℕ)) (whole : List ReplyValue) → Keeps bytes whole reply.now answer) }
{
    match reply {
        Reply::Done => Some(KeptAnswer::Done),
        Reply::Category(category) => Some(KeptAnswer::Made(Value::Category(*category))),
        Reply::Object(id) => Some(KeptAnswer::Made(Value::Object(*id))),
        Reply::Entered {
            entry_point,
            closure,
        } => Some(KeptAnswer::Entered {
            entry_point: *entry_point,
            closure: *closure,
        }),
        Reply::Quota {
            quota,
            used,
            fixed,
            immutable,
        } => Some(KeptAnswer::Quota {
            quota: *quota,
            used: *used,
            fixed: *fixed,
            immutable: *immutable,
        }),
        Reply::Pages(pages) => Some(KeptAnswer::Pages(*pages)),
        Reply::Refused(refusal) => Some(KeptAnswer::Refused(*refusal)),
        _ => None,
    }
}

/// Keeps bytes among others.
fn keep_bytes(kept: &mut Vec<Data>, bytes: &Data) -> Result<KeptAnswer, NoMemory>
    ensures stay { (whole : List ReplyValue) → AllStay kept.old.items whole kept.new.items whole }
    ensures kept { IfOk result (λ answer. (whole : List ReplyValue)
        → Keeps kept.new.items whole (replies.Bytes bytes.now) answer) }
{
    let place = kept.len();
    kept.push(*bytes)?;
    Ok(KeptAnswer::Bytes(place))
}

/// Keeps a reply among others.
fn keep_whole(whole: &mut Vec<Reply>, reply: &Reply) -> Result<KeptAnswer, NoMemory>
    ensures stay { (bytes : List (List ℕ)) → AllStay bytes whole.old.items bytes whole.new.items }
    ensures kept { IfOk result (λ answer. (bytes : List (List ℕ)) → Keeps bytes whole.new.items reply.now answer) }
{
    // For the proof alone: this names a type that a reply holds.
    let _named: Option<Mapping> = None;
    let place = whole.len();
    whole.push(*reply)?;
    Ok(KeptAnswer::Replied(place))
}

/// Keeps a reply: what is large or has bytes among others.
fn keep(kept: &mut Vec<Data>, whole: &mut Vec<Reply>, reply: &Reply) -> Result<KeptAnswer, NoMemory>
    ensures stay { AllStay kept.old.items whole.old.items kept.new.items whole.new.items }
    ensures kept { IfOk result (Keeps kept.new.items whole.new.items reply.now) }
{
    if let Some(answer) = short(reply) {
        return Ok(answer);
    }
    match reply {
        Reply::Bytes(bytes) => keep_bytes(kept, bytes),
        _ => keep_whole(whole, reply),
    }
}

/// Adds a line that was told this.
fn note_line(lines: &mut Vec<ToldLine>, number: u32, answer: &KeptAnswer) -> Result<(), AllocError>
    ensures ok { OnOk result (lines.new.items ≡ lines.old.items ++ record { number = number; answer = answer.now } ∷ []) }
    ensures err { OnErr result (lines.new.items ≡ lines.old.items) }
{
    // For the proof alone: this names a type that an answer holds.
    let _named: Option<Value> = None;
    lines.push(ToldLine {
        number,
        answer: *answer,
    })?;
    Ok(())
}

/// Adds a query that was answered so.
fn note_read(
    asked: &mut Vec<AskedQuery>,
    length: usize,
    query: &Query,
    answer: &KeptAnswer,
) -> Result<(), AllocError>
    ensures ok { OnOk result (asked.new.items
        ≡ asked.old.items ++ record { length = length; query = query.now; answer = answer.now } ∷ []) }
    ensures err { OnErr result (asked.new.items ≡ asked.old.items) }
{
    // For the proof alone: these name types that an answer and a query hold.
    let _named: Option<Value> = None;
    let _mapping: Option<Mapping> = None;
    asked.push(AskedQuery {
        length,
        query: *query,
        answer: *answer,
    })?;
    Ok(())
}

/// Adds that a call was done.
#[inline(never)]
fn put_done(out: &mut Vec<u8>, names: &BoundNames) -> Result<(), PlayFault>
    ensures { OnOk result (out.new.items ≡ out.old.items ++ reply_text names.now replies.Done) }
{
    Ok(put_reply(out, &Reply::Done, names)?)
}

/// Adds where a thread runs and what it was handed.
#[inline(never)]
fn put_entered(
    out: &mut Vec<u8>,
    entry_point: u64,
    closure: u64,
    names: &BoundNames,
) -> Result<(), PlayFault>
    ensures { OnOk result (out.new.items ≡ out.old.items ++ reply_text names.now (replies.Entered entry_point closure)) }
{
    let reply = Reply::Entered {
        entry_point,
        closure,
    };
    Ok(put_reply(out, &reply, names)?)
}

/// Adds what an object may use and uses.
#[inline(never)]
fn put_quota(
    out: &mut Vec<u8>,
    quota: u32,
    used: u32,
    fixed: bool,
    immutable: bool,
    names: &BoundNames,
) -> Result<(), PlayFault>
    ensures { OnOk result
        (out.new.items ≡ out.old.items ++ reply_text names.now (replies.Quota quota used fixed immutable)) }
{
    let reply = Reply::Quota {
        quota,
        used,
        fixed,
        immutable,
    };
    Ok(put_reply(out, &reply, names)?)
}

/// Adds the length of a segment.
#[inline(never)]
fn put_pages(out: &mut Vec<u8>, pages: u32, names: &BoundNames) -> Result<(), PlayFault>
    ensures { OnOk result (out.new.items ≡ out.old.items ++ reply_text names.now (replies.Pages pages)) }
{
    Ok(put_reply(out, &Reply::Pages(pages), names)?)
}

/// Adds what refused.
#[inline(never)]
fn put_refused(out: &mut Vec<u8>, refusal: Refusal, names: &BoundNames) -> Result<(), PlayFault>
    ensures { OnOk result (out.new.items ≡ out.old.items ++ reply_text names.now (replies.Refused refusal)) }
{
    Ok(put_reply(out, &Reply::Refused(refusal), names)?)
}

/// Adds bytes that were read. Those that are not kept were not told.
#[inline(never)]
fn put_bytes(out: &mut Vec<u8>, bytes: Option<&Data>, names: &BoundNames) -> Result<(), PlayFault>
    ensures text { OnOk result (IfSome bytes.entry
        (λ b. out.new.items ≡ out.old.items ++ reply_text names.now (replies.Bytes b.now))) }
    ensures some { OnOk result (is_some bytes.entry ≡ true) }
{
    let Some(bytes) = bytes else {
        return Err(PlayFault::Stopped);
    };
    Ok(put_reply(out, &Reply::Bytes(*bytes), names)?)
}

/// Adds a reply. One that is not kept was not told.
fn put_kept(out: &mut Vec<u8>, reply: Option<&Reply>, names: &BoundNames) -> Result<(), PlayFault>
    ensures text { OnOk result (IfSome reply.entry (λ r. out.new.items ≡ out.old.items ++ reply_text names.now r.now)) }
    ensures some { OnOk result (is_some reply.entry ≡ true) }
{
    match reply {
        Some(reply) => Ok(put_reply(out, reply, names)?),
        None => Err(PlayFault::Stopped),
    }
}

/// Adds that a name is not known.
fn put_unbound(out: &mut Vec<u8>, name: &Name) -> Result<(), AllocError>
    ensures text { OnOk result ((names : List Named)
        → out.new.items ≡ out.old.items ++ answer_text names (Err name.now)) }
{
    out.extend_from_slice(b"unbound ")?;
    out.extend_from_slice(name.as_slice())
}

/// Adds what a line was told.
fn put_answer(
    out: &mut Vec<u8>,
    answer: &KeptAnswer,
    kept: &[Data],
    whole: &[Reply],
    names: &BoundNames,
) -> Result<(), PlayFault>
    ensures text { OnOk result
        (out.new.items ≡ out.old.items ++ answer_text names.now (answer_of kept.now whole.now answer.now)) }
{
    // (a function sets room to zero for the replies of all its arms: so each arm's reply is made in a function of its own)
    match answer {
        KeptAnswer::Done => put_done(out, names),
        KeptAnswer::Made(made) => Ok(put_made(out, made, names)?),
        KeptAnswer::Entered {
            entry_point,
            closure,
        } => put_entered(out, *entry_point, *closure, names),
        KeptAnswer::Quota {
            quota,
            used,
            fixed,
            immutable,
        } => put_quota(out, *quota, *used, *fixed, *immutable, names),
        KeptAnswer::Pages(pages) => put_pages(out, *pages, names),
        KeptAnswer::Bytes(place) => put_bytes(out, kept.get(*place), names),
        KeptAnswer::Replied(place) => put_kept(out, whole.get(*place), names),
        KeptAnswer::Refused(refusal) => put_refused(out, *refusal, names),
        KeptAnswer::Unbound(name) => Ok(put_unbound(out, name)?),
    }
}

/// An answer as it is printed where no name is known. The error is want of memory, or that what is kept apart of it is not there.
fn text_of(
    alloc: Global,
    answer: &KeptAnswer,
    kept: &[Data],
    whole: &[Reply],
) -> Result<Vec<u8>, NoMemory>
    ensures { IfOk result (λ text. text.items ≡ answer_text [] (answer_of kept.now whole.now answer.now)) }
{
    let names = BoundNames::none(alloc);
    let mut text = Vec::new(alloc);
    match put_answer(&mut text, answer, kept, whole, &names) {
        Ok(()) => Ok(text),
        Err(_) => Err(NoMemory),
    }
}

/// A query that was answered by a reply, as a read of a thread.
fn read_of(
    alloc: Global,
    thread: ObjectId,
    asked: &AskedQuery,
    kept: &[Data],
    whole: &[Reply],
) -> Result<SeenRead, NoMemory>
    requires { IsReply asked.now.answer }
    ensures { IfOk result (IsReadOf thread (seen_in kept.now whole.now asked.now)) }
{
    // For the proof alone: this names a type that a query holds.
    let _mapping: Option<Mapping> = None;
    let text = text_of(alloc, &asked.answer, kept, whole)?;
    Ok(SeenRead {
        thread,
        length: asked.length,
        query: asked.query,
        text,
    })
}

/// Adds queries that were answered by replies, as reads of a thread.
fn add_asked(
    alloc: Global,
    thread: ObjectId,
    asked: &[AskedQuery],
    kept: &[Data],
    whole: &[Reply],
    all: &mut Vec<SeenRead>,
) -> Result<(), NoMemory>
    requires { AllByRecursion (λ q. IsReply q.answer) asked.now }
    ensures { OnOk result (AddsReads thread (map (seen_in kept.now whole.now) asked.now) all.old.items all.new.items) }
{
    for query in asked {
        all.push(read_of(alloc, thread, query, kept, whole)?)?;
    }
    Ok(())
}

impl Answers {
    /// No answers. It takes no memory before there is one.
    pub fn none(alloc: Global) -> Answers
        ensures told { result.told ≡ [] }
        ensures reads { result.reads ≡ [] }
    {
        Answers {
            lines: Vec::new(alloc),
            bytes: Vec::new(alloc),
            replies: Vec::new(alloc),
            asked: Vec::new(alloc),
        }
    }

    /// A line is told a reply.
    pub fn tell(&mut self, number: u32, reply: &Reply) -> Result<(), NoMemory>
        ensures told { OnOk result (self.new.told ≡ self.old.told ++ told number (Ok reply.now) ∷ []) }
        ensures reads { OnOk result (self.new.reads ≡ self.old.reads) }
    {
        // For the proof alone: this names a type that an answer holds.
        let _named: Option<Value> = None;
        let answer = keep(&mut self.bytes, &mut self.replies, reply)?;
        Ok(note_line(&mut self.lines, number, &answer)?)
    }

    /// A line is told that a name is not known.
    pub fn tell_unbound(&mut self, number: u32, name: &Name) -> Result<(), AllocError>
        ensures told { OnOk result (self.new.told ≡ self.old.told ++ told number (Err name.now) ∷ []) }
        ensures reads { OnOk result (self.new.reads ≡ self.old.reads) }
    {
        note_line(&mut self.lines, number, &KeptAnswer::Unbound(*name))
    }

    /// A line is told the reply to a query that was asked after so many events.
    pub fn tell_read(
        &mut self,
        number: u32,
        query: &Query,
        length: usize,
        reply: &Reply,
    ) -> Result<(), NoMemory>
        ensures told { OnOk result (self.new.told ≡ self.old.told ++ told number (Ok reply.now) ∷ []) }
        ensures reads { OnOk result (self.new.reads ≡ self.old.reads ++ seen length query.now reply.now ∷ []) }
    {
        // For the proof alone: this names a type that an answer holds.
        let _named: Option<Value> = None;
        let answer = keep(&mut self.bytes, &mut self.replies, reply)?;
        note_read(&mut self.asked, length, query, &answer)?;
        Ok(note_line(&mut self.lines, number, &answer)?)
    }

    /// How many lines were told something.
    pub fn len(&self) -> usize
        ensures { result ≡ length self.now.told }
    {
        self.lines.len()
    }

    /// The number of the line at a place.
    pub fn number(&self, place: usize) -> Option<u32>
        ensures { result ≡ option_map (λ t. t.number) (slice_get self.now.told place) }
    {
        match self.lines.get(place) {
            Some(line) => Some(line.number),
            None => None,
        }
    }

    /// Adds what the line at a place was told. Where there is none, that is an error.
    pub fn put(&self, out: &mut Vec<u8>, place: usize, names: &BoundNames) -> Result<(), PlayFault>
        ensures text { OnOk result (IfSome (slice_get self.now.told place)
            (λ t. out.new.items ≡ out.old.items ++ answer_text names.now t.answer)) }
        ensures some { OnOk result (is_some (slice_get self.now.told place) ≡ true) }
    {
        let Some(line) = self.lines.get(place) else {
            return Err(PlayFault::Stopped);
        };
        put_answer(
            out,
            &line.answer,
            self.bytes.as_slice(),
            self.replies.as_slice(),
            names,
        )
    }

    /// Adds the queries that were answered, as reads of a thread: each answer as it is printed where no name is known.
    pub fn add_reads(
        &self,
        alloc: Global,
        thread: ObjectId,
        all: &mut Vec<SeenRead>,
    ) -> Result<(), NoMemory>
        ensures { OnOk result (AddsReads thread self.now.reads all.old.items all.new.items) }
    {
        let (bytes, replies) = (self.bytes.as_slice(), self.replies.as_slice());
        add_asked(alloc, thread, self.asked.as_slice(), bytes, replies, all)
    }
}

/// What a worker leaves.
#[derive(Drop)]
pub struct Left {
    /// Its thread, where that was given a seat.
    pub thread: Option<ObjectId>,
    /// What its lines were told.
    pub answers: Answers,
}

impl Left {
    /// The worker's reads, where its thread was given a seat.
    pub fn into_reads(self) -> Option<Reads>
        ensures { result ≡ option_map (with_thread self.answers) self.thread }
    {
        let Left { thread, answers } = self;
        match thread {
            Some(thread) => Some(Reads { thread, answers }),
            None => None,
        }
    }
}

//! Dialogues.
ghost use Rattle.std.specs.Prelude.{◌≡◌, ◌↔◌, ◌<◌, length, IsTrue, IfOk, OnErr, OnOk};
ghost use Rattle.call_text.specs.Script.{IsScript, ScriptFaultsAt};
ghost use Rattle.std.specs.Option.{option_copied};
ghost use Rattle.try_text.specs.Dialogues.{all_but_last, begun, undone, standing, last_of};
ghost use Rattle.try_text.specs.Saved.{saved_text};
ghost use Rattle.try_text.specs.Standing.{first_line, made_by};
ghost use Rattle.try_text.specs.Takes.{Takes, IsScriptOf, is_full, answer_in, after_answer, binds_of, if_made};

use crate::tried_lines::answers::LineAnswer;
use crate::tried_lines::kept::{TriedLine, first_line};
use crate::tried_lines::saving::put_saved;
use crate::tried_lines::standing::{Standing, made_by};
use base::{Limits, Meter, NoMemory};
use call_text::{Line, Script, ScriptError, read_script};
use kernel_rules::Reply;
use std::alloc::Global;
use std::marker::Model;
use text_words::Name;

/// The most lines of a dialogue. The script that it is saved as has at most twice as many.
const MOST: usize = 32_768;

/// A dialogue with a kernel. A contract sees the limits of the kernel's boot, and the list of the lines that were asked.
#[derive(Drop)]
pub struct Dialogue {
    alloc: Global,
    limits: Limits,
    lines: Vec<TriedLine>,
    current: Standing,
}

impl Model for Dialogue {
    ghost use Rattle.std.specs.Prelude.{◌≡◌};
    ghost use Rattle.try_text.specs.Dialogues.{Talk, standing, talk};

    ghost Value = { Talk };

    ghost view = { λ d. talk d.limits d.lines.items };

    ghost invariant = { λ d. d.current ≡ standing (talk d.limits d.lines.items) };
}

/// The script that a line is with its end, or its first faulty line. The error is want of memory.
fn script_of(alloc: Global, text: &[u8]) -> Result<Result<Script, u32>, NoMemory>
    ensures { IfOk result (IsScriptOf text.now) }
{
    let mut ended = Vec::from_slice(alloc, text)?;
    ended.push(b'\n')?;
    match read_script(alloc, ended.as_slice()) {
        Ok(script) => Ok(Ok(script)),
        Err(ScriptError::Line(line)) => Ok(Err(line)),
        Err(ScriptError::Memory) => Err(NoMemory),
    }
}

/// The name that the line of a script binds.
fn binds_of(script: &Script) -> Option<Name>
    ensures { result ≡ binds_of (first_line script.now) }
{
    match first_line(script) {
        Some(line) => line.binds,
        None => None,
    }
}

/// The name that a line binds, where the reply tells that something was made.
fn if_made(binds: &Option<Name>, reply: &Reply) -> Option<Name>
    ensures { result ≡ if_made binds.now (made_by reply.now) }
{
    match made_by(reply) {
        Some(_) => *binds,
        None => None,
    }
}

/// All lines but the last.
fn all_but_last(lines: &[TriedLine]) -> &[TriedLine]
    ensures { result.now ≡ all_but_last lines.now }
{
    match lines {
        [before @ .., _] => before,
        [] => lines,
    }
}

impl Dialogue {
    /// A dialogue with a newly booted kernel. The error is want of memory, where the limits are in range.
    pub fn begin(alloc: Global, limits: &Limits) -> Result<Dialogue, NoMemory>
        ensures { IfOk result (λ dialogue. dialogue ≡ begun limits.now) }
    {
        let current = Standing::start(alloc, limits)?;
        Ok(Dialogue {
            alloc,
            limits: *limits,
            lines: Vec::new(alloc),
            current,
        })
    }

    /// Where its memory is from.
    pub fn alloc(&self) -> Global {
        self.alloc
    }

    /// Where it stands.
    pub fn standing(&self) -> &Standing
        ensures { result.now ≡ standing self.now }
    {
        &self.current
    }

    /// Its last line.
    pub fn last(&self) -> Option<&TriedLine>
        ensures { option_copied result ≡ last_of self.now.lines }
    {
        self.lines.as_slice().last()
    }

    /// Whether it has as many lines as it may have.
    fn is_full(&self) -> bool
        ensures { result ≡ is_full self.now }
    {
        self.lines.len() >= MOST
    }

    /// Asks the line of a script, and keeps it where there is a reply. An `Err`, which is want of memory, changes nothing.
    fn take_script(&mut self, script: Script) -> Result<LineAnswer, NoMemory>
        ensures answer { IfOk result (λ answer. answer ≡ answer_in self.old (first_line script)) }
        ensures after { IfOk result (λ answer. self.new ≡ after_answer self.old script answer) }
        ensures err { OnErr result (self.new ≡ self.old) }
    {
        if self.is_full() {
            return Ok(LineAnswer::Full);
        }
        let question = match self.current.check(&script) {
            Ok(question) => question,
            Err(answer) => return Ok(answer),
        };
        let binds = binds_of(&script);
        let mut meter = Meter::new(self.alloc)?;
        self.lines.reserve(1)?;
        let reply = self.current.answer(&binds, &question, &mut meter)?;
        self.lines.push_reserved(TriedLine {
            binds: if_made(&binds, &reply),
            script,
        });
        Ok(LineAnswer::Told(reply))
    }

    /// Asks the line of a script that the text, without the line's end, spells, and keeps it where there is a reply. All
    /// else changes nothing. An `Err`, which is want of memory, changes nothing either.
    pub fn take(&mut self, text: &[u8]) -> Result<LineAnswer, NoMemory>
        ensures ok { IfOk result (Takes text.now self.old self.new) }
        ensures err { OnErr result (self.new ≡ self.old) }
    {
        match script_of(self.alloc, text)? {
            Ok(script) => self.take_script(script),
            Err(line) => Ok(LineAnswer::Faulty(line)),
        }
    }

    /// Where it stood before its last line. The error is want of memory.
    pub fn before_last(&self) -> Result<Standing, NoMemory>
        ensures { IfOk result (λ before. before ≡ standing (undone self.now)) }
    {
        Standing::after(
            self.alloc,
            &self.limits,
            all_but_last(self.lines.as_slice()),
        )
    }

    /// Takes the last line back, and tells whether there was one. An `Err`, which is want of memory, changes nothing.
    pub fn undo(&mut self) -> Result<bool, NoMemory>
        ensures ok { OnOk result (self.new ≡ undone self.old) }
        ensures was { IfOk result (λ was. IsTrue was ↔ (0 < length self.old.lines)) }
        ensures err { OnErr result (self.new ≡ self.old) }
    {
        let before = self.before_last()?;
        let last = self.lines.pop();
        self.current = before;
        Ok(last.is_some())
    }

    /// The script that it is saved as. The error is want of memory.
    pub fn saved(&self) -> Result<Vec<u8>, NoMemory>
        ensures { IfOk result (λ saved. saved.items ≡ saved_text self.now.lines) }
    {
        let mut out = Vec::new(self.alloc);
        put_saved(&mut out, self.lines.as_slice())?;
        Ok(out)
    }
}

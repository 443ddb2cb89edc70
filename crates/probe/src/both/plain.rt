//! A script on the plain machine.
use base::{Limits, Meter, NoMemory, ObjectId};
use call_text::{Asked, Known, Line, NameList, Named, Phase, Script, Value, resolve, start_names};
use plain_core::{Machine, PlainKernel, Reply, Tables};
use std::alloc::Global;
use text_words::Name;

/// A line that asks something: who asks what, and what the plain machine answers.
#[derive(Clone, Copy)]
pub struct Step {
    /// The line's number.
    pub number: u32,
    /// The worker.
    pub worker: Name,
    /// The worker's thread.
    pub thread: ObjectId,
    /// What it asks.
    pub asked: Asked,
    /// The plain machine's answer.
    pub reply: Reply,
}

/// A script that was played on the plain machine.
#[derive(Drop)]
pub struct Played {
    /// Its lines, but those with a name that nothing is bound to.
    pub steps: Vec<Step>,
    /// The names with what they are bound to at the end.
    pub names: Vec<Named>,
    /// The tables at the end.
    pub tables: Tables,
}

/// The plain machine amid a script.
#[derive(Drop)]
struct Player {
    kernel: PlainKernel,
    meter: Meter,
    names: Vec<Named>,
}

/// What was made, where a reply tells it.
fn made(reply: &Reply) -> Option<Value> {
    match reply {
        Reply::Category(category) => Some(Value::Category(*category)),
        Reply::Object(id) => Some(Value::Object(*id)),
        _ => None,
    }
}

/// The names that each script knows at its start.
fn names_at_start(alloc: Global) -> Result<Vec<Named>, NoMemory> {
    let mut names = Vec::new(alloc);
    for named in start_names() {
        names.push(named)?;
    }
    Ok(names)
}

impl Player {
    fn start(alloc: Global, limits: &Limits) -> Result<Player, NoMemory> {
        let names = names_at_start(alloc)?;
        let meter = Meter::new(alloc)?;
        match PlainKernel::boot(alloc, limits) {
            Ok(kernel) => Ok(Player {
                kernel,
                meter,
                names,
            }),
            Err(_) => Err(NoMemory),
        }
    }

    /// The thread of a line's worker and what it asks, where all its names are bound.
    fn asked(&self, line: &Line<'_>) -> Option<(ObjectId, Asked)> {
        let names = NameList {
            named: self.names.as_slice(),
        };
        let worker = names.value_of(&line.worker);
        let Some(Value::Object(thread)) = &worker else {
            return None;
        };
        let Ok(asked) = resolve(&line.call, &names) else {
            return None;
        };
        Some((*thread, asked))
    }

    fn answer(&mut self, thread: ObjectId, asked: &Asked) -> Result<Reply, NoMemory> {
        match asked {
            Asked::Write(call) => self.kernel.step(thread, call, &mut self.meter),
            Asked::Read(query) => self.kernel.ask(thread, query, &mut self.meter),
        }
    }

    /// Binds the line's name to what its call made.
    fn bind(&mut self, line: &Line<'_>, reply: &Reply) -> Result<(), NoMemory> {
        if let (Some(name), Some(value)) = (line.binds, made(reply)) {
            self.names.push(Named { name, value })?;
        }
        Ok(())
    }

    /// Plays all lines, and answers the tables then.
    fn play_all(&mut self, script: &Script, steps: &mut Vec<Step>) -> Result<Tables, NoMemory> {
        for phase in &script.phases {
            self.play_phase(phase, steps)?;
        }
        self.kernel.tables(&mut self.meter)
    }

    /// Plays all lines, and ends: the names with what they are bound to then, and the tables.
    fn end(
        mut self,
        script: &Script,
        steps: &mut Vec<Step>,
    ) -> Result<(Vec<Named>, Tables), NoMemory> {
        let played = self.play_all(script, steps);
        let Player { names, .. } = self;
        match played {
            Ok(tables) => Ok((names, tables)),
            Err(error) => Err(error),
        }
    }

    fn play_phase(&mut self, phase: &Phase, steps: &mut Vec<Step>) -> Result<(), NoMemory> {
        for place in 0..phase.len() {
            if let Some(line) = phase.line(place) {
                self.play_line(&line, steps)?;
            }
        }
        Ok(())
    }

    fn play_line(&mut self, line: &Line<'_>, steps: &mut Vec<Step>) -> Result<(), NoMemory> {
        let Some((thread, asked)) = self.asked(line) else {
            return Ok(());
        };
        match self.answer(thread, &asked) {
            Err(error) => Err(error),
            Ok(reply) => {
                self.bind(line, &reply)?;
                steps.push(Step {
                    number: line.number,
                    worker: line.worker,
                    thread,
                    asked,
                    reply,
                })?;
                Ok(())
            }
        }
    }
}

/// Plays a script on a newly booted plain kernel, a line after another. (Who owns a kernel leaves the work to what borrows it: its
/// drop would be written out at each place to leave early.)
pub fn play(alloc: Global, script: &Script, limits: &Limits) -> Result<Played, NoMemory> {
    let player = Player::start(alloc, limits)?;
    let mut steps = Vec::new(alloc);
    let (names, tables) = player.end(script, &mut steps)?;
    Ok(Played {
        steps,
        names,
        tables,
    })
}

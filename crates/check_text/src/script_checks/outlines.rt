//! Lines without the arguments of their calls.
ghost use Rattle.std.specs.Prelude.{◌≡◌, ◌++◌, map, OnOk};
ghost use Rattle.check_text.specs.Outlines.{makes_category, outline_of, outlines_from};

use call_text::{Line, Phase};
use std::alloc::AllocError;
use text_words::Name;
use text_words::spoken_calls::Verb;

/// A line without the arguments of its call.
#[derive(Clone, Copy)]
pub struct Outline {
    /// The line's place in the text, from 1.
    pub number: u32,
    /// The place of its phase, from 0.
    pub phase: usize,
    /// Its worker.
    pub worker: Name,
    /// Whether its worker's batch goes on.
    pub more: bool,
    /// The name that it binds.
    pub binds: Option<Name>,
    /// Whether its call makes a category.
    pub category: bool,
}

fn makes_category(verb: Verb) -> bool
    ensures { result ≡ makes_category verb }
{
    matches!(verb, Verb::CatCreate)
}

/// The outline of a line of a phase.
pub fn outline_of(phase: usize, line: &Line<'_>) -> Outline
    ensures { result ≡ outline_of phase line.now }
{
    Outline {
        number: line.number,
        phase,
        worker: line.worker,
        more: line.more,
        binds: line.binds,
        category: makes_category(line.call.verb()),
    }
}

/// Adds the outlines of the lines of a phase.
fn put_phase(out: &mut Vec<Outline>, place: usize, phase: &Phase) -> Result<(), AllocError>
    ensures { OnOk result (out.new.items ≡ out.old.items ++ map (outline_of place) phase.now) }
{
    for at in 0..phase.len() {
        if let Some(line) = phase.line(at) {
            out.push(outline_of(place, &line))?;
        }
    }
    Ok(())
}

/// Adds the outlines of the lines of phases.
pub fn put_outlines(out: &mut Vec<Outline>, phases: &[Phase]) -> Result<(), AllocError>
    ensures { OnOk result (out.new.items ≡ out.old.items ++ outlines_from 0 phases.now) }
{
    for place in 0..phases.len() {
        put_phase(out, place, &phases[place])?;
    }
    Ok(())
}

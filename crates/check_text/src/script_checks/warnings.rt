//! Warnings.
ghost use Rattle.std.specs.Prelude.{◌≡◌, ◌++◌, map, IfOk, OnOk};
ghost use Rattle.check_text.specs.Warnings.{warned, no_worker, unbound, line_warnings, phase_warnings, warnings_of};

use crate::script_checks::mentions::{Mention, put_mentions};
use crate::script_checks::outlines::{Outline, outline_of};
use crate::script_checks::surveys::Survey;
use call_text::{Line, Phase, Script};
use std::alloc::{AllocError, Global};
use text_words::Name;
use text_words::spoken_calls::Arg;

/// What is told of a line that can be played.
#[derive(Clone, Copy, PartialEq, Eq)]
pub enum Warning {
    /// The name that it binds is used by no line.
    Unused(Name),
    /// Its worker is not bound before its phase.
    NoWorker(Name),
    /// It uses a name that no line before gives to it, as what stands there. Of a line each such name is told once.
    Unbound(Mention),
}

/// A warning, with the place of its line in the text, from 1.
#[derive(Clone, Copy, PartialEq, Eq)]
pub struct Warned {
    /// The line.
    pub line: u32,
    /// What is told of it.
    pub warning: Warning,
}

/// What is told of a line because its worker is not given to it.
fn no_worker(survey: &Survey, line: &Outline) -> Option<Warning>
    ensures { result ≡ no_worker survey.now.outlines line.now }
{
    if survey.knows_worker(line) {
        return None;
    }
    Some(Warning::NoWorker(line.worker))
}

/// Adds a warning of a line, where there is one.
fn put_warning(out: &mut Vec<Warned>, line: u32, warning: Option<Warning>) -> Result<(), AllocError>
    ensures { OnOk result (out.new.items ≡ out.old.items ++ warned line warning) }
{
    if let Some(warning) = warning {
        out.push(Warned { line, warning })?;
    }
    Ok(())
}

/// Adds a warning of a line for each of the names that are not given to it.
fn put_unbound(out: &mut Vec<Warned>, line: u32, unknown: &[Mention]) -> Result<(), AllocError>
    ensures { OnOk result (out.new.items ≡ out.old.items ++ map (unbound line) unknown.now) }
{
    for mention in unknown {
        let warning = Warning::Unbound(*mention);
        out.push(Warned { line, warning })?;
    }
    Ok(())
}

/// Adds the warnings of a line whose call has these arguments.
fn put_line(
    alloc: Global,
    out: &mut Vec<Warned>,
    survey: &Survey,
    line: &Outline,
    args: &[Arg],
) -> Result<(), AllocError>
    ensures { OnOk result (out.new.items ≡ out.old.items ++ line_warnings survey.now line.now args.now) }
{
    let mut mentions = Vec::new(alloc);
    put_mentions(&mut mentions, args)?;
    let unused = match survey.unused(line) {
        Some(name) => Some(Warning::Unused(name)),
        None => None,
    };
    put_warning(out, line.number, unused)?;
    put_warning(out, line.number, no_worker(survey, line))?;
    let unknown = survey.unknown(alloc, line, mentions.as_slice())?;
    put_unbound(out, line.number, unknown.as_slice())
}

/// Adds the warnings of the lines of a phase.
fn put_phase(
    alloc: Global,
    out: &mut Vec<Warned>,
    survey: &Survey,
    place: usize,
    phase: &Phase,
) -> Result<(), AllocError>
    ensures { OnOk result (out.new.items ≡ out.old.items ++ phase_warnings survey.now place phase.now) }
{
    for at in 0..phase.len() {
        if let Some(line) = phase.line(at) {
            put_line(
                alloc,
                out,
                survey,
                &outline_of(place, &line),
                line.call.args(),
            )?;
        }
    }
    Ok(())
}

/// The warnings of a script, in the order of its lines; of a line first that the name that it binds is not used.
pub fn warnings_of(alloc: Global, script: &Script) -> Result<Vec<Warned>, AllocError>
    ensures { IfOk result (λ found. found.items ≡ warnings_of script.now) }
{
    let survey = Survey::of(alloc, script)?;
    let mut found = Vec::new(alloc);
    let phases = script.phases.as_slice();
    for place in 0..phases.len() {
        put_phase(alloc, &mut found, &survey, place, &phases[place])?;
    }
    Ok(found)
}

//! Writing scripts.
ghost use Rattle.std.specs.Prelude.{◌≡◌, ◌++◌, ◌∷◌, [], map, IfOk, OnOk};
ghost use Rattle.std.specs.List.{flat_map};
ghost use Rattle.call_text.specs.Line.{Break, mark, written_text};
ghost use Rattle.call_text.specs.Text.{lines_text};
ghost use Rattle.call_text.specs.Script.{said_of, script_text};

use crate::phases::{Line, Phase, Script};
use base::NoMemory;
use std::alloc::{AllocError, Global};
use text_words::put_name;
use text_words::spoken_calls::put_spoken;

/// Adds what stands after a worker: a plus where its batch goes on.
fn put_mark(out: &mut Vec<u8>, more: bool) -> Result<(), AllocError>
    ensures { OnOk result (out.new.items ≡ out.old.items ++ mark more) }
{
    if more {
        out.extend_from_slice(b":+")?;
    } else {
        out.push(b':')?;
    }
    Ok(())
}

/// Adds the line and its end.
fn put_line(out: &mut Vec<u8>, line: &Line<'_>) -> Result<(), AllocError>
    ensures { OnOk result (out.new.items
        ≡ out.old.items ++ (written_text (said_of line.now) ++ 10 ∷ [])) }
{
    if let Some(name) = &line.binds {
        put_name(out, name)?;
        out.extend_from_slice(b" = ")?;
    }
    put_name(out, &line.worker)?;
    put_mark(out, line.more)?;
    out.push(b' ')?;
    put_spoken(out, &line.call)?;
    out.push(b'\n')?;
    Ok(())
}

/// Adds the lines of the phase.
fn put_phase(out: &mut Vec<u8>, phase: &Phase) -> Result<(), AllocError>
    ensures { OnOk result (out.new.items
        ≡ out.old.items ++ lines_text written_text (map said_of phase.now)) }
{
    for place in 0..phase.len() {
        if let Some(line) = phase.line(place) {
            put_line(out, &line)?;
        }
    }
    Ok(())
}

/// Adds the lines of the phases, each after a line `--`.
fn put_more(out: &mut Vec<u8>, phases: &[Phase]) -> Result<(), AllocError>
    ensures { OnOk result (out.new.items ≡ out.old.items
        ++ lines_text written_text (flat_map (λ p. Break ∷ map said_of p) phases.now)) }
{
    for phase in phases {
        out.extend_from_slice(b"--\n")?;
        put_phase(out, phase)?;
    }
    Ok(())
}

/// The bytes of the script.
pub fn write_script(alloc: Global, script: &Script) -> Result<Vec<u8>, NoMemory>
    ensures { IfOk result (λ out. out.items ≡ script_text script.now) }
{
    let mut out = Vec::new(alloc);
    let [first, more @ ..] = script.phases.as_slice() else {
        return Ok(out);
    };
    put_phase(&mut out, first)?;
    put_more(&mut out, more)?;
    Ok(out)
}

//! The names that a line uses.
ghost use Rattle.std.specs.Prelude.{◌≡◌, ◌++◌, ◌∷◌, OnOk};
ghost use Rattle.check_text.specs.Mentions.{mention_of, pair_mentions, argument_mentions, mentions_in};
ghost use Rattle.check_text.specs.Mentions.{line_mentions, phase_mentions, script_mentions};

use call_text::{Line, Phase};
use std::alloc::AllocError;
use text_words::spoken_calls::Arg;
use text_words::{Name, Reference, SpokenPair};

/// A name that a line uses.
#[derive(Clone, Copy, PartialEq, Eq)]
pub struct Mention {
    /// The name.
    pub name: Name,
    /// Whether it stands for a category; otherwise for an object.
    pub category: bool,
}

/// Adds the name, where it is one.
fn put_reference(
    out: &mut Vec<Mention>,
    category: bool,
    reference: &Reference,
) -> Result<(), AllocError>
    ensures { OnOk result (out.new.items ≡ out.old.items ++ mention_of category reference.now) }
{
    match reference {
        Reference::Number(_) => {}
        Reference::Name(name) => out.push(Mention {
            name: *name,
            category,
        })?,
    }
    Ok(())
}

/// Adds the names of the categories of a label.
fn put_pairs(out: &mut Vec<Mention>, pairs: &[SpokenPair]) -> Result<(), AllocError>
    ensures { OnOk result (out.new.items ≡ out.old.items ++ pair_mentions pairs.now) }
{
    for pair in pairs {
        put_reference(out, true, &pair.category)?;
    }
    Ok(())
}

/// Adds the names of an argument.
fn put_argument(out: &mut Vec<Mention>, arg: &Arg) -> Result<(), AllocError>
    ensures { OnOk result (out.new.items ≡ out.old.items ++ argument_mentions arg.now) }
{
    match arg {
        Arg::Object(reference) => put_reference(out, false, reference),
        Arg::Label(label) => put_pairs(out, label.pairs()),
        _ => Ok(()),
    }
}

/// Adds the names of arguments, in the order of the words.
pub fn put_mentions(out: &mut Vec<Mention>, args: &[Arg]) -> Result<(), AllocError>
    ensures { OnOk result (out.new.items ≡ out.old.items ++ mentions_in args.now) }
{
    for arg in args {
        put_argument(out, arg)?;
    }
    Ok(())
}

/// Adds the names that a line uses: its worker's, and those of its call's arguments.
fn put_line(out: &mut Vec<Mention>, line: &Line<'_>) -> Result<(), AllocError>
    ensures { OnOk result (out.new.items ≡ out.old.items ++ line_mentions line.now) }
{
    out.push(Mention {
        name: line.worker,
        category: false,
    })?;
    put_mentions(out, line.call.args())
}

/// Adds the names that the lines of a phase use.
fn put_phase(out: &mut Vec<Mention>, phase: &Phase) -> Result<(), AllocError>
    ensures { OnOk result (out.new.items ≡ out.old.items ++ phase_mentions phase.now) }
{
    for place in 0..phase.len() {
        if let Some(line) = phase.line(place) {
            put_line(out, &line)?;
        }
    }
    Ok(())
}

/// Adds the names that the lines of phases use.
pub fn put_script(out: &mut Vec<Mention>, phases: &[Phase]) -> Result<(), AllocError>
    ensures { OnOk result (out.new.items ≡ out.old.items ++ script_mentions phases.now) }
{
    for phase in phases {
        put_phase(out, phase)?;
    }
    Ok(())
}

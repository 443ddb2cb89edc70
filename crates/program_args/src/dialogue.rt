//! The command line of `histar try`.
ghost use Rattle.std.specs.Prelude.{◌≡◌, IfOk, false};
ghost use Rattle.clap.specs.Matches.{found_of};
ghost use Rattle.clap.specs.Walk.{rows_of};
ghost use Rattle.program_args.specs.Commands.{IsCommand, try_command};
ghost use Rattle.program_args.specs.Told.{limits_of, pages_in};

use crate::args::{pages, pages_of};
use base::Limits;
use clap::{ArgMatches, Command};
use program_io::DEFAULTS;
use std::alloc::{AllocError, Global};

/// The command `try`.
pub fn dialogue<'a>(alloc: Global) -> Result<Command<'a>, AllocError>
    ensures { IfOk result (IsCommand try_command) }
{
    Command::new(alloc, "try")
        .about(
            "Answers calls one by one, on a newly booted kernel, until quit or the end of its input",
        )
        .arg(pages(alloc))
}

/// The limits of the kernel.
pub fn limits_of(dialogue: &ArgMatches<'_>) -> Limits
    ensures { result ≡ limits_of (pages_in (rows_of (found_of dialogue.now))) }
{
    Limits {
        pages: pages_of(dialogue),
        ..DEFAULTS.limits
    }
}

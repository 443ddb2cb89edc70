//! The command line of `histar check`.
ghost use Rattle.std.specs.Prelude.{◌≡◌, IfOk, false, codes};
ghost use Rattle.clap.specs.Matches.{found_of};
ghost use Rattle.clap.specs.Walk.{rows_of, rule_of};
ghost use Rattle.program_args.specs.Commands.{IsCommand, check_command, flag_rule};
ghost use Rattle.program_args.specs.Told.{IsCheckOf};

use crate::args::{flag_of, needed_text_of, script};
use clap::{Arg, ArgAction, ArgMatches, Command};
use std::alloc::{AllocError, Global};

/// What the arguments of `check` ask for.
#[derive(Clone, Copy, Debug, PartialEq, Eq)]
pub struct CheckArgs<'a> {
    /// The path of the script.
    pub script: &'a str,
    /// Whether its exact form is printed.
    pub is_plain: bool,
}

/// Whether the exact form is printed.
fn plain<'a>(alloc: Global) -> Arg<'a>
    ensures rule { rule_of result ≡ flag_rule (codes "plain") }
    ensures local { result.global ≡ false }
{
    Arg::new(alloc, "plain")
        .long("plain")
        .action(ArgAction::SetTrue)
        .help(
            "Print the exact form of a script that can be played: no comments, and data as digits",
        )
}

/// The command `check`.
pub fn check<'a>(alloc: Global) -> Result<Command<'a>, AllocError>
    ensures { IfOk result (IsCommand check_command) }
{
    Command::new(alloc, "check")
        .about("Tells what is wrong or doubtful in a script, and plays nothing")
        .arg(script(alloc, "The script to check"))?
        .arg(plain(alloc))
}

/// What the arguments of `check` ask for.
pub fn check_of<'a>(check: &ArgMatches<'a>) -> CheckArgs<'a>
    ensures { IsCheckOf (rows_of (found_of check.now)) result }
{
    CheckArgs {
        script: needed_text_of(check, "SCRIPT"),
        is_plain: flag_of(check, "plain"),
    }
}

//! The command line of `histar`.
ghost use Rattle.std.specs.Prelude.{IfOk, IsSomeAnd, map};
ghost use Rattle.clap.specs.Matches.{found_of};
ghost use Rattle.clap.specs.Simple.{subcommand_of};
ghost use Rattle.clap.specs.Walk.{rows_of};
ghost use Rattle.program_args.specs.Asked.{HasFiles};
ghost use Rattle.program_args.specs.Commands.{IsCommand, histar_command};
ghost use Rattle.program_args.specs.Told.{IsVerbOf};

use crate::check::{CheckArgs, check, check_of};
use crate::dialogue::{dialogue, limits_of};
use crate::run::{RunArgs, run, run_of};
use crate::show::show;
use crate::versions::VERSION;
use base::Limits;
use clap::{ArgMatches, Command, Error};
use std::alloc::{AllocError, Global};
use std::convert::AsStr;

/// What `histar` is asked for.
#[derive(Clone, Copy, Debug, PartialEq, Eq)]
pub enum Verb<'a> {
    /// A script is played.
    Run(RunArgs<'a>),
    /// A script is checked.
    Check(CheckArgs<'a>),
    /// Calls are asked one by one, of a kernel with these limits.
    Try(Limits),
}

/// The whole command.
fn command<'a>(alloc: Global) -> Result<Command<'a>, AllocError>
    ensures { IfOk result (IsCommand histar_command) }
{
    let all = Command::new(alloc, "histar")
        .bin_name("histar")?
        .about("A kernel of labels, containers, segments, address spaces, threads and gates")
        .version(VERSION)
        .subcommand_required(true);
    let one = all.subcommand(run(alloc)?)?;
    let two = one.subcommand(check(alloc)?)?;
    let three = two.subcommand(dialogue(alloc)?)?;
    three.subcommand(show(alloc))
}

/// What is asked for by a verb of this name.
fn verb_of<'a>(name: &str, args: &ArgMatches<'a>) -> Verb<'a>
    ensures told { IsVerbOf (name.now, rows_of (found_of args.now)) result }
    ensures files { HasFiles result }
{
    match name {
        "run" => Verb::Run(run_of(args)),
        "try" => Verb::Try(limits_of(args)),
        _ => Verb::Check(check_of(args)),
    }
}

/// What the words ask for, the first of them being the program's name, or what `clap` answers to them: help, a fault of
/// usage, or want of memory.
pub fn read_words<'a, S: AsStr>(alloc: Global, words: &'a [S]) -> Result<Verb<'a>, Error>
    ensures told { IfOk result (λ verb. IsSomeAnd (subcommand_of histar_command (map S.text words.entry.now)) (λ found. IsVerbOf found verb)) }
    ensures files { IfOk result (λ verb. HasFiles verb) }
{
    let matches = command(alloc)?.try_get_matches_from(words)?;
    let Some((name, args)) = matches.subcommand() else {
        return Ok(Verb::Check(CheckArgs {
            script: "",
            is_plain: false,
        }));
    };
    Ok(verb_of(name, args))
}

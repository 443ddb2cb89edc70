//! The command line of `histar run`.
ghost use Rattle.std.specs.Prelude.{◌≡◌, IfOk, false, codes, is_some};
ghost use Rattle.clap.specs.Matches.{found_of};
ghost use Rattle.clap.specs.Walk.{rows_of, rule_of};
ghost use Rattle.program_args.specs.Commands.{IsCommand, option_rule, ranged_rule, run_command};
ghost use Rattle.program_args.specs.Told.{IsRunOf, level_of, limits_in};

use crate::args::{
    names, needed_text_of, number, number_of, option, pages, pages_of, script, short_number_of,
    text_of,
};
use base::{Level, Limits};
use clap::{Arg, ArgMatches, Command, value_parser};
use program_io::Options;
use std::alloc::{AllocError, Global};

/// What the arguments of `run` ask for.
#[derive(Clone, Copy, Debug, PartialEq, Eq)]
pub struct RunArgs<'a> {
    /// How the script is played.
    pub options: Options,
    /// The path of the script.
    pub script: &'a str,
    /// The path of the file that the dump goes to, where one is asked for.
    pub dump: Option<&'a str>,
    /// The path of the file that the names go to, where they are asked for.
    pub names: Option<&'a str>,
}

fn dump<'a>(alloc: Global) -> Arg<'a>
    ensures rule { rule_of result ≡ option_rule (codes "dump") }
    ensures local { result.global ≡ false }
{
    option(alloc, "dump", "FILE").help(
        "Where to write the write calls of the run and the tables of what is left",
    )
}

fn checkpoint<'a>(alloc: Global) -> Arg<'a>
    ensures rule { rule_of result ≡ ranged_rule (codes "checkpoint") (codes "0") 0 4294967295 }
    ensures local { result.global ≡ false }
{
    number(
        alloc,
        "checkpoint",
        "0",
        "How many of the first write calls the dump tells by the state that they lead to",
    )
    .value_parser(value_parser!(u64).range(0..4294967296))
}

fn device<'a>(alloc: Global) -> Arg<'a>
    ensures rule { rule_of result ≡ ranged_rule (codes "device") (codes "1") 0 3 }
    ensures local { result.global ≡ false }
{
    number(alloc, "device", "1", "The level of the device's label")
        .value_name("L")
        .value_parser(value_parser!(u64).range(0..4))
}

fn next_id<'a>(alloc: Global) -> Arg<'a>
    ensures rule { rule_of result ≡ ranged_rule (codes "next-id") (codes "4") 4 2305843009213693952 }
    ensures local { result.global ≡ false }
{
    number(
        alloc,
        "next-id",
        "4",
        "The first id, 4 or #4, that a call gives",
    )
    .value_parser(value_parser!(u64).range(4..2305843009213693953))
}

fn next_category<'a>(alloc: Global) -> Arg<'a>
    ensures rule { rule_of result ≡ ranged_rule (codes "next-category") (codes "1") 1 2305843009213693952 }
    ensures local { result.global ≡ false }
{
    number(
        alloc,
        "next-category",
        "1",
        "The first category, 1 or #1, that a call gives",
    )
    .value_parser(value_parser!(u64).range(1..2305843009213693953))
}

/// The command `run`.
pub fn run<'a>(alloc: Global) -> Result<Command<'a>, AllocError>
    ensures { IfOk result (IsCommand run_command) }
{
    Command::new(alloc, "run")
        .about("Plays a script on a newly booted kernel, and prints its replies")
        .arg(script(alloc, "The script to play"))?
        .arg(pages(alloc))?
        .arg(device(alloc))?
        .arg(next_id(alloc))?
        .arg(next_category(alloc))?
        .arg(dump(alloc))?
        .arg(checkpoint(alloc))?
        .arg(names(
            alloc,
            "Where to write the names of the run, for histar show",
        ))
}

fn level_of(number: u64) -> Level
    ensures { result ≡ level_of number }
{
    match number {
        0 => Level::L0,
        1 => Level::L1,
        2 => Level::L2,
        _ => Level::L3,
    }
}

fn limits_of(run: &ArgMatches<'_>) -> Limits
    ensures { result ≡ limits_in (rows_of (found_of run.now)) }
{
    Limits {
        pages: pages_of(run),
        device: level_of(number_of(run, "device").unwrap_or(1)),
        next_id: number_of(run, "next-id").unwrap_or(4),
        next_category: number_of(run, "next-category").unwrap_or(1),
    }
}

/// What the arguments of `run` ask for.
pub fn run_of<'a>(run: &ArgMatches<'a>) -> RunArgs<'a>
    ensures told { IsRunOf (rows_of (found_of run.now)) result }
    ensures dump { result.options.dump ≡ is_some result.dump }
    ensures names { result.options.names ≡ is_some result.names }
{
    let dump = text_of(run, "dump");
    let names = text_of(run, "names");
    RunArgs {
        options: Options {
            limits: limits_of(run),
            dump: dump.is_some(),
            checkpoint: short_number_of(run, "checkpoint").unwrap_or(0),
            names: names.is_some(),
        },
        script: needed_text_of(run, "SCRIPT"),
        dump,
        names,
    }
}

//! The command line of `histar-audit`.
ghost use Rattle.std.specs.Prelude.{◌≡◌, List, ℕ, Some, None, codes, false, is_some, map, IfErr, IfOk};
ghost use Rattle.clap.specs.Matches.{found_of};
ghost use Rattle.clap.specs.Simple.{app_of};
ghost use Rattle.clap.specs.Walk.{rows_of, rule_of};
ghost use Rattle.clap.specs.Words.{kind_of};
ghost use Rattle.program_args.specs.Commands.{audit_command, file_rule, number_rule, option_rule};
ghost use Rattle.program_args.specs.Path.{path_of};
ghost use Rattle.program_args.specs.Told.{IsAuditOf, audit_rows};

use crate::args::{flow_of, names, needed_text_of, text_of};
use crate::versions::VERSION;
use clap::error::ErrorKind;
use clap::{Arg, ArgAction, ArgMatches, Command, Error, value_parser};
use program_io::AuditOptions;
use std::alloc::Global;
use std::convert::AsStr;

/// What the words ask for.
#[derive(Clone, Copy, Debug, PartialEq, Eq)]
pub struct AuditArgs<'a> {
    /// How the dump is audited.
    pub options: AuditOptions,
    /// The path of the dump.
    pub dump: &'a str,
    /// The path of the file that the dump of format 2 goes to, where one is asked for.
    pub migrate: Option<&'a str>,
    /// The label of an observer, as it was told, where the replies that hidden threads changed are asked for.
    pub hidden: Option<&'a str>,
    /// The path of the names that objects and categories are told by.
    pub names: Option<&'a str>,
}

/// The path of the dump.
fn file<'a>(alloc: Global) -> Arg<'a>
    ensures rule { rule_of result ≡ file_rule (codes "FILE") }
    ensures local { result.global ≡ false }
{
    Arg::new(alloc, "FILE")
        .required(true)
        .action(ArgAction::Set)
        .help("The dump to audit")
}

/// The path of the migrated dump.
fn migrated<'a>(alloc: Global) -> Arg<'a>
    ensures rule { rule_of result ≡ option_rule (codes "migrate") }
    ensures local { result.global ≡ false }
{
    Arg::new(alloc, "migrate")
        .long("migrate")
        .value_name("OUT")
        .action(ArgAction::Set)
        .help("Where to write the dump in format 2, where it is clean and of format 1")
}

/// A number of 64 bits, behind its name.
fn number<'a>(
    alloc: Global,
    name: &'a str,
    value: &'a str,
    help: &'a str,
    is_needed: bool,
) -> Arg<'a>
    ensures rule { rule_of result ≡ number_rule name.entry.now is_needed }
    ensures local { result.global ≡ false }
{
    Arg::new(alloc, name)
        .long(name)
        .value_name(value)
        .required(is_needed)
        .action(ArgAction::Set)
        .value_parser(value_parser!(u64))
        .help(help)
}

/// The object whose flows are told.
fn from<'a>(alloc: Global, is_needed: bool) -> Arg<'a>
    ensures rule { rule_of result ≡ number_rule (codes "from") is_needed }
    ensures local { result.global ≡ false }
{
    number(
        alloc,
        "from",
        "ID",
        "Of a clean dump, tell which objects flows from this one, 4 or #4 as in the names, reach",
        is_needed,
    )
}

/// The category outside of which flows are told.
fn category<'a>(alloc: Global, is_needed: bool) -> Arg<'a>
    ensures rule { rule_of result ≡ number_rule (codes "category") is_needed }
    ensures local { result.global ≡ false }
{
    number(
        alloc,
        "category",
        "N",
        "The category, 1 or #1 as in the names, outside of which these flows are: none goes on by an owner of it",
        is_needed,
    )
}

/// The label of the observer from whom threads are hidden.
fn hidden<'a>(alloc: Global) -> Arg<'a>
    ensures rule { rule_of result ≡ option_rule (codes "hidden") }
    ensures local { result.global ≡ false }
{
    Arg::new(alloc, "hidden")
        .long("hidden")
        .value_name("LABEL")
        .action(ArgAction::Set)
        .help(
            "Of a clean dump, tell which replies differ without the calls of threads that LABEL doesn't observe",
        )
}

/// The command. Where flows are asked for, it needs their object and their category.
fn command<'a>(alloc: Global, asks_flows: bool) -> Result<Command<'a>, Error>
    ensures app { IfOk result (λ c. app_of c ≡ audit_command asks_flows) }
    ensures memory { IfErr result (λ e. kind_of e ≡ ErrorKind.OutOfMemory) }
{
    let named = Command::new(alloc, "histar-audit").bin_name("histar-audit")?;
    let told = named
        .about("Says whether a dump is that of a run by the rules")
        .version(VERSION);
    let one = told.arg(file(alloc))?;
    let two = one.arg(migrated(alloc))?;
    let three = two.arg(from(alloc, asks_flows))?;
    let four = three.arg(category(alloc, asks_flows))?;
    let five = four.arg(hidden(alloc))?;
    let six = five.arg(names(
        alloc,
        "The names of the run, which histar run --names wrote",
    ))?;
    Ok(six)
}

/// What the words say, by what `clap` finds in them.
fn told_of<'a>(matches: &ArgMatches<'a>) -> AuditArgs<'a>
    ensures told { IsAuditOf (rows_of (found_of matches.now)) result }
    ensures migrate { result.options.migrate ≡ is_some result.migrate }
{
    let migrate = text_of(matches, "migrate");
    AuditArgs {
        options: AuditOptions {
            migrate: migrate.is_some(),
            flow: flow_of(matches),
        },
        dump: needed_text_of(matches, "FILE"),
        migrate,
        hidden: text_of(matches, "hidden"),
        names: text_of(matches, "names"),
    }
}

/// What the words say, the first of them being the program's name, or what `clap` answers to them: help, a fault of
/// usage, or want of memory. An object without a category is a fault of usage, and so is a category without an object.
pub fn read_audit_words<'a, S: AsStr>(alloc: Global, words: &'a [S]) -> Result<AuditArgs<'a>, Error>
    ensures told { IfOk result (λ told. IsAuditOf (audit_rows (map S.text words.entry.now)) told) }
    ensures path { (path : List ℕ) → path_of (map S.text words.entry.now) ≡ Some path
        → IfOk result (λ told. told.dump.now ≡ path) }
    ensures alone { (path : List ℕ) → path_of (map S.text words.entry.now) ≡ Some path
        → IfOk result (λ told. told.options ≡ record { migrate = false; flow = None }) }
    ensures hidden { (path : List ℕ) → path_of (map S.text words.entry.now) ≡ Some path
        → IfOk result (λ told. is_some told.hidden ≡ false) }
    ensures names { (path : List ℕ) → path_of (map S.text words.entry.now) ≡ Some path
        → IfOk result (λ told. is_some told.names ≡ false) }
    ensures memory { (path : List ℕ) → path_of (map S.text words.entry.now) ≡ Some path
        → IfErr result (λ e. kind_of e ≡ ErrorKind.OutOfMemory) }
    ensures migrate { IfOk result (λ told. told.options.migrate ≡ is_some told.migrate) }
{
    let either = command(alloc, false)?;
    let found = either.try_get_matches_from(words)?;
    if text_of(&found, "from").is_some() == text_of(&found, "category").is_some() {
        return Ok(told_of(&found));
    }
    let both = command(alloc, true)?;
    let complete = both.try_get_matches_from(words)?;
    Ok(told_of(&complete))
}

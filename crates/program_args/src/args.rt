//! Arguments that more than one command has.
ghost use Rattle.std.specs.Prelude.{◌≡◌, ◌∷◌, [], false, codes, option_map};
ghost use Rattle.clap.specs.Matches.{found_of};
ghost use Rattle.clap.specs.Walk.{first_of, rows_of, rule_of};
ghost use Rattle.program_args.specs.Commands.{default_rule, file_rule, option_rule, pages_rule};
ghost use Rattle.program_args.specs.Told.{flag_in, flow_in, number_in, pages_in, text_in};

use base::{Category, ObjectId};
use clap::{Arg, ArgAction, ArgMatches, value_parser};
use std::alloc::Global;

/// The path of the script.
pub fn script<'a>(alloc: Global, help: &'a str) -> Arg<'a>
    ensures rule { rule_of result ≡ file_rule (codes "SCRIPT") }
    ensures local { result.global ≡ false }
{
    Arg::new(alloc, "SCRIPT")
        .required(true)
        .action(ArgAction::Set)
        .help(help)
}

/// A text, behind its name.
pub fn option<'a>(alloc: Global, name: &'a str, value: &'a str) -> Arg<'a>
    ensures rule { rule_of result ≡ option_rule name.entry.now }
    ensures local { result.global ≡ false }
{
    Arg::new(alloc, name)
        .long(name)
        .value_name(value)
        .action(ArgAction::Set)
}

/// A file of names.
pub fn names<'a>(alloc: Global, help: &'a str) -> Arg<'a>
    ensures rule { rule_of result ≡ option_rule (codes "names") }
    ensures local { result.global ≡ false }
{
    option(alloc, "names", "FILE").help(help)
}

/// A number that has a default.
pub fn number<'a>(alloc: Global, name: &'a str, default: &'a str, help: &'a str) -> Arg<'a>
    ensures rule { rule_of result ≡ default_rule name.entry.now default.entry.now }
    ensures local { result.global ≡ false }
{
    Arg::new(alloc, name)
        .long(name)
        .value_name("N")
        .default_value(default)
        .help(help)
}

/// How many pages the root has.
pub fn pages<'a>(alloc: Global) -> Arg<'a>
    ensures rule { rule_of result ≡ pages_rule }
    ensures local { result.global ≡ false }
{
    number(
        alloc,
        "pages",
        "64",
        "The quota of the root, in pages of 256 bytes",
    )
    .value_parser(value_parser!(u64).range(8..1025))
}

/// The number that an argument spells, where it is there.
pub fn number_of(told: &ArgMatches<'_>, name: &str) -> Option<u64>
    ensures { result ≡ number_in 64 name.now (rows_of (found_of told.now)) }
{
    told.get_one::<u64>(name)
}

/// The number of 32 bits that an argument spells, where it is there.
pub fn short_number_of(told: &ArgMatches<'_>, name: &str) -> Option<u32>
    ensures { result ≡ number_in 32 name.now (rows_of (found_of told.now)) }
{
    told.get_one::<u32>(name)
}

/// Whether a flag is there.
pub fn flag_of(told: &ArgMatches<'_>, name: &str) -> bool
    ensures { result ≡ flag_in name.now (rows_of (found_of told.now)) }
{
    told.get_one::<bool>(name).unwrap_or(false)
}

/// The text of an argument, where it is there.
pub fn text_of<'a>(told: &ArgMatches<'a>, name: &str) -> Option<&'a str>
    ensures { option_map (λ text. text.now) result ≡ first_of name.now (rows_of (found_of told.now)) }
{
    told.get_str(name)
}

/// The text of an argument that has to be there.
pub fn needed_text_of<'a>(told: &ArgMatches<'a>, name: &str) -> &'a str
    ensures { result.now ≡ text_in name.now (rows_of (found_of told.now)) }
{
    match text_of(told, name) {
        Some(text) => text,
        None => "",
    }
}

/// How many pages the root has, 8 to 1,024.
pub fn pages_of(told: &ArgMatches<'_>) -> u32
    ensures { result ≡ pages_in (rows_of (found_of told.now)) }
{
    short_number_of(told, "pages").unwrap_or(64)
}

/// The object and the category of the flows that are asked for.
pub fn flow_of(told: &ArgMatches<'_>) -> Option<(ObjectId, Category)>
    ensures { result ≡ flow_in (rows_of (found_of told.now)) }
{
    let from = number_of(told, "from")?;
    let category = number_of(told, "category")?;
    Some((ObjectId::new(from), Category(category)))
}

//! The command line of `histar show`.
ghost use Rattle.std.specs.Prelude.{◌≡◌, ◌++◌, IfOk, IsSomeAnd, true, false, codes, map, option_map};
ghost use Rattle.clap.specs.Matches.{found_of};
ghost use Rattle.clap.specs.Simple.{App, new_app, subcommand_of};
ghost use Rattle.clap.specs.Walk.{rows_of, rule_of};
ghost use Rattle.program_args.specs.Commands.{IsCommand, TakesColours, any_number, beside_rule, dot_command, file_rule};
ghost use Rattle.program_args.specs.Commands.{flag_rule, line_rule, option_rule, page_command, parsed_rule};
ghost use Rattle.program_args.specs.Commands.{show_command, tree_command, view_command, why_command, with_flows};
ghost use Rattle.program_args.specs.Showing.{help_of, words_of_show};
ghost use Rattle.program_args.specs.Told.{IsShownOf, colours_of, names_of, number_in, out_of, view_in};

use crate::args::{flag_of, flow_of, names, needed_text_of, number_of, option, text_of};
use crate::versions::VERSION;
use base::{Category, ObjectId};
use clap::{Arg, ArgAction, ArgMatches, Command, Error, value_parser};
use std::alloc::{AllocError, Global};
use std::convert::AsStr;

/// Whether a tree is in colours.
#[derive(Clone, Copy, Debug, PartialEq, Eq)]
pub enum Colours {
    /// Where the output is a terminal and `NO_COLOR` isn't set to something.
    Auto,
    /// Always.
    Always,
    /// Never.
    Never,
}

/// What is shown of a dump.
#[derive(Clone, Copy, Debug, PartialEq, Eq)]
pub enum View {
    /// Why what a line tells is answered as it is.
    Why {
        /// The line, from 1; the first false one where none is named.
        line: Option<u64>,
        /// Whether all conditions are told, or the reasons of a refusal alone.
        is_whole: bool,
    },
    /// The objects as a tree.
    Tree {
        /// After how many events, after all where no count is told.
        after: Option<u64>,
        /// The thread that is asked about: what it may delete is marked.
        asked: Option<ObjectId>,
        /// Whether in colours.
        colours: Colours,
    },
    /// The dump as JSON.
    Json,
    /// The objects as a graph, and which of them flows from an object outside a category reach, where they are asked for.
    Dot(Option<(ObjectId, Category)>),
    /// The dump as a page, and which objects flows from an object outside a category reach, where they are asked for.
    Page(Option<(ObjectId, Category)>),
}

/// What the words of `histar show` ask for.
#[derive(Clone, Copy, Debug, PartialEq, Eq)]
pub struct ShowArgs<'a> {
    /// The path of the dump.
    pub dump: &'a str,
    /// What is shown of it.
    pub view: View,
    /// The path of the page, where one is written.
    pub out: Option<&'a str>,
    /// The path of the names by which it is shown, where they are asked for.
    pub names: Option<&'a str>,
}

/// What is told of a file of names.
const NAMES: &str =
    "The names of the run, which histar run --names wrote, to show in place of numbers";

/// What is told of a category beside an object that flows are from.
const OUTSIDE: &str =
    "The category, 1 or #1, outside of which these flows are: none goes on by an owner of it";

/// The path of the dump.
fn dump<'a>(alloc: Global) -> Arg<'a>
    ensures rule { rule_of result ≡ file_rule (codes "DUMP") }
    ensures local { result.global ≡ false }
{
    Arg::new(alloc, "DUMP")
        .required(true)
        .action(ArgAction::Set)
        .help("The dump to look at")
}

/// The line that is asked about.
fn line<'a>(alloc: Global) -> Arg<'a>
    ensures rule { rule_of result ≡ line_rule }
    ensures local { result.global ≡ false }
{
    Arg::new(alloc, "LINE")
        .action(ArgAction::Set)
        .help(
            "The line of a call, a read, an event or a batch, from 1; the first false line where none is named",
        )
        .value_parser(value_parser!(u64).range(1..9223372036854775807))
}

/// After how many events a tree is.
fn after<'a>(alloc: Global) -> Arg<'a>
    ensures rule { rule_of result ≡ parsed_rule (codes "after") any_number }
    ensures local { result.global ≡ false }
{
    number(alloc, "after", "N").help(
        "After how many events of the dump; after all where no count is told",
    )
}

/// The thread that a tree is asked about.
fn asked<'a>(alloc: Global) -> Arg<'a>
    ensures rule { rule_of result ≡ parsed_rule (codes "as") any_number }
    ensures local { result.global ≡ false }
{
    number(alloc, "as", "ID").help("Mark as deletable what the thread ID, 4 or #4, may unreference")
}

/// Whether a tree is in colours.
fn color<'a>(alloc: Global) -> Arg<'a>
    ensures rule { (parser : _) × TakesColours parser × (rule_of result ≡ parsed_rule (codes "color") parser) }
    ensures local { result.global ≡ false }
{
    option(alloc, "color", "WHEN")
        .value_parser(["auto", "always", "never"].as_slice())
        .help(
            "Whether in colours; auto, which is the default, asks whether the output is a terminal and NO_COLOR is empty",
        )
}

/// The file of a page.
fn out<'a>(alloc: Global) -> Arg<'a>
    ensures rule { rule_of result ≡ record (option_rule (codes "out")) { required = true } }
    ensures local { result.global ≡ false }
{
    option(alloc, "out", "FILE")
        .required(true)
        .help("The file that the page is written to")
}

/// A number of 64 bits, behind its name.
fn number<'a>(alloc: Global, name: &'a str, value: &'a str) -> Arg<'a>
    ensures rule { rule_of result ≡ parsed_rule name.entry.now any_number }
    ensures local { result.global ≡ false }
{
    option(alloc, name, value).value_parser(value_parser!(u64))
}

/// A number that another one has to stand beside.
fn number_beside<'a>(
    alloc: Global,
    name: &'a str,
    value: &'a str,
    other: &'a str,
) -> Result<Arg<'a>, AllocError>
    ensures rule { IfOk result (λ arg. rule_of arg ≡ beside_rule name.entry.now) }
    ensures local { IfOk result (λ arg. arg.global ≡ false) }
{
    number(alloc, name, value).requires_arg(other)
}

/// The object that flows are from, and the category outside of which they are.
fn with_flows<'a>(
    alloc: Global,
    command: Command<'a>,
    help: &'a str,
) -> Result<Command<'a>, AllocError>
    ensures { (app : App) → IsCommand app command.entry → IfOk result (IsCommand (with_flows app)) }
{
    let object = number_beside(alloc, "from", "ID", "category")?.help(help);
    let category = number_beside(alloc, "category", "N", "from")?.help(OUTSIDE);
    command.arg(object)?.arg(category)
}

/// Whether all conditions are told.
fn all<'a>(alloc: Global) -> Arg<'a>
    ensures rule { rule_of result ≡ flag_rule (codes "all") }
    ensures local { result.global ≡ false }
{
    Arg::new(alloc, "all")
        .long("all")
        .action(ArgAction::SetTrue)
        .help("Tell each condition, also those that refuse nothing")
}

/// The words of `why`.
fn why<'a>(alloc: Global) -> Result<Command<'a>, AllocError>
    ensures { IfOk result (IsCommand why_command) }
{
    Command::new(alloc, "why")
        .about("Tells why a call or a read of a dump is refused")
        .arg(dump(alloc))?
        .arg(line(alloc))?
        .arg(all(alloc))?
        .arg(names(alloc, NAMES))
}

/// The words of `tree`.
fn tree<'a>(alloc: Global) -> Result<Command<'a>, AllocError>
    ensures { IfOk result (λ c. (parser : _) × TakesColours parser × IsCommand (tree_command parser) c) }
{
    Command::new(alloc, "tree")
        .about("Shows the objects that a dump leads to as a tree")
        .arg(dump(alloc))?
        .arg(after(alloc))?
        .arg(asked(alloc))?
        .arg(color(alloc))?
        .arg(names(alloc, NAMES))
}

/// The words of `json`.
fn json<'a>(alloc: Global) -> Result<Command<'a>, AllocError>
    ensures { IfOk result (IsCommand (view_command (codes "json"))) }
{
    Command::new(alloc, "json")
        .about("Shows a dump as JSON, an object for each line")
        .arg(dump(alloc))
}

/// The words of `dot`.
fn dot<'a>(alloc: Global) -> Result<Command<'a>, AllocError>
    ensures { IfOk result (IsCommand dot_command) }
{
    let dot = Command::new(alloc, "dot")
        .about("Shows the objects that a dump leads to as a graph for Graphviz")
        .arg(dump(alloc))?
        .arg(names(alloc, NAMES))?;
    with_flows(
        alloc,
        dot,
        "Of a clean dump, show in red which objects flows from this one, 4 or #4, reach",
    )
}

/// The words of `page`.
fn page<'a>(alloc: Global) -> Result<Command<'a>, AllocError>
    ensures { IfOk result (IsCommand page_command) }
{
    let page = Command::new(alloc, "page")
        .about("Writes a dump as a page of HTML, with the tree after each event")
        .arg(dump(alloc))?
        .arg(out(alloc))?
        .arg(names(alloc, NAMES))?;
    with_flows(
        alloc,
        page,
        "Of a clean dump, mark which objects flows from this one, 4 or #4, reach",
    )
}

/// The colours that a word asks for.
fn colours_of(when: &str) -> Colours
    ensures { result ≡ colours_of when.now }
{
    match when {
        "always" => Colours::Always,
        "never" => Colours::Never,
        _ => Colours::Auto,
    }
}

/// What `show` does.
const ABOUT: &str = "Shows what a dump tells";

/// The command `show` as a line of the help of `histar`. Its own words are read apart.
pub fn show<'a>(alloc: Global) -> Command<'a>
    ensures { IsCommand (new_app (codes "show")) result }
{
    Command::new(alloc, "show").about(ABOUT)
}

/// The first words, and after them more.
fn joined<'a>(
    alloc: Global,
    first: &[&'a str],
    more: &[&'a str],
) -> Result<Vec<&'a str>, AllocError>
    ensures { IfOk result (λ all. map (λ w. w.now) all.items ≡ map (λ w. w.now) first.now ++ map (λ w. w.now) more.now) }
{
    let mut all = Vec::with_capacity(alloc, first.len() + more.len())?;
    all.extend_from_slice(first)?;
    all.extend_from_slice(more)?;
    Ok(all)
}

/// The words that call for the help of `show`, where those after `help` do.
fn words_of_help<'a>(alloc: Global, words: &[&'a str]) -> Result<Option<Vec<&'a str>>, AllocError>
    ensures { IfOk result (λ of. option_map (λ ws. map (λ w. w.now) ws.items) of ≡ help_of (map (λ w. w.now) words.now)) }
{
    let [verb, more @ ..] = words else {
        return Ok(None);
    };
    if *verb == "show" {
        let all = joined(alloc, &["show", "help"], more)?;
        return Ok(Some(all));
    }
    Ok(None)
}

/// The words of `histar show`, the first of them being `show`, where these words ask for it; `help show WORDS` is `show help WORDS`.
pub fn words_of_show<'a>(
    alloc: Global,
    words: &[&'a str],
) -> Result<Option<Vec<&'a str>>, AllocError>
    ensures { IfOk result (λ of. option_map (λ ws. map (λ w. w.now) ws.items) of ≡ words_of_show (map (λ w. w.now) words.now)) }
{
    let [_, verb, more @ ..] = words else {
        return Ok(None);
    };
    if *verb == "show" {
        let all = joined(alloc, &["show"], more)?;
        return Ok(Some(all));
    }
    if *verb == "help" {
        return words_of_help(alloc, more);
    }
    Ok(None)
}

/// The whole command.
fn command<'a>(alloc: Global) -> Result<Command<'a>, AllocError>
    ensures { IfOk result (λ c. (parser : _) × TakesColours parser × IsCommand (show_command parser) c) }
{
    let all = Command::new(alloc, "histar-show")
        .bin_name("histar show")?
        .about(ABOUT)
        .version(VERSION)
        .subcommand_required(true);
    let one = all.subcommand(why(alloc)?)?;
    let two = one.subcommand(tree(alloc)?)?;
    let three = two.subcommand(json(alloc)?)?;
    let four = three.subcommand(dot(alloc)?)?;
    four.subcommand(page(alloc)?)
}

/// The path of the page, where one is written.
fn out_of<'a>(view: &View, words: &ArgMatches<'a>) -> Option<&'a str>
    ensures { option_map (λ path. path.now) result ≡ out_of view.now (rows_of (found_of words.now)) }
{
    match view {
        View::Page(_) => text_of(words, "out"),
        _ => None,
    }
}

/// The path of the names, where the view shows them.
fn names_of<'a>(view: &View, words: &ArgMatches<'a>) -> Option<&'a str>
    ensures { option_map (λ path. path.now) result ≡ names_of view.now (rows_of (found_of words.now)) }
{
    match view {
        View::Json => None,
        _ => text_of(words, "names"),
    }
}

/// The thread that a tree is asked about.
fn asked_of(words: &ArgMatches<'_>) -> Option<ObjectId>
    ensures { result ≡ number_in 64 (codes "as") (rows_of (found_of words.now)) }
{
    match number_of(words, "as") {
        Some(id) => Some(ObjectId::new(id)),
        None => None,
    }
}

/// What is shown, by the name of the view.
fn view_of(name: &str, words: &ArgMatches<'_>) -> View
    ensures { result ≡ view_in name.now (rows_of (found_of words.now)) }
{
    match name {
        "tree" => View::Tree {
            after: number_of(words, "after"),
            asked: asked_of(words),
            colours: colours_of(needed_text_of(words, "color")),
        },
        "json" => View::Json,
        "dot" => View::Dot(flow_of(words)),
        "page" => View::Page(flow_of(words)),
        _ => View::Why {
            line: number_of(words, "LINE"),
            is_whole: flag_of(words, "all"),
        },
    }
}

/// What the words of a view ask for.
fn shown_of<'a>(name: &str, words: &ArgMatches<'a>) -> ShowArgs<'a>
    ensures { IsShownOf (name.now, rows_of (found_of words.now)) result }
{
    let view = view_of(name, words);
    ShowArgs {
        dump: needed_text_of(words, "DUMP"),
        view,
        out: out_of(&view, words),
        names: names_of(&view, words),
    }
}

/// What the words ask for, the first of them being `show`, or what `clap` answers to them: help, a fault of
/// usage, or want of memory.
pub fn read_show_words<'a, S: AsStr>(alloc: Global, words: &'a [S]) -> Result<ShowArgs<'a>, Error>
    ensures { IfOk result (λ told. (parser : _) × TakesColours parser
        × IsSomeAnd (subcommand_of (show_command parser) (map S.text words.entry.now)) (λ found. IsShownOf found told)) }
{
    let matches = command(alloc)?.try_get_matches_from(words)?;
    let Some((name, args)) = matches.subcommand() else {
        return Ok(ShowArgs {
            dump: "",
            view: View::Json,
            out: None,
            names: None,
        });
    };
    Ok(shown_of(name, args))
}

//! `probe SCENE`: what only a caller of the crates can see, scene by scene. A scene calls public functions and looks at what they
//! answer: structures against values from outside and against a twin, kernels by their meters, seats in threads. It prints how many
//! facts hold, or the first that does not. `probe SCENE again` makes calls again for which there was no memory, so that it ends alike
//! whichever request is refused.
//!
//! `probe run SCRIPT [LIMITS]` plays a script on both machines; `probe every N run SCRIPT [LIMITS]` also compares what they keep
//! after each N lines. `script`, `dump` and `migrate FILE` read a text and write it again, and `replies` prints a reply of each
//! kind. Without words it plays its standard input on both machines.
#![tactic(auto)]

mod both;
mod bound_names;
mod breaking;
mod laws;
mod numbers;
mod replies;
mod scenes;
mod streams;
mod texts;

use anyhow::Result;
use base::NoMemory;
use happy_calls::look::Look;
use program_args::{Verb, read_words, tell_answer};
use program_io::{Counted, DEFAULTS, Fault, Hushed, Sink, deliver, open_input, words_of};
use std::alloc::Global;
use std::cell::Cell;
use std::io;
use std::io::Write;
use std::process::ExitCode;
use text_words::read_number;
use texts::{Again, Kind, written_again};

/// The program's name.
pub const NAME: &str = "probe";

/// Prints a text, or tells why there is none, and answers the status.
fn printed<S: Sink, E: Write>(text: Again, out: &mut S, err: &mut E) -> u8 {
    match text {
        Again::Text(text) => match deliver(out, text.as_slice()) {
            Ok(()) => 0,
            Err(fault) => fault.tell(NAME, err),
        },
        Again::Line(number, said) => {
            let _ = writeln!(err, "{NAME}: line {number}: {said}");
            1
        }
        Again::Fault(fault) => fault.tell(NAME, err),
    }
}

/// Prints a reply of each kind, or tells that there was no memory for them, and answers the status.
fn print_replies<S: Sink, E: Write>(alloc: Global, out: &mut S, err: &mut E) -> u8 {
    let text = match replies::all(alloc) {
        Ok(text) => Again::Text(text),
        Err(NoMemory) => Again::Fault(Fault::Memory),
    };
    printed(text, out, err)
}

/// Plays a script on both machines, which are compared after so many lines each where that is asked for, and answers the status.
fn run_both(rt: &HostRuntime, words: &[String], every: Option<u64>) -> u8 {
    let alloc = rt.alloc();
    let mut out = Counted::new(io::writer(rt));
    let mut err = rt.stderr();
    let args = match read_words(alloc, words) {
        Ok(Verb::Run(args)) => args,
        Ok(_) => return tell(rt, "run", "no script is named"),
        Err(answer) => return tell_answer(alloc, NAME, &answer, &mut out, &mut err),
    };
    let mut script = match open_input(rt, NAME, args.script, &mut err) {
        Ok(script) => script,
        Err(status) => return status,
    };
    both::ended(rt, &mut script, &args.options.limits, every)
}

/// Reads a text of this kind from a file and prints it written again, and answers the status.
fn write_again(rt: &HostRuntime, kind: Kind, path: &str) -> u8 {
    let mut out = Counted::new(io::writer(rt));
    let mut err = rt.stderr();
    let mut file = match open_input(rt, NAME, path, &mut err) {
        Ok(file) => file,
        Err(status) => return status,
    };
    printed(
        written_again(rt.alloc(), kind, &mut file),
        &mut out,
        &mut err,
    )
}

/// Tells how a scene was played, and answers the status: 0 where all facts hold.
fn tell_played(rt: &HostRuntime, scene: &str, look: &Look, played: Result<bool>) -> u8 {
    match played {
        Ok(true) => tell_look(rt, scene, look),
        Ok(false) => tell(rt, scene, "there is no such scene"),
        Err(error) => {
            let _ = writeln!(rt.stderr(), "{NAME}: {scene}: {error}");
            1
        }
    }
}

/// Tells why a scene was not played, and answers the status.
fn tell(rt: &HostRuntime, scene: &str, said: &str) -> u8 {
    let _ = writeln!(rt.stderr(), "{NAME}: {scene}: {said}");
    2
}

/// Tells what a scene has seen, and answers the status.
fn tell_look(rt: &HostRuntime, scene: &str, look: &Look) -> u8 {
    if let Some((part, place)) = look.first_wrong() {
        let _ = writeln!(
            rt.stderr(),
            "{NAME}: {scene}: {part}: fact {place} does not hold"
        );
        return 1;
    }
    match println!(rt; "{scene}: {} facts hold", look.facts()) {
        Ok(()) => 0,
        Err(_) => Fault::Output.tell(NAME, &mut rt.stderr()),
    }
}

/// The kind of text that a word names.
fn kind_of(word: &str) -> Option<Kind> {
    if word == "script" {
        Some(Kind::Script)
    } else if word == "dump" {
        Some(Kind::Dump)
    } else if word == "migrate" {
        Some(Kind::FirstFormat)
    } else {
        None
    }
}

/// The word at a place, nothing where there is none.
fn word_at(words: &[String], place: usize) -> &str {
    match words.get(place) {
        Some(word) => word.as_str(),
        None => "",
    }
}

/// Whether the words name a scene.
fn is_scene(word: &str) -> bool {
    word != "" && word != "run" && word != "every" && word != "replies" && kind_of(word).is_none()
}

/// Acts on words that name no scene, and answers the status.
fn act(rt: &HostRuntime, words: &[String]) -> u8 {
    let word = word_at(words, 1);
    if word == "run" {
        return run_both(rt, words, None);
    }
    if word == "every" {
        return run_every(rt, words);
    }
    match kind_of(word) {
        Some(kind) => write_again(rt, kind, word_at(words, 2)),
        None if word == "replies" => {
            print_replies(
                rt.alloc(),
                &mut Counted::new(io::writer(rt)),
                &mut rt.stderr(),
            )
        }
        None => both::ended(rt, &mut rt.reader(), &DEFAULTS.limits, None),
    }
}

/// Plays a script on both machines, which are compared after so many lines each as the word before `run` says.
fn run_every(rt: &HostRuntime, words: &[String]) -> u8 {
    let Some(every) = read_number(word_at(words, 2).as_bytes(), u64::MAX) else {
        return tell(rt, "every", "no number of lines is told");
    };
    let (_, rest) = words.split_at(words.len().min(2));
    run_both(rt, rest, Some(every))
}

/// The words, asked for again where there was no memory. The error is the status.
fn words_again(rt: &HostRuntime) -> Result<Vec<String>, u8> {
    let is_told = Cell::new(true);
    let mut quiet = Hushed::new(rt.stderr(), &is_told);
    match words_of(rt, NAME, &mut quiet) {
        Ok(words) => Ok(words),
        Err(_) => words_of(rt, NAME, &mut rt.stderr()),
    }
}

fn main(rt: HostRuntime) -> ExitCode {
    let words = match words_again(&rt) {
        Ok(words) => words,
        Err(status) => return ExitCode::from(status),
    };
    let scene = word_at(words.as_slice(), 1);
    if !is_scene(scene) {
        return ExitCode::from(act(&rt, words.as_slice()));
    }
    let mut look = Look::begin();
    let is_again = word_at(words.as_slice(), 2) == "again";
    let played = scenes::play(&rt, scene, is_again, &mut look);
    ExitCode::from(tell_played(&rt, scene, &look, played))
}

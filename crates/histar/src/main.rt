//! `histar run SCRIPT` plays a script, with a dump of the run and its names where they are asked for; `check SCRIPT` says what is
//! wrong or doubtful in it; `try` is a dialogue with a newly booted kernel, over the standard input; `show` tells what a dump shows.
//! Without words it plays its standard input with the default options.
#![tactic(auto)]

mod dialogue;
mod run;
mod show;
mod tips;

use check_text::{check_on, plain_on};
use program_args::{CheckArgs, Verb, read_words, tell_answer, without_marks, words_of_show};
use program_io::{Counted, DEFAULTS, Fault, Hushed, Piped, Sink, open_input, words_of};
use script_runner::{NAME, histar_on};
use std::cell::Cell;
use std::io;
use std::io::Write;
use std::process::ExitCode;

/// What stands for the path of the standard input, where lines of it are told.
const INPUT: &str = "<stdin>";

/// Checks a script, or prints its exact form. The answer is the status.
fn check<S: Sink, E: Write>(
    rt: &HostRuntime,
    args: &CheckArgs<'_>,
    out: &mut S,
    err: &mut E,
) -> u8 {
    let path = args.script;
    let mut script = match open_input(rt, check_text::NAME, path, err) {
        Ok(script) => script,
        Err(status) => return status,
    };
    if args.is_plain {
        plain_on(rt.alloc(), path, &mut script, out, err)
    } else {
        check_on(rt.alloc(), path, &mut script, out, err)
    }
}

fn main(rt: HostRuntime) -> ExitCode {
    let alloc = rt.alloc();
    let is_gone = Cell::new(false);
    let mut out = Counted::new(Piped::new(io::writer(&rt), &is_gone));
    let mut err = Hushed::new(rt.stderr(), &is_gone);
    let words = match words_of(&rt, NAME, &mut err) {
        Ok(words) => words,
        Err(status) => return ExitCode::from(status),
    };
    let Ok(typed) = without_marks(alloc, words.as_slice()) else {
        return ExitCode::from(Fault::Memory.tell(NAME, &mut err));
    };
    if words.len() <= 1 {
        let mut script = rt.reader();
        return match histar_on(&rt, alloc, INPUT, &mut script, &DEFAULTS, &mut out) {
            Ok(_) => ExitCode::from(0),
            Err(fault) => ExitCode::from(fault.tell(&mut err)),
        };
    }
    let Ok(of_show) = words_of_show(alloc, typed.as_slice()) else {
        return ExitCode::from(Fault::Memory.tell(NAME, &mut err));
    };
    if let Some(words) = of_show {
        return ExitCode::from(show::show(&rt, words.as_slice(), &mut out, &mut err));
    }
    let status = match read_words(alloc, typed.as_slice()) {
        Ok(Verb::Run(args)) => run::run(&rt, alloc, &args, &mut out, &mut err),
        Ok(Verb::Check(args)) => check(&rt, &args, &mut out, &mut err),
        Ok(Verb::Try(limits)) => dialogue::ask(&rt, &limits, &mut out, &mut err),
        Err(answer) => {
            let status = tell_answer(alloc, NAME, &answer, &mut out, &mut err);
            tips::tell_tip(alloc, typed.as_slice(), &answer, &mut err);
            status
        }
    };
    ExitCode::from(status)
}

//! `histar-audit FILE`, with a clean dump of format 1 written anew in format 2 where that is asked for. Without words it
//! audits its standard input.
#![tactic(auto)]

use crate::audit_program::{Asked, AuditEnd, NAME, audit_on, read_label};
use call_text::Named;
use label_lattice::Label;
use program_args::{AuditArgs, read_audit_words, tell_answer, without_marks};
use program_io::{
    AUDIT_DEFAULTS, Counted, Fault, Hushed, Piped, Sink, beside, is_input, open_input, put_file,
    words_of,
};
use shown_dumps::states::names_on;
use std::alloc::Global;
use std::cell::Cell;
use std::io;
use std::io::Write;
use std::process::ExitCode;

/// Ends an audit: writes the dump in format 2 where there is one to write. The answer is the status.
fn ended_with<E: Write>(
    rt: &HostRuntime,
    told: &AuditArgs<'_>,
    beside: &str,
    ended: &AuditEnd,
    err: &mut E,
) -> u8 {
    let path = told.migrate.unwrap_or("");
    if told.options.migrate && !ended.file.is_empty() {
        if let Err(fault) = put_file(rt, path, beside, ended.file.as_slice()) {
            return fault.tell(NAME, err);
        }
    }
    ended.status
}

/// The label of the observer who is told of, if any. A label that there is not is a fault of usage, told in one line, and no
/// memory is told as ever: the error is the status.
fn observer_of<E: Write>(
    alloc: Global,
    told: &AuditArgs<'_>,
    err: &mut E,
) -> Result<Option<Label>, u8> {
    let Some(text) = told.hidden else {
        return Ok(None);
    };
    match read_label(alloc, text.as_bytes()) {
        Ok(Some(label)) => Ok(Some(label)),
        Ok(None) => {
            let _ = writeln!(err, "error: invalid value '{text}' for '--hidden <LABEL>'");
            Err(2)
        }
        Err(_) => Err(Fault::Memory.tell(NAME, err)),
    }
}

/// The names that stand at a path, none where none is told. The error is the status that the program ends with.
fn names_at<E: Write>(rt: &HostRuntime, path: Option<&str>, err: &mut E) -> Result<Vec<Named>, u8> {
    let Some(path) = path else {
        return Ok(Vec::new(rt.alloc()));
    };
    let mut input = open_input(rt, NAME, path, err)?;
    names_on(rt.alloc(), NAME, path, &mut input, err)
}

/// Audits as the arguments ask. The answer is the status, as the error is: 2 where the dump of format 2 would replace the names.
fn audit<S: Sink, E: Write>(
    rt: &HostRuntime,
    told: &AuditArgs<'_>,
    out: &mut S,
    err: &mut E,
) -> Result<u8, u8> {
    let alloc = rt.alloc();
    let hidden = observer_of(alloc, told, err)?;
    let names = [told.names.unwrap_or("")];
    if is_input(rt, NAME, told.migrate.unwrap_or(""), &names, err) {
        return Err(2);
    }
    let mut dump = open_input(rt, NAME, told.dump, err)?;
    let names = names_at(rt, told.names, err)?;
    let Ok(beside) = beside(alloc, told.migrate.unwrap_or("")) else {
        return Err(Fault::Memory.tell(NAME, err));
    };
    let asked = Asked {
        options: told.options,
        hidden,
        names: names.as_slice(),
    };
    let ended = audit_on(alloc, &mut dump, &asked, out, err);
    Ok(ended_with(rt, told, beside.as_str(), &ended, err))
}

fn main(rt: HostRuntime) -> ExitCode {
    let alloc = rt.alloc();
    let is_gone = Cell::new(false);
    let mut out = Counted::new(Piped::new(io::writer(&rt), &is_gone));
    let mut err = Hushed::new(rt.stderr(), &is_gone);
    let words = match words_of(&rt, NAME, &mut err) {
        Ok(words) => words,
        Err(status) => return ExitCode::from(status),
    };
    let Ok(typed) = without_marks(alloc, words.as_slice()) else {
        return ExitCode::from(Fault::Memory.tell(NAME, &mut err));
    };
    if words.len() <= 1 {
        let mut dump = rt.reader();
        let plain = Asked {
            options: AUDIT_DEFAULTS,
            hidden: None,
            names: &[],
        };
        let ended = audit_on(alloc, &mut dump, &plain, &mut out, &mut err);
        return ExitCode::from(ended.status);
    }
    let told = match read_audit_words(alloc, typed.as_slice()) {
        Ok(told) => told,
        Err(answer) => return ExitCode::from(tell_answer(alloc, NAME, &answer, &mut out, &mut err)),
    };
    match audit(&rt, &told, &mut out, &mut err) {
        Ok(status) => ExitCode::from(status),
        Err(status) => ExitCode::from(status),
    }
}

mod audit_program;

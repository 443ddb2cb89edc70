//! `histar show`: why a call or a read of a dump is answered as it is, the objects that the dump leads to, as a tree or a graph, its lines as
//! JSON, and all of it as a page. What has a name is shown by it.
use crate::tips::tell_flag;
use base::{Category, ObjectId};
use call_text::Named;
use page_text::page_on;
use program_args::{Colours, ShowArgs, View, read_show_words, tell_answer};
use program_io::{Fault, Sink, beside, is_input, open_input, put_file};
use shown_dumps::dot::dot_on;
use shown_dumps::json::json_on;
use shown_dumps::states::{NAME, names_on};
use shown_dumps::tree::{Look, tree_on};
use shown_dumps::why::{Telling, why_on};
use std::env;
use std::env::VarError;
use std::io::{IsTerminal, Read, Write};

/// What a page has beside its dump, and where it goes.
#[derive(Clone, Copy)]
struct Paged<'a> {
    flow: Option<(ObjectId, Category)>,
    names: &'a [Named],
    path: &'a str,
}

/// Whether `NO_COLOR` is set to something.
fn is_plain_asked(rt: &HostRuntime) -> bool {
    match env::var(rt, "NO_COLOR") {
        Ok(value) => !value.is_empty(),
        Err(VarError::NotPresent) => false,
        Err(_) => true,
    }
}

/// Whether a tree is in colours.
fn is_coloured(rt: &HostRuntime, colours: Colours) -> bool {
    match colours {
        Colours::Auto => rt.stdout().is_terminal() && !is_plain_asked(rt),
        Colours::Always => true,
        Colours::Never => false,
    }
}

/// The names that stand at a path, none where none is told. The error is the status that the program ends with.
fn names_at<E: Write>(rt: &HostRuntime, path: Option<&str>, err: &mut E) -> Result<Vec<Named>, u8> {
    let alloc = rt.alloc();
    let Some(path) = path else {
        return Ok(Vec::new(alloc));
    };
    let mut input = open_input(rt, NAME, path, err)?;
    names_on(alloc, NAME, path, &mut input, err)
}

/// Writes the page of the dump that a reader gives to a file. The answer is the status.
fn put_page<I: Read, S: Sink, E: Write>(
    rt: &HostRuntime,
    dump: &mut I,
    paged: &Paged<'_>,
    out: &mut S,
    err: &mut E,
) -> u8 {
    let alloc = rt.alloc();
    let Paged { flow, names, path } = *paged;
    let Ok(beside) = beside(alloc, path) else {
        return Fault::Memory.tell(NAME, err);
    };
    let page = match page_on(alloc, dump, flow, names, out, err) {
        Ok(page) => page,
        Err(status) => return status,
    };
    match put_file(rt, path, beside.as_str(), page.as_slice()) {
        Ok(()) => 0,
        Err(fault) => fault.tell(NAME, err),
    }
}

/// Shows what is asked for of a dump, by the names that are known. The answer is the status.
fn show_dump<I: Read, S: Sink, E: Write>(
    rt: &HostRuntime,
    told: &ShowArgs<'_>,
    names: &[Named],
    dump: &mut I,
    out: &mut S,
    err: &mut E,
) -> u8 {
    let alloc = rt.alloc();
    match told.view {
        View::Why { line, is_whole } => {
            let telling = Telling { names, is_whole };
            why_on(alloc, dump, line, &telling, out, err)
        }
        View::Tree {
            after,
            asked,
            colours,
        } => {
            let look = Look {
                names,
                asked,
                is_coloured: is_coloured(rt, colours),
            };
            tree_on(alloc, dump, after, &look, out, err)
        }
        View::Json => json_on(alloc, dump, out, err),
        View::Dot(flow) => dot_on(alloc, dump, flow, names, out, err),
        View::Page(flow) => {
            let path = told.out.unwrap_or("");
            let paged = Paged { flow, names, path };
            put_page(rt, dump, &paged, out, err)
        }
    }
}

/// Tells of the dump on the standard input what is wrong at its first false line. The answer is the status.
fn show_input<S: Sink, E: Write>(rt: &HostRuntime, out: &mut S, err: &mut E) -> u8 {
    let mut dump = rt.reader();
    let telling = Telling {
        names: &[],
        is_whole: false,
    };
    why_on(rt.alloc(), &mut dump, None, &telling, out, err)
}

/// Whether a page would replace its dump or its names. If so, one line says it.
fn replaces_input<E: Write>(rt: &HostRuntime, told: &ShowArgs<'_>, err: &mut E) -> bool {
    let inputs = [told.dump, told.names.unwrap_or("")];
    is_input(rt, NAME, told.out.unwrap_or(""), &inputs, err)
}

/// Shows what the words ask for, the first of them being `show`. The answer is the status.
pub fn show<S: Sink, E: Write>(rt: &HostRuntime, words: &[&str], out: &mut S, err: &mut E) -> u8 {
    if words.len() <= 1 {
        return show_input(rt, out, err);
    }
    let told = match read_show_words(rt.alloc(), words) {
        Ok(told) => told,
        Err(answer) => {
            let status = tell_answer(rt.alloc(), NAME, &answer, out, err);
            tell_flag(words, &answer, err);
            return status;
        }
    };
    if replaces_input(rt, &told, err) {
        return 2;
    }
    let mut dump = match open_input(rt, NAME, told.dump, err) {
        Ok(dump) => dump,
        Err(status) => return status,
    };
    let names = match names_at(rt, told.names, err) {
        Ok(names) => names,
        Err(status) => return status,
    };
    show_dump(rt, &told, names.as_slice(), &mut dump, out, err)
}

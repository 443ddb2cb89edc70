//! `histar run`.
use base::NoMemory;
use program_args::RunArgs;
use program_io::{Fault, Sink, beside, is_input, open_input, put_file};
use script_runner::{NAME, RunFiles, histar_on};
use std::alloc::Global;
use std::io::Write;
use std::rt::Files;
use std::sync::Wait;
use std::thread::Threads;

/// Where a file goes, if it is asked for, and the name of the new file beside it.
#[derive(Drop)]
struct Place<'a> {
    path: Option<&'a str>,
    beside: String,
}

/// The place at a path.
fn place_at<'a>(alloc: Global, path: Option<&'a str>) -> Result<Place<'a>, NoMemory> {
    let beside = beside(alloc, path.unwrap_or(""))?;
    Ok(Place { path, beside })
}

/// Writes a file, where it is asked for.
fn put_at<R: Files>(rt: &R, place: &Place<'_>, bytes: &[u8]) -> Result<(), Fault> {
    match place.path {
        None => Ok(()),
        Some(path) => put_file(rt, path, place.beside.as_str(), bytes),
    }
}

/// Ends a run that was played: writes the dump and the names, each where it is asked for.
fn ended_with<R: Files>(
    rt: &R,
    dump: &Place<'_>,
    names: &Place<'_>,
    files: &RunFiles,
) -> Result<(), Fault> {
    put_at(rt, dump, files.dump.as_slice())?;
    put_at(rt, names, files.names.as_slice())
}

/// Whether the dump or the names would replace the script. If so, one line says it.
fn replaces_script<R: Files + AllocGlobal, E: Write>(
    rt: &R,
    args: &RunArgs<'_>,
    err: &mut E,
) -> bool {
    let inputs = [args.script];
    is_input(rt, NAME, args.dump.unwrap_or(""), &inputs, err)
        || is_input(rt, NAME, args.names.unwrap_or(""), &inputs, err)
}

/// Plays a script. The answer is the status: 2 where the dump or the names would replace the script.
pub fn run<R: Threads + Wait + Sync + Files + AllocGlobal, S: Sink, E: Write>(
    rt: &R,
    alloc: Global,
    args: &RunArgs<'_>,
    out: &mut S,
    err: &mut E,
) -> u8 {
    if replaces_script(rt, args, err) {
        return 2;
    }
    let mut script = match open_input(rt, NAME, args.script, err) {
        Ok(script) => script,
        Err(status) => return status,
    };
    let Ok(dump) = place_at(alloc, args.dump) else {
        return Fault::Memory.tell(NAME, err);
    };
    let Ok(names) = place_at(alloc, args.names) else {
        return Fault::Memory.tell(NAME, err);
    };
    let files = match histar_on(rt, alloc, args.script, &mut script, &args.options, out) {
        Ok(files) => files,
        Err(fault) => return fault.tell(err),
    };
    match ended_with(rt, &dump, &names, &files) {
        Ok(()) => 0,
        Err(fault) => fault.tell(NAME, err),
    }
}

//! Texts that are read and written again.
use call_text::{ScriptError, read_script, write_script};
use dump_text::{DumpError, MigrateFault, migrate, read_dump, write_dump};
use program_io::{Fault, bytes_of};
use std::alloc::Global;
use std::io::Read;

/// What is read, and how it is written.
#[derive(Clone, Copy)]
pub enum Kind {
    /// A script.
    Script,
    /// A dump.
    Dump,
    /// A dump of format 1, which is written in format 2.
    FirstFormat,
}

/// What a text is when it was read and written.
#[derive(Drop)]
pub enum Again {
    /// The text.
    Text(Vec<u8>),
    /// The first faulty line, and what it is not.
    Line(u64, &'static str),
    /// It can't be had, or there was no memory.
    Fault(Fault),
}

fn script_again(alloc: Global, text: &[u8]) -> Again {
    let script = match read_script(alloc, text) {
        Ok(script) => script,
        Err(ScriptError::Line(number)) => return Again::Line(u64::from(number), "script fault"),
        Err(ScriptError::Memory) => return Again::Fault(Fault::Memory),
    };
    match write_script(alloc, &script) {
        Ok(text) => Again::Text(text),
        Err(_) => Again::Fault(Fault::Memory),
    }
}

fn dump_again(alloc: Global, text: &[u8]) -> Again {
    let dump = match read_dump(alloc, text) {
        Ok(dump) => dump,
        Err(DumpError::Line(number)) => return Again::Line(number, "not a dump"),
        Err(DumpError::Memory) => return Again::Fault(Fault::Memory),
    };
    match write_dump(alloc, &dump) {
        Ok(text) => Again::Text(text),
        Err(_) => Again::Fault(Fault::Memory),
    }
}

fn in_second_format(alloc: Global, text: &[u8]) -> Again {
    match migrate(alloc, text) {
        Ok(text) => Again::Text(text),
        Err(MigrateFault::NotFormat1(number)) => Again::Line(number, "not a dump of format 1"),
        Err(MigrateFault::Memory) => Again::Fault(Fault::Memory),
    }
}

/// What an input's text of this kind is when it was read and written.
pub fn written_again<I: Read>(alloc: Global, kind: Kind, input: &mut I) -> Again {
    let text = match bytes_of(alloc, input) {
        Ok(text) => text,
        Err(fault) => return Again::Fault(fault),
    };
    match kind {
        Kind::Script => script_again(alloc, text.as_slice()),
        Kind::Dump => dump_again(alloc, text.as_slice()),
        Kind::FirstFormat => in_second_format(alloc, text.as_slice()),
    }
}

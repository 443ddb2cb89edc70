//! Files that are written whole.
ghost use Rattle.std.specs.Prelude.{◌≡◌, ◌++◌, None, IfOk, IfErr, codes};

use crate::faults::Fault;
use crate::inputs::source_of;
use crate::saving::{Place, save};
use crate::sinks::{Counted, deliver};
use base::NoMemory;
use std::alloc::Global;
use std::fs::{File, OpenFile};
use std::io::Write;
use std::rt::Files;
use std::{fs, io};

/// The name of the new file beside a path, which takes the path's name once it is whole. Want of memory is the only error.
pub fn beside(alloc: Global, path: &str) -> Result<String, NoMemory>
    ensures { IfOk result (λ name. name.bytes.items ≡ path.now ++ codes ".histar-new") }
{
    match format!(in alloc; "{path}.histar-new") {
        Ok(name) => Ok(name),
        Err(_) => Err(NoMemory),
    }
}

/// The fault where an output fails.
fn written<T: Drop>(told: io::Result<T>) -> Result<T, Fault>
    ensures { IfErr result (λ fault. fault ≡ Fault.Output) }
{
    match told {
        Ok(value) => Ok(value),
        Err(_) => Err(Fault::Output),
    }
}

/// The folder that a path leads into: what stands before its last `/`.
fn folder_of(path: &str) -> &str {
    match path.rsplit_once('/') {
        None => ".",
        Some((folder, _)) => { if folder.is_empty() { "/" } else { folder } }
    }
}

/// A path on the disk, with the name beside it. What is there is not known to a proof: each step is one request of the
/// system.
#[derive(Drop)]
struct OnDisk<'a, R: Files> {
    rt: &'a R,
    path: &'a str,
    beside: &'a str,
}

impl<'a, R: Files> Place for OnDisk<'a, R> {
    type File = R::File;

    ghost folder = { λ _. None };

    fn clear(&mut self) {
        let _ = fs::remove_file(self.rt, self.beside);
    }

    fn create(&mut self) -> Result<R::File, Fault> {
        written(File::create_new(self.rt, self.beside))
    }

    fn write(&mut self, file: &mut R::File, bytes: &[u8]) -> Result<(), Fault> {
        deliver(&mut Counted::new(file), bytes)
    }

    fn flush(&mut self, file: R::File) -> Result<(), Fault> {
        written(file.sync_all())
    }

    fn rename(&mut self) -> Result<(), Fault> {
        written(fs::rename(self.rt, self.beside, self.path))
    }

    fn settle(&mut self) -> Result<(), Fault> {
        let folder = written(File::open(self.rt, folder_of(self.path)))?;
        written(folder.sync_all())
    }
}

/// Whether both paths lead to one plain file.
fn is_same<R: Files + AllocGlobal>(rt: &R, one: &str, other: &str) -> bool {
    let Ok(one) = fs::canonicalize(rt, one) else {
        return false;
    };
    let Ok(other) = fs::canonicalize(rt, other) else {
        return false;
    };
    match fs::metadata(rt, one.as_path()) {
        Ok(found) => found.is_file() && one.as_path() == other.as_path(),
        Err(_) => false,
    }
}

/// Whether a file that is to be written is one of a program's inputs, which it would replace. If so, one line says it.
pub fn is_input<R: Files + AllocGlobal, E: Write>(
    rt: &R,
    program: &str,
    path: &str,
    inputs: &[&str],
    err: &mut E,
) -> bool {
    for input in inputs {
        if is_same(rt, path, source_of(input)) {
            let _ = writeln!(err, "{program}: {path} is its input: it would be replaced");
            return true;
        }
    }
    false
}

/// Writes a file: whole or not at all, as `save` has it, where its path names a plain file, or nothing yet. A file `beside`
/// takes the path's name then. Anything else that the path names, such as a pipe or a link, is written itself.
pub fn put_file<R: Files>(rt: &R, path: &str, beside: &str, bytes: &[u8]) -> Result<(), Fault> {
    if let Ok(found) = fs::symlink_metadata(rt, path) {
        if !found.is_file() {
            let mut file = Counted::new(written(File::create(rt, path))?);
            return deliver(&mut file, bytes);
        }
    }
    save(&mut OnDisk { rt, path, beside }, bytes)
}

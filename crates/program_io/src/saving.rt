//! Replacing a file: whole or not at all.
ghost use Rattle.std.specs.Prelude.{◌≡◌, Option, OnOk, OnErr};
ghost use Rattle.std.specs.Prelude.{option_map};
ghost use Rattle.program_io.specs.Folders.{Folder, cleared, created, written, flushed, renamed, settled};
ghost use Rattle.program_io.specs.Folders.{replaced, saved, IsOld, IsOldOrNew};

use crate::faults::Fault;

/// A path of a plain file, or of none, and a name beside it for a new file. Only `rename` changes what the path names.
pub trait Place {
    /// The new file as it is written.
    type File: Drop;

    // The folder, where it is known.
    ghost folder: { Self → Option Folder };

    /// Removes what stands beside the path, if anything does.
    fn clear(&mut self)
        ensures { folder self.new ≡ option_map cleared (folder self.old) };

    /// Makes an empty file beside the path.
    fn create(&mut self) -> Result<Self::File, Fault>
        ensures done { OnOk result (folder self.new ≡ option_map created (folder self.old)) }
        ensures failed { OnErr result (IsOld (folder self.old) (folder self.new)) };

    /// Writes bytes to that file.
    fn write(&mut self, file: &mut Self::File, bytes: &[u8]) -> Result<(), Fault>
        ensures done { OnOk result
            (folder self.new ≡ option_map (written bytes.now) (folder self.old)) }
        ensures failed { OnErr result (IsOld (folder self.old) (folder self.new)) };

    /// Hands that file's bytes to the disk.
    fn flush(&mut self, file: Self::File) -> Result<(), Fault>
        ensures done { OnOk result (folder self.new ≡ option_map flushed (folder self.old)) }
        ensures failed { OnErr result (IsOld (folder self.old) (folder self.new)) };

    /// Gives that file the path's name.
    fn rename(&mut self) -> Result<(), Fault>
        ensures done { OnOk result (folder self.new ≡ option_map renamed (folder self.old)) }
        ensures failed { OnErr result (IsOld (folder self.old) (folder self.new)) };

    /// Hands the folder's names to the disk.
    fn settle(&mut self) -> Result<(), Fault>
        ensures done { OnOk result (folder self.new ≡ option_map settled (folder self.old)) }
        ensures failed { OnErr result (folder self.new ≡ folder self.old) };
}

/// Writes a new file beside the path, and gives it the path's name once its bytes are on the disk. At an error the path
/// names what it did.
fn replace<P: Place>(place: &mut P, bytes: &[u8]) -> Result<(), Fault>
    ensures done { OnOk result
        (P.folder place.new ≡ option_map (replaced bytes.now) (P.folder place.old)) }
    ensures failed { OnErr result (IsOld (P.folder place.old) (P.folder place.new)) }
{
    place.clear();
    let mut file = place.create()?;
    place.write(&mut file, bytes)?;
    place.flush(file)?;
    place.rename()
}

/// Replaces what the path names by these bytes. Where it succeeds, bytes and names are on the disk. At an error the path
/// names what it did, or all of these bytes where only the names could not be handed to the disk. What a run that was
/// killed left beside the path goes first, and what this one leaves there goes at an error.
pub fn save<P: Place>(place: &mut P, bytes: &[u8]) -> Result<(), Fault>
    ensures done { OnOk result
        (P.folder place.new ≡ option_map (saved bytes.now) (P.folder place.old)) }
    ensures failed { OnErr result
        (IsOldOrNew bytes.now (P.folder place.old) (P.folder place.new)) }
{
    if let Err(fault) = replace(place, bytes) {
        place.clear();
        return Err(fault);
    }
    place.settle()
}

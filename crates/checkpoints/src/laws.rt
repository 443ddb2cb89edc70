//! What holds of the state of a checkpoint that can be restored.
ghost use Rattle.checkpoints.specs.Laws.{RestoredIsWellFormed, RestoredNamesRightly};
ghost use Rattle.checkpoints.specs.Laws.{RestoredMappingsApart, BootIsSound, SoundStays};
ghost use Rattle.checkpoints.specs.Laws.{RestorableAreWhole, LabelsAsWritten, LaterAreLegal};

/// It is well formed.
pub fn restored_is_well_formed()
    ensures { RestoredIsWellFormed }
{}

/// Its entries name what they may name.
pub fn restored_names_rightly()
    ensures { RestoredNamesRightly }
{}

/// In each state that calls lead to from it, at most one slot of an address space covers a page.
pub fn restored_mappings_are_apart()
    ensures { RestoredMappingsApart }
{}

/// The newly booted state is sound.
pub fn boot_is_sound()
    ensures { BootIsSound }
{}

/// From a well-formed and sound state each call leads to a sound one.
pub fn sound_stays()
    ensures { SoundStays }
{}

/// A checkpoint can be restored exactly where its state is well formed and sound, it is ordered, and
/// its threads were given.
pub fn restorable_are_whole()
    ensures { RestorableAreWhole }
{}

/// A label that is written as a stored one is stored as it is written.
pub fn labels_as_written()
    ensures { LabelsAsWritten }
{}

/// What comes after some events of a legal history of a boot is legal from their checkpoint.
pub fn later_are_legal()
    ensures { LaterAreLegal }
{}

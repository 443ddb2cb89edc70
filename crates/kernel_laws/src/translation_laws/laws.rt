//! Laws of translation.
ghost use Rattle.kernel_laws.specs.TranslationLaws.{DeadObjectsShowNone};
ghost use Rattle.kernel_laws.specs.TranslationLaws.{RowsShowMappings, RowsShowSegments};
ghost use Rattle.kernel_laws.specs.TranslationLaws.{StaleRowsAreEmpty};
ghost use Rattle.kernel_laws.specs.TranslationLaws.{BootNamesRightly, CallsKeepRows};
ghost use Rattle.kernel_laws.specs.TranslationLaws.{RowReads, DeathKeepsRows, DeadHaveNone};
ghost use Rattle.kernel_laws.specs.TranslationLaws.{NamesStayRight};
ghost use Rattle.kernel_laws.specs.TranslationLaws.{SlotKeepsRows, ImmutableTakesWriting, SpaceKeepsRows};
ghost use Rattle.kernel_laws.specs.TranslationLaws.{LabelKeepsRows};
ghost use Rattle.kernel_laws.specs.TranslationLaws.{UnrefEmptiesRows, ShutRowsAreEmpty, MadeKeepsRows};
ghost use Rattle.kernel_laws.specs.TranslationLaws.{NewThreadHasNone};
ghost use Rattle.kernel_laws.specs.TranslationLaws.{ListingKeepsRows, UnrefKeepsRows};
ghost use Rattle.kernel_laws.specs.TranslationLaws.{AlikeKeepsRows, PlainKeepsRows};

/// What a row reads.
pub fn row_reads()
    ensures { RowReads }
{}

/// The removal of the dead leaves each row of a live thread.
pub fn death_keeps_rows()
    ensures { DeathKeepsRows }
{}

/// A dead thread has no rows.
pub fn dead_have_none()
    ensures { DeadHaveNone }
{}

/// An object that looks to translation as it did touches no row.
pub fn alike_keeps_rows()
    ensures { AlikeKeepsRows }
{}

/// A change of quota, fixed flag, metadata, bytes, packets or clearance touches no row.
pub fn plain_keeps_rows()
    ensures { PlainKeepsRows }
{}

/// A container that lists one more touches the rows through that entry alone.
pub fn listing_keeps_rows()
    ensures { ListingKeepsRows }
{}

/// An unreference leaves each row whose thread stays live, and whose entries do.
pub fn unref_keeps_rows()
    ensures { UnrefKeepsRows }
{}

/// After an unreference each other row of a thread that stays live is empty.
pub fn unref_empties_rows()
    ensures { UnrefEmptiesRows }
{}

/// A row through an entry that does not open is empty.
pub fn shut_rows_are_empty()
    ensures { ShutRowsAreEmpty }
{}

/// A new object touches no row of another thread that goes through no entry that names it.
pub fn made_keeps_rows()
    ensures { MadeKeepsRows }
{}

/// A new thread shows nothing.
pub fn new_thread_has_none()
    ensures { NewThreadHasNone }
{}

/// A slot that is set touches its own row alone, of the threads in that address space.
pub fn slot_keeps_rows()
    ensures { SlotKeepsRows }
{}

/// An object that becomes immutable takes writing from the rows that show it, and touches no other.
pub fn immutable_takes_writing()
    ensures { ImmutableTakesWriting }
{}

/// A thread's address space touches its own rows alone.
pub fn space_keeps_rows()
    ensures { SpaceKeepsRows }
{}

/// A thread's label touches its own rows alone, where no entry names a thread.
pub fn label_keeps_rows()
    ensures { LabelKeepsRows }
{}

/// From a state whose entries name rightly each call leads to one.
pub fn names_stay_right()
    ensures { NamesStayRight }
{}

/// The newly booted state names rightly.
pub fn boot_names_rightly()
    ensures { BootNamesRightly }
{}

/// A call leaves each row of a thread that it leaves, but those that it touches.
pub fn calls_keep_rows()
    ensures { CallsKeepRows }
{}

/// A row through an entry that does not stand is empty.
pub fn stale_rows_are_empty()
    ensures { StaleRowsAreEmpty }
{}

/// What a row shows is what its mapping names.
pub fn rows_show_mappings()
    ensures { RowsShowMappings }
{}

/// And that is a segment, where the entries name rightly.
pub fn rows_show_segments()
    ensures { RowsShowSegments }
{}

/// And so is a row through an entry whose object is dead.
pub fn dead_objects_show_none()
    ensures { DeadObjectsShowNone }
{}

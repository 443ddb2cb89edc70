//! Laws of the next state.
ghost use Rattle.kernel_laws.specs.Laws.{LabelsAreOwn, LabelsRise, ReadOnlyStays};
ghost use Rattle.kernel_laws.specs.Laws.{LinkedStays, RecordedAreLive};
ghost use Rattle.kernel_laws.specs.Laws.{RecordedAreEdited, RootBoundsAll, RootBoundsCosts};
ghost use Rattle.kernel_laws.specs.Laws.{LabelsAreListed};
ghost use Rattle.kernel_laws.specs.Laws.{IdsRise, CategoriesRise, MappingsApart};

/// The label of an object changes by its own calls alone.
pub fn labels_are_own()
    ensures { LabelsAreOwn }
{}

/// No call but `cat_create` and `gate_enter` lowers a category of the caller's label, star included.
pub fn labels_rise()
    ensures { LabelsRise }
{}

/// An immutable object is read-only for good: its bytes, mappings, entries, metadata, quota and fixed
/// flag never change.
pub fn read_only_stays()
    ensures { ReadOnlyStays }
{}

/// After a call an id is recorded exactly where the call's edit records it and a path leads to it.
pub fn recorded_are_live()
    ensures { RecordedAreLive }
{}

/// An object stays that is also linked in a container that is live after the call.
pub fn linked_stays()
    ensures { LinkedStays }
{}

/// What a call leaves recorded is as its edit made it.
pub fn recorded_are_edited()
    ensures { RecordedAreEdited }
{}

/// The quota of the root bounds the objects, and with one more the links.
pub fn root_bounds_all()
    ensures { RootBoundsAll }
{}

/// The quota of the root bounds what all objects cost for themselves, in pages of 256 bytes.
pub fn root_bounds_costs()
    ensures { RootBoundsCosts }
{}

/// A recomputed table of labels has each label that the objects store once, in its place, and no
/// other.
pub fn labels_are_listed()
    ensures { LabelsAreListed }
{}

/// An id is never given again: the ids of the objects that a list of calls makes rise.
pub fn ids_rise()
    ensures { IdsRise }
{}

/// Nor is a category.
pub fn categories_rise()
    ensures { CategoriesRise }
{}

/// In each state that calls lead to from a boot, at most one slot of an address space covers a page:
/// so the mapping that a `load` or a `store` goes by is the only one.
pub fn mappings_are_apart()
    ensures { MappingsApart }
{}

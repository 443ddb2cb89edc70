//! Laws of all labels at once. Each function does nothing: its contract is the law, which a
//! caller's proof has from a call. The clauses of the functions that do the work are over the same
//! definitions.
ghost use Rattle.label_lattice.specs.Laws.{AgreeingAreOne, RawFormIsGood, RawFormGivesBack};
ghost use Rattle.label_lattice.specs.Laws.{StarIsKept};
ghost use Rattle.label_lattice.specs.Laws.{MadeIsStored, MadeIsPlaced, MadeStaysMade};
ghost use Rattle.label_lattice.specs.Laws.{OrderIsReflexive, OrderIsTransitive};
ghost use Rattle.label_lattice.specs.Laws.{OrderIsAntisymmetric, JoinIsAbove, JoinIsLeast};
ghost use Rattle.label_lattice.specs.Laws.{UpRaisesStar, UpKeepsOthers};
ghost use Rattle.label_lattice.specs.Laws.{DownLowersTop, DownKeepsOthers};
ghost use Rattle.label_lattice.specs.Laws.{TestTellsOrder, LabelsAreDescribed, JoinsAreDescribed};
ghost use Rattle.label_lattice.specs.Laws.{UpsAreDescribed, DownsAreDescribed};

/// Stored labels that have equal levels at each category are equal.
pub fn agreeing_labels_are_one()
    ensures { AgreeingAreOne }
{}

/// The raw form of a stored label is good, and is stored as that label.
pub fn raw_form_gives_back()
    ensures good { RawFormIsGood }
    ensures stored { RawFormGivesBack }
{}

/// A label has star exactly where the raw label that it was stored from does.
pub fn star_is_kept()
    ensures { StarIsKept }
{}

/// Categories that were made stay so: as a raw label is stored, as a label gets a level for one
/// that was made, and as the next category rises.
pub fn made_categories_stay_made()
    ensures stored { MadeIsStored }
    ensures placed { MadeIsPlaced }
    ensures later { MadeStaysMade }
{}

/// The order is reflexive and transitive, and antisymmetric on stored labels.
pub fn order_is_partial()
    ensures reflexive { OrderIsReflexive }
    ensures transitive { OrderIsTransitive }
    ensures antisymmetric { OrderIsAntisymmetric }
{}

/// The pointwise maximum is the least of all that both are at most.
pub fn join_is_least_upper_bound()
    ensures above { JoinIsAbove }
    ensures least { JoinIsLeast }
{}

/// `up` takes star to J and `down` J to star, and each leaves all other levels.
pub fn up_and_down_move_one_level()
    ensures raised { UpRaisesStar }
    ensures up_kept { UpKeepsOthers }
    ensures lowered { DownLowersTop }
    ensures down_kept { DownKeepsOthers }
{}

/// The test that computes says whether the order holds over all categories, for the levels of
/// labels and for all that is built from them.
pub fn test_tells_order()
    ensures tells { TestTellsOrder }
    ensures labels { LabelsAreDescribed }
    ensures joins { JoinsAreDescribed }
    ensures ups { UpsAreDescribed }
    ensures downs { DownsAreDescribed }
{}

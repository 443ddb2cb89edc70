//! Laws of what is told, each the contract of a function that does nothing.
ghost use Rattle.explained.specs.Compared.{AgreesWhereNoneFails, SidesAreExact};
ghost use Rattle.explained.specs.Laws.{FailingIsExact, HoldsWhereNoneFails};
ghost use Rattle.explained.specs.Laws.{PartsAreTheCondition, FindingsAreTheRow};
ghost use Rattle.explained.specs.Laws.{QueryFindingsAreTheRow};
ghost use Rattle.explained.specs.Laws.{LeastIsTheRefusal, LeastIsTheQueryRefusal};
ghost use Rattle.explained.specs.Laws.{NoneHoldsWhereAccepted, NoneHoldsWhereFound};

/// The failures that are told of a comparison are all that there are and no other, by rising categories.
pub fn failing_is_exact()
    ensures { FailingIsExact }
{}

/// A comparison holds exactly where no failure is told.
pub fn holds_where_none_fails()
    ensures { HoldsWhereNoneFails }
{}

/// What is told of a condition refuses exactly where the condition does, so the findings of a call are
/// the conditions of its row, in the row's order.
pub fn findings_are_the_row()
    ensures parts { PartsAreTheCondition }
    ensures calls { FindingsAreTheRow }
    ensures queries { QueryFindingsAreTheRow }
{}

/// The least number among the findings that hold is the refusal.
pub fn least_is_the_refusal()
    ensures calls { LeastIsTheRefusal }
    ensures queries { LeastIsTheQueryRefusal }
{}

/// A call is accepted exactly where none of its findings holds.
pub fn none_holds_where_accepted()
    ensures calls { NoneHoldsWhereAccepted }
    ensures queries { NoneHoldsWhereFound }
{}

/// A part's comparison holds exactly where its labels are there and no failure is told, and what is told is exact.
pub fn comparisons_are_exact()
    ensures agrees { AgreesWhereNoneFails }
    ensures exact { SidesAreExact }
{}

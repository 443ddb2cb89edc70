//! The laws of two worlds.
ghost use Rattle.worlds.specs.Bits.{FewAreCounted, OneOfFew};
ghost use Rattle.worlds.specs.Journals.{JournalsTellNothing, LengthsTellHidden};
ghost use Rattle.worlds.specs.Laws.{CountedStepsStayAlike, CountsStay, HiddenStepsStay};
ghost use Rattle.worlds.specs.Laws.{NamedStepsStayAlike, OpenHiddenStepsStay, OpenStays};
ghost use Rattle.worlds.specs.Laws.{QueriesAnswerAlike, StaysHidden, StepsStayAlike};
ghost use Rattle.worlds.specs.Laws.{UnrefsStayAlike, WellFormedStays};
ghost use Rattle.worlds.specs.TwoRuns.{NothingIsTold, NothingIsToldQuietly};

/// After a call, an unreference left out, of a thread that an observer observes neither before nor after it,
/// the observer sees the same.
pub fn hidden_steps_stay()
    ensures { HiddenStepsStay }
{}

/// So it is after any call, where containers that the observer does not observe list nothing that it observes.
pub fn open_hidden_steps_stay()
    ensures { OpenHiddenStepsStay }
{}

/// Who is not observed stays so, unless it makes a category or enters a gate.
pub fn stays_hidden()
    ensures { StaysHidden }
{}

/// A query has one answer in two worlds of which an observer sees the same, where the observer sees all that
/// the asker observes.
pub fn queries_answer_alike()
    ensures { QueriesAnswerAlike }
{}

/// A call that makes nothing and names no category has one answer in two such worlds, and the observer sees
/// the same of them after it.
pub fn steps_stay_alike()
    ensures { StepsStayAlike }
{}

/// The same holds of a call that makes something or names categories, where both worlds give the same id and
/// category next.
pub fn counted_steps_stay_alike()
    ensures { CountedStepsStayAlike }
{}

/// The same holds of a link and a move of quota, where what is named has the same label and flags in both.
pub fn named_steps_stay_alike()
    ensures { NamedStepsStayAlike }
{}

/// The same holds of an unreference, where in both worlds containers that the observer does not observe list
/// nothing that it observes.
pub fn unrefs_stay_alike()
    ensures { UnrefsStayAlike }
{}

/// Containers that the observer does not observe go on listing nothing that it observes, whatever hidden threads
/// call but a link of what it observes, and whatever those call that observe no more than it.
pub fn open_stays()
    ensures { OpenStays }
{}

/// Only a call that makes an object or a category uses up an id or a category.
pub fn counts_stay()
    ensures { CountsStay }
{}

/// A call whose data has at most 64 bytes keeps a state well formed.
pub fn well_formed_stays()
    ensures { WellFormedStays }
{}

/// Whatever hidden threads do in either of two worlds, all that is called and asked in both is answered alike,
/// and the observer sees the same.
pub fn nothing_is_told()
    ensures { NothingIsTold }
{}

/// Where hidden threads link nothing, make nothing and enter no gate, all that others call and ask in both worlds
/// is answered alike, creations and unreferences among them, and the observer sees the same.
pub fn nothing_is_told_quietly()
    ensures { NothingIsToldQuietly }
{}

/// After calls of hidden threads that make at most n objects and m categories, whoever observes no more than the observer
/// is told one of (n + 1)(m + 1) replies, where it makes something, names categories or enters a gate: those that it would
/// be told had up to n ids and up to m categories more been given.
pub fn one_of_few()
    ensures told { OneOfFew }
    ensures few { FewAreCounted }
{}

/// Of a legal journal without the events of hidden threads each reply is the one that is told where only these events are
/// made, and the observer sees the same at the end; batches count as single calls. The length that a receipt tells is an
/// exception: it counts the events of hidden threads too.
pub fn journals_tell_nothing()
    ensures replies { JournalsTellNothing }
    ensures length { LengthsTellHidden }
{}

//! Two worlds: what an observer sees of a state, and what hidden threads can't change of it. It promises that
//! all that is called and asked in two worlds is answered alike, whatever hidden threads do in either, but for
//! what is named: the next id and category, labels of threads and flags of what is listed and not observed,
//! and what is observed and listed where the observer does not observe.
#![tactic(auto)]

mod laws;

pub use laws::{
    counted_steps_stay_alike, counts_stay, hidden_steps_stay, journals_tell_nothing,
    named_steps_stay_alike, nothing_is_told, nothing_is_told_quietly, one_of_few,
    open_hidden_steps_stay, open_stays, queries_answer_alike, stays_hidden, steps_stay_alike,
    unrefs_stay_alike, well_formed_stays,
};

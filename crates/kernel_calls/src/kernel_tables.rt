//! The tables of a state, recomputed from what a store answers: which objects are live and what each
//! uses, what the slots of live threads show, and the stored labels with how every two of them compare.
//! They are those of the definitions, over any store; what a machine keeps is compared with these. Want
//! of memory is the only error.

mod labels;
mod recomputing;

pub use recomputing::tables;

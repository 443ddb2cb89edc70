//! Scripts of the kernel's rules, each with what every line answers, as theorems by computation: the definitions of
//! `kernel_rules` give these answers and end states. The scripts stand in `scripts/`, from which `scripts/make.py` makes the
//! statements and their proofs, and each file of scripts is the contract of a function with an empty body. `Runs` has whole
//! runs with what their lines are told, by the definition of a run (`script_rules`). They promise nothing of a machine, which is proved to
//! follow the same definitions.
#![tactic(auto)]

mod scripts;

pub use scripts::{corners_answer, hostile_answer, large_answer, runs_tell, worked_answer};

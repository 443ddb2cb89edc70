//! What a run of a script is, by the rules: what each line is told, and what the run leaves, phase after phase and line after line.
//!
//! The definitions stand in `specs/`: `Run` has the run, `Lines` a worker at its lines. They compute, so that worked runs are
//! theorems by computation (`rule_scripts`). No code runs.
#![tactic(auto)]

//! The version of the programs. The file VERSION has it, and the gate compares the two.

/// What `--version` prints behind a program's name.
pub(crate) const VERSION: &str = "0.1.0";

//! The words of texts: numbers, levels, data, names, ids and categories, sets of kinds, rights and
//! labels.
//!
//! Each value has one spelling. A reader answers the value whose spelling the word is, and None exactly where there is
//! none; a writer adds that spelling. Which words make a line is left to the crates above.
#![tactic(auto)]

mod compared;
mod hex_bytes;
mod level_words;
mod names;
mod numbers;
mod parting;
mod references;
mod rights_words;
mod signed_numbers;
pub mod spoken_calls;
mod spoken_labels;
mod type_words;

pub use compared::is_same;
pub use hex_bytes::{put_data, read_data};
pub use level_words::{put_level, read_level};
pub use names::{Name, put_name, read_name};
pub use numbers::{put_number, read_number};
pub use parting::parted;
pub use references::{Reference, put_reference, read_reference};
pub use rights_words::{put_rights, read_rights};
pub use signed_numbers::{put_signed, read_signed};
pub use spoken_labels::{SpokenLabel, SpokenPair, put_label, read_label};
pub use type_words::{put_types, read_types};

//! A dump as JSON, for other programs: an array with an object for each line, which has the line's number and its words. `json`
//! promises exactly this text, which reads back as those lines. It tells what stands in the dump, true or not. What the words
//! of each line mean is the dump's, and the words of the command line are left to others.

mod jsons;
mod pieces;
mod program;

pub use jsons::json;
pub use pieces::word_value;
pub use program::json_on;

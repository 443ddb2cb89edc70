//! Scripts and replies as text: which bytes are a script, what its words name, and how a reply is printed.
//!
//! A script has one spelling. It is read as that value, or the first line at which the bytes stop being the beginning of
//! a script is told, and it is written as those bytes again. What the names of a script are bound to is the caller's, and
//! so is playing it.
#![tactic(auto)]

mod asking;
mod batches;
mod errors;
mod known_names;
mod lines;
pub mod names_text;
mod phases;
mod places;
pub mod plain_scripts;
mod replies;
mod reply_words;
mod resolving;
mod script_writing;
mod scripts;

pub use asking::Asked;
pub use errors::ScriptError;
pub use known_names::{Known, NameList, Named, Value, start_names};
pub use phases::{Line, Phase, Script};
pub use replies::{put_made, put_reply, write_reply};
pub use resolving::{resolve, resolve_into};
pub use script_writing::write_script;
pub use scripts::{one_reading, read_script};
pub use text_words::parted;

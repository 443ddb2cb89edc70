//! A dump as one page to look at: the tree after each event, what each event changed, the lines of the dump that tell it, each
//! read in its place, and why each refused call or read is refused. `page` promises exactly this text: a fixed head, JSON of a
//! definition over the dump and the names that are known, and a fixed tail. `trees_are_whole` promises that the page has each
//! tree whole, and `data_stays_in_place` that nothing in the data ends its place. The script that shows the data, and the words
//! of the command line, are left to others.
#![tactic(auto)]

mod edits;
mod escaping;
mod first_lines;
mod frame;
mod laws;
mod lines;
mod pages;
mod program;
mod steps;
mod told;

pub use escaping::data_stays_in_place;
pub use frame::{HEAD, TAIL};
pub use laws::trees_are_whole;
pub use pages::page;
pub use program::page_on;

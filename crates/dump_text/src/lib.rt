//! Dumps as text: what a run was booted with, in format 2 the state that its events begin from, the events, in format 2 the
//! reads among them, and the tables of what was left.
//!
//! A dump has one spelling. It is read as that value, or the first line at which the bytes stop being the beginning of a
//! dump is told, and it is written as those bytes again. Which kind of line stands where is the grammar's; whether the
//! numbers in the lines are true, and how many lines there are, is left to who audits. Two formats share one grammar:
//! format 1 has no checkpoint and no reads, and at most 512 pages.
#![tactic(auto)]

mod calls;
mod checkpoint_lines;
mod checkpoint_writing;
mod dumps;
mod errors;
mod events;
mod head_words;
mod heads;
mod labels;
mod laws;
mod line_words;
mod line_writing;
mod lines;
mod migrating;
mod part_words;
mod parting;
mod pieces;
mod places;
mod queries;
mod read_replies;
mod reads;
mod reply_reading;
mod reply_words;
mod reply_writing;
mod reports;
mod state_lines;
mod state_reading;
mod state_writing;
mod stripping;
mod tables;
mod whole;
mod words;
mod writing;

pub use dumps::{one_reading, read_dump};
pub use errors::DumpError;
pub use laws::legal_is_dump;
pub use migrating::{MigrateFault, boot_checkpoint, boots_can_begin, migrate};
pub use parting::part_reads;
pub use pieces::{
    Piece, events_text, head_text, piece_at, pieces_are_the_dump, put_read_line, tables_text,
};
pub use read_replies::{
    LabelReply, ListReply, OwnReply, PagesReply, ParentReply, QuotaReply, ReadReply, raw_reply,
};
pub use reads::Read;
pub use tables::{Dump, DumpTables, PlacedRead, Stored};
pub use whole::{dump_of, dump_with};
pub use writing::{put_event, write_dump};

//! The program `histar-audit`, over a reader, a sink and a writer. `audit_on` prints the verdict on a dump and, of a clean one,
//! the objects that the flows which it is asked for reach, and the replies that hidden threads changed; and it makes the dump
//! in format 2 where that is asked for. It promises that what it prints is the verdict, that these are the flows, and that
//! these are the replies. `read_label` reads the label of who observes. Other words, and files, are left to who calls it.

mod differences;
mod labels;
mod lines;
mod program;

pub use labels::read_label;
pub use program::{Asked, AuditEnd, NAME, audit_on};

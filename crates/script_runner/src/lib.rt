//! Plays a script on a newly booted kernel, and runs the program over a reader and two writers.
//!
//! A script is read whole before a line of it is played, and all output is made before a byte of it goes out. The dump
//! of a run is proved to be that of a legal journal, the book's at the end, and of reads that the rules answer as the
//! run did. The output is proved to have each line of the script once, in the stated order and with its number, and with the
//! text of a reply. Where no phase has lines of two workers, answers, output, journal and names are proved to be those of the
//! script's run by the rules (`script_rules`). Where workers share phases, each line is proved to be told the answer of the rules
//! after events that its worker had then seen, which begin the journal, with the names that are known at the end. Which status and
//! fault line a run ends with, that the workers of a phase run at once, and that no read is left out is shown by tests.
#![tactic(auto)]

mod answers;
mod batches;
mod closings;
mod desks;
mod dumps;
mod faults;
mod lone_play;
mod names;
mod parts;
mod play;
mod players;
mod printing;
mod program;
mod reads;
mod replays;
mod shared_desks;
mod shared_play;
mod workers;

pub use dumps::dump_of;
pub use faults::PlayFault;
pub use names::{BoundNames, WorkerNames};
pub use play::{Played, play_all};
pub use program::{NAME, RunFault, RunFiles, histar_on};
pub use reads::{Reads, SeenRead, seen_reads};

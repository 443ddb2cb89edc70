//! The kernel that many threads call and read: seats, notes and books where they answer and where they refuse, threads that read while
//! one writes and while the lock is held, and each call that takes memory made again where there was none.
pub mod batches;
pub mod cases;
pub mod few_seats;
pub mod memory;
pub mod notes;
pub mod readers;
pub mod samples;
pub mod seats;
pub mod sole;
pub mod threads;
pub mod told;

//! A label kernel that threads of C share, as a static library: seats at it, and one call for all calls through a seat, in memory
//! that C gives.
//!
//! Each seat is called by one thread at a time, and any number of seats at once. Nothing here waits, locks, prints or ends the
//! program. What does not hold here is left to C: that the memory is what the functions ask for, and that one call at a time
//! uses a room.
#![tactic(auto)]

mod asking;
mod batches;
mod dumps;
mod exports;
mod held;
mod readers;

pub use asking::SeatRequest;
pub use exports::{
    histar_reader_call, histar_reader_end, histar_reader_of, histar_reader_size,
    histar_seat_beside, histar_seat_call, histar_seat_end, histar_seat_first, histar_seat_size,
};
pub use held::{HeldSeat, KeptSeat};
pub use readers::{HeldReader, KeptReader};

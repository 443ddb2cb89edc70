//! A boot for few seats, and calls and reads whose reply is made in place.
use super::cases::{Case, play_case};
use super::samples::{is_refused, seated};
use anyhow::Result;
use base::ObjectId;
use happy_calls::look::Look;
use happy_calls::samples::{boot_thread, is_object, new_thread};
use kernel_rules::{Call, Query, Reply};
use published_copy::{Naming, Seat, Shared};
use std::sync::Wait;
use std::thread::Threads;

/// Whether a call makes this object, as the event of this number.
fn makes<B: Naming, R: Wait>(
    rt: &R,
    seat: &mut Seat<'_, B>,
    call: &Call,
    id: u64,
    number: u64,
) -> bool {
    let mut reply = Reply::Done;
    match seat.submit_into(rt, call, &mut reply) {
        Ok(placed) => {
            is_object(reply, id) && placed.number == number && placed.length as u64 == number
        }
        Err(_) => false,
    }
}

/// Whether a seat's thread is shown its own values, in place.
fn is_shown_in_place<B: Naming>(seat: &mut Seat<'_, B>) -> bool {
    let mut reply = Reply::Done;
    seat.read_into(&Query::SelfGet, &mut reply).is_ok() && matches!(reply, Reply::Own { .. })
}

/// Whether thread 4 has a seat already, and thread 5 has none left.
fn are_taken<B: Naming, R: Wait>(rt: &R, shared: &Shared<B>) -> bool {
    is_refused(rt, shared, ObjectId::new(5), 43) && is_refused(rt, shared, ObjectId::new(4), 41)
}

/// The boot thread makes threads 4 and 5, and thread 4 gets the second seat.
fn fill_two_by<B: Naming, R: Wait>(
    rt: &R,
    look: &mut Look,
    shared: &Shared<B>,
    seat: &mut Seat<'_, B>,
) -> Result<()> {
    look.sees(makes(rt, seat, &new_thread(), 4, 1));
    look.sees(makes(rt, seat, &new_thread(), 5, 2));
    let mut other = seated(rt, shared, ObjectId::new(4))?;
    look.sees(are_taken(rt, shared));
    look.sees(is_shown_in_place(seat) && is_shown_in_place(&mut other));
    Ok(())
}

/// The boot thread and thread 4 have the two seats, so thread 5 has none.
pub fn fill_two_at<B: Naming, R: Wait>(rt: &R, look: &mut Look, shared: &Shared<B>) -> Result<()> {
    let mut seat = seated(rt, shared, boot_thread())?;
    fill_two_by(rt, look, shared, &mut seat)
}

fn a_boot_for_two_has_two_seats<R: Threads + Wait + Sync + AllocGlobal>(
    rt: &R,
    look: &mut Look,
) -> Result<()> {
    look.part("a_boot_for_two_has_two_seats");
    play_case(rt, look, rt.alloc(), Case::FewSeats)
}

/// Plays what there is memory for.
pub fn play<R: Threads + Wait + Sync + AllocGlobal>(rt: &R, look: &mut Look) -> Result<()> {
    a_boot_for_two_has_two_seats(rt, look)
}

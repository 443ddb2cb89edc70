//! Who was given a seat.
ghost use Rattle.std.specs.Prelude.{◌≡◌, ◌≤◌, ◌<◌, ◌==◌, ◌++◌, ◌∷◌, [], length, IfOk, vec_len};
ghost use Rattle.base.specs.Live.{has};
ghost use Rattle.published_copy.specs.Books.{places_with};

use base::{Meter, NoMemory, ObjectId};
use std::alloc::Global;
use std::marker::Model;

/// The most seats that a boot has.
pub(crate) const SEATS: usize = 64;

/// The threads that were given seats, and a meter for each seat that is left. A contract sees the
/// threads, and how many seats there are.
#[derive(Drop)]
pub(crate) struct Places {
    seated: Vec<ObjectId>,
    meters: Vec<Meter>,
}

impl Model for Places {
    ghost use Rattle.std.specs.Prelude.{◌+◌, ◌≤◌, vec_len, vec_capacity};
    ghost use Rattle.published_copy.specs.Books.{PlacesView, places_with};

    ghost Value = { PlacesView };

    ghost view = { λ p. places_with p.seated.items (vec_len p.seated + vec_len p.meters) };

    ghost invariant = { λ p. vec_len p.seated + vec_len p.meters ≤ vec_capacity p.seated };
}

/// A meter for each seat.
fn seat_meters(alloc: Global, seats: usize) -> Result<Vec<Meter>, NoMemory>
    ensures { IfOk result (λ meters. vec_len meters ≡ seats) }
{
    let mut meters = Vec::with_capacity(alloc, seats)?;
    for _ in 0..seats {
        meters.push_reserved(Meter::new(alloc)?);
    }
    Ok(meters)
}

impl Places {
    /// The seats of a boot, which are so many, and of which none is given.
    pub(crate) fn new(alloc: Global, seats: usize) -> Result<Places, NoMemory>
        ensures { IfOk result (λ places. places ≡ places_with [] seats) }
    {
        let meters = seat_meters(alloc, seats)?;
        let seated = Vec::with_capacity(alloc, seats)?;
        Ok(Places { seated, meters })
    }

    /// Whether a thread was given a seat.
    pub(crate) fn has(&self, thread: ObjectId) -> bool
        ensures value { result ≡ has self.now.seated thread }
        ensures within { length self.now.seated ≤ self.now.seats }
    {
        self.seated.iter().any(|seated| thread == *seated)
    }

    /// Whether all seats were given.
    pub(crate) fn are_spent(&self) -> bool
        ensures { result ≡ (length self.now.seated == self.now.seats) }
    {
        self.meters.is_empty()
    }

    /// Gives a thread a seat, which has this meter.
    pub(crate) fn give(&mut self, thread: ObjectId) -> Meter
        requires { length self.old.seated < self.old.seats }
        ensures { self.new ≡ places_with (self.old.seated ++ thread ∷ []) self.old.seats }
    {
        let meter = self.meters.pop().unwrap();
        self.seated.push_reserved(thread);
        meter
    }
}

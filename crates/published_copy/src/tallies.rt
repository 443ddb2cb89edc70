//! How many events each thread has, so that no one walks the journal for it.
ghost use Rattle.std.specs.Prelude.{◌≡◌, ◌≤◌, ◌<◌, ◌==◌, ℕ, if◌then◌else◌, length};
ghost use Rattle.std.specs.Prelude.{vec_len, vec_capacity};
ghost use Rattle.published_copy.specs.Tallies.{place_of, tallied};

use base::ObjectId;

/// A thread that has events, with their count.
#[derive(Clone, Copy)]
pub(crate) struct Tally {
    /// The thread.
    pub(crate) thread: ObjectId,
    /// How many events it has.
    pub(crate) events: u64,
}

/// Where a thread stands among the tallies, or how many there are where it doesn't.
pub(crate) fn place_of(tallies: &[Tally], thread: ObjectId) -> usize
    ensures place { result ≡ place_of thread tallies.now }
    ensures within { result ≤ length tallies.now }
{
    for (i, tally) in tallies.iter().enumerate() {
        if tally.thread == thread {
            return i;
        }
    }
    tallies.len()
}

/// How many events a thread has, none where it doesn't stand among the tallies.
pub(crate) fn events_of(tallies: &[Tally], thread: ObjectId) -> u64
    ensures { result ≡ tallied thread tallies.now }
{
    match tallies.get(place_of(tallies, thread)) {
        None => 0,
        Some(tally) => tally.events,
    }
}

/// The thread that stands in a place among the tallies has so many events, and any other as many as it had.
fn set_events(tallies: &mut [Tally], place: usize, thread: ObjectId, events: u64)
    requires place { place ≡ place_of thread tallies.old }
    requires within { place < length tallies.old }
    ensures { (other : ℕ) → tallied other tallies.new
        ≡ (if thread == other then events else tallied other tallies.old) }
{
    tallies[place] = Tally { thread, events };
}

/// A thread has so many events, and any other as many as it had. There is room for one tally more.
pub(crate) fn count_events(tallies: &mut Vec<Tally>, thread: ObjectId, events: u64)
    requires { vec_len tallies.old < vec_capacity tallies.old }
    ensures { (other : ℕ) → tallied other tallies.new.items
        ≡ (if thread == other then events else tallied other tallies.old.items) }
{
    let place = place_of(tallies.as_slice(), thread);
    if place == tallies.len() {
        tallies.push_reserved(Tally { thread, events });
    } else {
        set_events(tallies.as_mut_slice(), place, thread, events);
    }
}

//! Why a thread is given no seat.
ghost use Rattle.std.specs.Prelude.{◌≡◌, ◌≤◌, ◌<◌, true, length, IfNone};
ghost use Rattle.base.specs.declared.kinds.Kind.TheVariants as kinds;
ghost use Rattle.kernel_rules.specs.State.{is_live_kind};
ghost use Rattle.syscall_core.specs.Kernel.{kernel_state};
ghost use Rattle.published_copy.specs.Seats.{refused_at};
ghost use Rattle.published_copy.specs.Tallies.{tallied};

use crate::places::Places;
use crate::refusals::SeatRefusal;
use crate::tallies::{Tally, events_of};
use base::{Meter, ObjectId};
use syscall_core::Kernel;

/// Why a thread is given no seat, if anything: the least that holds, by the seats that were given, the events of each
/// thread and the kernel.
pub(crate) fn seat_refusal(
    places: &Places,
    tallies: &[Tally],
    kernel: &Kernel,
    thread: ObjectId,
    meter: &mut Meter,
) -> Option<SeatRefusal>
    ensures row { result
        ≡ refused_at (kernel_state kernel.now) (tallied thread tallies.now) places.now thread }
    ensures live { IfNone result
        (is_live_kind (kernel_state kernel.now) kinds.Thread thread ≡ true) }
    ensures first { IfNone result (tallied thread tallies.now ≡ 0) }
    ensures room { IfNone result (length places.now.seated < places.now.seats) }
    ensures within { length places.now.seated ≤ places.now.seats }
{
    if places.has(thread) || events_of(tallies, thread) > 0 {
        return Some(SeatRefusal::SeatTaken);
    }
    if !kernel.is_thread(thread, meter) {
        return Some(SeatRefusal::NoThread);
    }
    if places.are_spent() {
        return Some(SeatRefusal::SeatsSpent);
    }
    None
}

//! The functions that C calls. Each only finds what lies in C's memory, and calls a safe function.
ghost use Rattle.std.specs.Prelude.{◌≡◌};
ghost use Rattle.std.specs.Borrow.{full_share, sem};
ghost use Rattle.std.specs.Ptr.{lies_at, room_at};
ghost use denote.Param.{layout};
ghost use prog.Memory.{capped, size};
ghost use Rattle.shared_c.specs.contracts.held.HeldSeat.{the_row as SeatRow};
ghost use Rattle.shared_c.specs.contracts.readers.HeldReader.{the_row as ReaderRow};
ghost use Rattle.shared_c.specs.Readers.{IsReaderOf, IsReadBy, reader_in};
ghost use Rattle.shared_c.specs.Served.{has_log, IsFirstSeat, IsSeatBeside, IsServed, limits_of, seat_in};

use crate::held::{HeldSeat, beside, end_seat, first, serve};
use crate::readers::{HeldReader, end_reader, read, reader_of};
use call_records::{Answer, Request};
use std::alloc::Global;

/// The first seat of a kernel to share, in room for it, with limits as `base::Limits` has them, and a list of which a seat may lack so
/// many batches; with a log, unless `logs` is 0, it may have so many. The room then holds the seat, or why there is none: 30 for want
/// of memory, 31 for limits out of range.
#[unsafe(no_mangle)]
pub unsafe extern "C" fn histar_seat_first(
    alloc: Global,
    pages: u32,
    device: u8,
    next_id: u64,
    next_category: u64,
    most: u64,
    logs: u8,
    at: *mut u8,
)
    requires* { sem 𝓛 (room_at SeatRow at) }
    ensures* { ∃ₛ (λ (held : HeldSeat). sem 𝓛 (lies_at SeatRow full_share at held)
        ∗ ⌜ IsFirstSeat (limits_of pages device next_id next_category) (has_log logs) (seat_in held.seat) ⌝) }
{
    at.cast::<HeldSeat>().write(first(alloc, pages, device, next_id, next_category, most, logs));
}

/// Another seat beside the one that a room holds, in room for it, which then holds the seat, or why there is none.
#[unsafe(no_mangle)]
pub unsafe extern "C" fn histar_seat_beside(from: *mut u8, alloc: Global, at: *mut u8)
    ghost other: { HeldSeat }
    requires* { sem 𝓛 (lies_at SeatRow full_share from other) ∗ sem 𝓛 (room_at SeatRow at) }
    ensures* { ∃ₛ (λ (held : HeldSeat). sem 𝓛 (lies_at SeatRow full_share from other)
        ∗ sem 𝓛 (lies_at SeatRow full_share at held) ∗ ⌜ IsSeatBeside (seat_in other.seat) (seat_in held.seat) ⌝) }
{
    at.cast::<HeldSeat>()
        .write(beside(&mut *from.cast::<HeldSeat>(), alloc));
}

/// Does what the record asks for through the seat, and gives the number of the refusal: 0 for none, 45 where the record asks
/// for nothing. 40 is want of memory, 46 comes where another seat adds a batch at this moment, and 47 where the list has no
/// room: no call is made then. Where no seat is held, it gives 30 or 31, and nothing changes.
#[unsafe(no_mangle)]
pub unsafe extern "C" fn histar_seat_call(
    at: *mut u8,
    request: &Request,
    answer: &mut Answer,
) -> u32
    ghost before: { HeldSeat }
    requires* { sem 𝓛 (lies_at SeatRow full_share at before) }
    ensures* { ∃ₛ (λ (after : HeldSeat). sem 𝓛 (lies_at SeatRow full_share at after)
        ∗ ⌜ IsServed request.now before.seat after.seat result answer.old answer.new ⌝) }
{
    serve(&mut *at.cast::<HeldSeat>(), request, answer)
}

/// Gives back all that the seat took. The memory is room again.
#[unsafe(no_mangle)]
pub unsafe extern "C" fn histar_seat_end(at: *mut u8)
    ghost before: { HeldSeat }
    requires* { sem 𝓛 (lies_at SeatRow full_share at before) }
    ensures* { sem 𝓛 (room_at SeatRow at) }
{
    end_seat(at.cast::<HeldSeat>().read());
}

/// How many bytes the room for a seat has, at a multiple of 16.
#[unsafe(no_mangle)]
pub extern "C" fn histar_seat_size() -> usize
    ensures { result ≡ capped (size (layout SeatRow)) }
{
    std::mem::size_of::<HeldSeat>()
}

/// A reader of the kernel of the seat that a room holds, in room for it, which then holds the reader, or why there is none. As long as there
/// is a reader, the seat sees no more, and its write calls are refused 46.
#[unsafe(no_mangle)]
pub unsafe extern "C" fn histar_reader_of(from: *mut u8, alloc: Global, at: *mut u8)
    ghost other: { HeldSeat }
    requires* { sem 𝓛 (lies_at SeatRow full_share from other) ∗ sem 𝓛 (room_at ReaderRow at) }
    ensures* { ∃ₛ (λ (held : HeldReader). sem 𝓛 (lies_at SeatRow full_share from other)
        ∗ sem 𝓛 (lies_at ReaderRow full_share at held) ∗ ⌜ IsReaderOf (seat_in other.seat) (reader_in held.reader) ⌝) }
{
    at.cast::<HeldReader>()
        .write(reader_of(&mut *from.cast::<HeldSeat>(), alloc));
}

/// Answers the query that the record asks, in the state that the seat was in, and gives the number of the refusal: 0 for none, 45 where
/// the record asks no query. Readers of one seat are called at once. Where no reader is held, it gives why, and nothing changes.
#[unsafe(no_mangle)]
pub unsafe extern "C" fn histar_reader_call(
    at: *mut u8,
    request: &Request,
    answer: &mut Answer,
) -> u32
    ghost before: { HeldReader }
    requires* { sem 𝓛 (lies_at ReaderRow full_share at before) }
    ensures* { ∃ₛ (λ (after : HeldReader). sem 𝓛 (lies_at ReaderRow full_share at after)
        ∗ ⌜ IsReadBy request.now before.reader after.reader result answer.old answer.new ⌝) }
{
    read(&mut *at.cast::<HeldReader>(), request, answer)
}

/// Gives back all that the reader took. The memory is room again.
#[unsafe(no_mangle)]
pub unsafe extern "C" fn histar_reader_end(at: *mut u8)
    ghost before: { HeldReader }
    requires* { sem 𝓛 (lies_at ReaderRow full_share at before) }
    ensures* { sem 𝓛 (room_at ReaderRow at) }
{
    end_reader(at.cast::<HeldReader>().read());
}

/// How many bytes the room for a reader has, at a multiple of 16.
#[unsafe(no_mangle)]
pub extern "C" fn histar_reader_size() -> usize
    ensures { result ≡ capped (size (layout ReaderRow)) }
{
    std::mem::size_of::<HeldReader>()
}

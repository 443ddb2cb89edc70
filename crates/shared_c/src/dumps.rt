//! The dump of what a seat has seen, for C.
ghost use Rattle.std.specs.Prelude.{◌≡◌, None};
ghost use Rattle.shared_c.specs.Served.{dump_of_piece, IsDumpBegun, IsDumped, IsFirstMade, IsLogAsked, IsPieceMade, IsTextKept};

use crate::held::KeptSeat;
use call_records::{Answer, LogRequest, tell_length, tell_text};
use shared_calls::{DumpRefusal, SeatDump};

/// Keeps a piece of a dump that was made, and the dump after it, tells how many bytes the piece has, and gives 0.
fn keep_piece(
    kept: &mut KeptSeat,
    text: Vec<u8>,
    dump: Option<SeatDump>,
    answer: &mut Answer,
) -> u32
    ensures { IsTextKept text.items dump kept.old kept.new result answer.new }
{
    tell_length(text.as_slice(), answer);
    kept.text = text;
    kept.dump = dump;
    0
}

/// Makes the next piece of a dump, and gives 0; 51 for want of memory, and the dump is over.
fn make_next(kept: &mut KeptSeat, dump: SeatDump, answer: &mut Answer) -> u32
    requires { kept.old.dump ≡ None }
    ensures { IsPieceMade dump kept.old kept.new result answer.old answer.new }
{
    match dump.next_piece(kept.alloc) {
        Ok((text, later)) => keep_piece(kept, text, later, answer),
        Err(_) => 51,
    }
}

/// Makes the first piece of the dump of what the seat has seen, and gives 0; 45 where the list has no log, and else 51 where it is not made.
fn make_first(kept: &mut KeptSeat, answer: &mut Answer) -> u32
    requires { kept.old.dump ≡ None }
    ensures { IsFirstMade kept.old kept.new result answer.old answer.new }
{
    match kept.seat.begin_dump(kept.alloc) {
        Ok(dump) => make_next(kept, dump, answer),
        Err(DumpRefusal::NoLog) => 45,
        Err(_) => 51,
    }
}

/// Begins the dump of what the list has more than the seat has seen, up to so many batches, and gives 0; 48 where the seat has seen more or
/// the list has fewer, and else 51. The dump before is over.
pub(crate) fn begin_dump(kept: &mut KeptSeat, count: u64) -> u32
    ensures { IsDumpBegun count kept.old kept.new result }
{
    kept.dump = None;
    match kept.seat.begin_dump_to(kept.alloc, count as usize) {
        Ok(dump) => {
            kept.dump = Some(dump);
            0
        }
        Err(DumpRefusal::Ahead) => 48,
        Err(DumpRefusal::Short) => 48,
        Err(_) => 51,
    }
}

/// The dump, where its next piece has this number.
fn of_piece(dump: Option<SeatDump>, piece: u64) -> Option<SeatDump>
    ensures { result ≡ dump_of_piece piece dump }
{
    let dump = dump?;
    if dump.number() == piece {
        return Some(dump);
    }
    None
}

/// Makes a piece of a dump: the next one, or the first one of what the seat has seen. Any other is empty, and the dump is over.
fn make_piece(kept: &mut KeptSeat, piece: u64, answer: &mut Answer) -> u32
    ensures { IsDumped piece kept.old kept.new result answer.old answer.new }
{
    if let Some(dump) = of_piece(kept.dump.take(), piece) {
        return make_next(kept, dump, answer);
    }
    if piece == 0 {
        return make_first(kept, answer);
    }
    let none = Vec::new(kept.alloc);
    keep_piece(kept, none, None, answer)
}

/// Does what is asked of the log, which a seat has from the start or never, and gives the number of the refusal: 45 where it should
/// begin or be cut, and of checkpoints.
#[inline(never)]
pub(crate) fn answer_log(kept: &mut KeptSeat, asked: LogRequest, answer: &mut Answer) -> u32
    ensures { IsLogAsked asked kept.old kept.new result answer.old answer.new }
{
    match asked {
        LogRequest::Begin { .. } => 45,
        LogRequest::Checkpoint { .. } => 45,
        LogRequest::Cut { .. } => 45,
        LogRequest::Dump { piece } => make_piece(kept, piece, answer),
        LogRequest::Text { from } => {
            tell_text(kept.text.as_slice(), from, answer);
            0
        }
    }
}

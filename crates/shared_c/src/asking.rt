//! What is asked of a seat beside calls and queries.
ghost use Rattle.std.specs.Prelude.{◌≡◌, ◌∷◌, [], option_map};
ghost use Rattle.call_records.specs.Told.{Has};
ghost use Rattle.shared_c.specs.Asking.{batch_call_of, seat_request_of};

use call_records::{Answer, Request, call_into};
use kernel_rules::Call;

/// What is asked of a seat.
#[derive(Clone, Copy)]
pub enum SeatRequest {
    /// How many batches it has seen.
    Seen,
    /// That it sees as many batches as a note tells.
    Learn {
        /// How many batches were seen.
        count: u64,
    },
    /// That the calls are forgotten that were kept for a batch.
    Begin,
    /// That the calls which were kept are made as one batch.
    Make,
    /// What a call of the batch that was made last was answered.
    Told {
        /// The place of the call, from 0.
        at: u64,
    },
    /// That the dump begins of what the list has more, up to so many batches.
    DumpTo {
        /// How many batches a note tells.
        count: u64,
    },
}

/// What a record asks of a seat. None where its number is not 43 to 47, and not 50.
pub(crate) fn seat_request_of(request: &Request) -> Option<SeatRequest>
    ensures { result ≡ seat_request_of request.now }
{
    Some(match request.call {
        43 => SeatRequest::Seen,
        44 => SeatRequest::Learn {
            count: request.numbers[0],
        },
        45 => SeatRequest::Begin,
        46 => SeatRequest::Make,
        47 => SeatRequest::Told {
            at: request.numbers[0],
        },
        50 => SeatRequest::DumpTo {
            count: request.numbers[0],
        },
        _ => return None,
    })
}

/// Writes the write call that a record asks to keep for a batch over the one that is lent. Gives `None`, and what is written there
/// then means nothing, where its number is not 64 more than that of a write call, or a number, the bytes or a label are malformed.
#[inline(never)]
pub(crate) fn batch_call_into(request: &Request, call: &mut Call) -> Option<()>
    ensures { option_map (λ done. call.new) result ≡ batch_call_of request.now }
{
    if request.call < 65 {
        return None;
    }
    let mut plain = *request;
    plain.call = request.call - 64;
    call_into(&plain, call)
}

/// Writes into an answer how many batches were seen.
pub(crate) fn tell_count(count: u64, answer: &mut Answer)
    ensures { Has 15 (count ∷ []) answer.new }
{
    answer.reply = 15;
    answer.numbers[..1].copy_from_slice(&[count]);
}

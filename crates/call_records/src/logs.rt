//! What is asked of the log of the calls that were made and of checkpoints, and what is told of their texts.
ghost use Rattle.std.specs.Prelude.{◌≡◌, take, drop};
ghost use Rattle.kernel_rules.specs.declared.replies.Reply.TheVariants as replies;
ghost use Rattle.call_records.specs.Logs.{log_request_of, TellsLength};
ghost use Rattle.call_records.specs.Told.{Tells};

use crate::answers::{put, put_bytes};
use crate::records::{Answer, Request};
use base::Data;

/// What is asked of the log, and of checkpoints.
#[derive(Clone, Copy)]
pub enum LogRequest {
    /// That it begins.
    Begin {
        /// How many events and reads it may have.
        most: u64,
        /// Whether reads are kept too.
        reads: bool,
    },
    /// That a piece of its dump is made, and how many bytes the text has.
    Dump {
        /// The number of the piece, from 0.
        piece: u64,
    },
    /// Up to 64 bytes of the text that was made last.
    Text {
        /// The place of the first, from 0.
        from: u64,
    },
    /// That a piece of the text of a checkpoint is made, and how many bytes it has.
    Checkpoint {
        /// The number of the piece, from 0.
        piece: u64,
    },
    /// That it begins anew.
    Cut {
        /// How many events and reads it may have.
        most: u64,
        /// Whether reads are kept too.
        reads: bool,
    },
}

/// What a record asks of the log. None where its number is not 40 to 42, 48 or 49.
pub fn log_request_of(request: &Request) -> Option<LogRequest>
    ensures { result ≡ log_request_of request.now }
{
    Some(match request.call {
        40 => LogRequest::Begin {
            most: request.numbers[0],
            reads: request.numbers[1] != 0,
        },
        41 => LogRequest::Dump {
            piece: request.numbers[0],
        },
        42 => LogRequest::Text {
            from: request.numbers[0],
        },
        48 => LogRequest::Checkpoint {
            piece: request.numbers[0],
        },
        49 => LogRequest::Cut {
            most: request.numbers[0],
            reads: request.numbers[1] != 0,
        },
        _ => return None,
    })
}

/// Writes into an answer how many bytes a text has.
pub fn tell_length(text: &[u8], answer: &mut Answer)
    ensures { TellsLength text.now answer.new }
{
    put(14, &[text.len() as u64], answer);
}

/// The first 64 bytes, or all where there are fewer.
fn first_bytes(text: &[u8]) -> Data
    ensures { result ≡ take 64 text.now }
{
    if text.len() <= 64 {
        return Data::from_slice(text);
    }
    Data::from_slice(&text[..64])
}

/// The bytes from a place on, none from the end on.
fn rest_from(text: &[u8], from: u64) -> &[u8]
    ensures { result.now ≡ drop from text.now }
{
    if from >= text.len() as u64 {
        return &[];
    }
    &text[from as usize..]
}

/// Writes up to 64 bytes of a text into an answer, from a place on, as a reply tells bytes.
pub fn tell_text(text: &[u8], from: u64, answer: &mut Answer)
    ensures { Tells (replies.Bytes (take 64 (drop from text.now))) answer.new }
{
    put_bytes(&first_bytes(rest_from(text, from)), answer);
}

//! The replies of events.
ghost use Rattle.std.specs.Prelude.{◌≡◌, ◌<◌, ◌^◌, ◌++◌, ◌↔◌, IsTrue, OnOk, decimal, codes};
ghost use Rattle.text_words.specs.Reading.{Reads};
ghost use Rattle.text_words.specs.DataWord.{data_text, IsData};
ghost use Rattle.call_text.specs.ReplyWord.{refusal_text};
ghost use Rattle.dump_text.specs.Report.{report_text, IsReport, IsKernels, entered_text};
ghost use Rattle.dump_text.specs.Report.{AreEntered};
ghost use Rattle.dump_text.specs.Fits.{FitsReply};

use crate::stripping::after;
use crate::words::are_bytes;
use base::{Category, Data, NoMemory, ObjectId, Refusal};
use call_text::{NameList, parted, put_reply};
use itoa::Buffer;
use kernel_rules::Reply;
use text_words::{is_same, read_data, read_number};

/// The refusals of a kernel.
const KERNELS: [Refusal; 25] = [
    Refusal::Halted,
    Refusal::NoAccess,
    Refusal::NoEntry,
    Refusal::WrongType,
    Refusal::CannotObserve,
    Refusal::CannotModify,
    Refusal::BadLabel,
    Refusal::LabelRange,
    Refusal::ClearanceRange,
    Refusal::LabelFull,
    Refusal::AvoidType,
    Refusal::NoQuota,
    Refusal::FixedQuota,
    Refusal::NotFixed,
    Refusal::AlreadyLinked,
    Refusal::RootKept,
    Refusal::Immutable,
    Refusal::Bounds,
    Refusal::NotMapped,
    Refusal::RightsDenied,
    Refusal::Overlap,
    Refusal::GateDenied,
    Refusal::DeviceFull,
    Refusal::DeviceEmpty,
    Refusal::Spent,
];

/// Whether the word is the number.
fn is_number(word: &[u8], number: u64) -> bool
    ensures { IsTrue result ↔ (word.now ≡ decimal number) }
{
    let mut buffer = Buffer::new();
    is_same(word, buffer.format(number).as_bytes())
}

/// Whether the text is the refusal's number and name.
fn is_refusal(text: &[u8], refusal: Refusal) -> bool
    ensures { IsTrue result ↔ (text.now ≡ refusal_text refusal) }
{
    let Some((number, name)) = parted(text, b' ') else {
        return false;
    };
    if !is_number(number, u64::from(refusal.number())) {
        return false;
    }
    is_same(name, refusal.name().as_bytes())
}

/// The refusal of a kernel whose number and name the text is.
fn refusal_in(text: &[u8]) -> Option<Refusal>
    ensures { Reads refusal_text IsKernels text.now result }
{
    for refusal in KERNELS {
        if is_refusal(text, refusal) {
            return Some(refusal);
        }
    }
    None
}

/// The number after the beginning.
fn number_after(text: &[u8], beginning: &[u8]) -> Option<u64>
    ensures { Reads (λ n. beginning.now ++ decimal n) (λ n. n < 2 ^ 64) text.now result }
{
    let Some(digits) = after(text, beginning) else {
        return None;
    };
    read_number(digits, u64::MAX)
}

/// Where a thread that entered a gate runs, and what it was handed.
fn read_entered(text: &[u8]) -> Option<(u64, u64)>
    ensures { Reads entered_text AreEntered text.now result }
{
    let Some(numbers) = after(text, b"entered ") else {
        return None;
    };
    let Some((first, second)) = parted(numbers, b' ') else {
        return None;
    };
    let Some(entry_point) = read_number(first, u64::MAX) else {
        return None;
    };
    let Some(closure) = read_number(second, u64::MAX) else {
        return None;
    };
    Some((entry_point, closure))
}

/// Bytes that were received.
fn read_bytes(text: &[u8]) -> Option<Data>
    ensures { Reads (λ d. codes "data " ++ data_text d) IsData text.now result }
{
    let Some(word) = after(text, b"data ") else {
        return None;
    };
    read_data(word)
}

/// Why a kernel refused.
pub fn read_refused(text: &[u8]) -> Option<Refusal>
    ensures { Reads (λ r. codes "refused " ++ refusal_text r) IsKernels text.now result }
{
    let Some(words) = after(text, b"refused ") else {
        return None;
    };
    refusal_in(words)
}

/// The reply of an event that the text spells.
pub fn read_report(text: &[u8]) -> Option<Reply>
    ensures { Reads report_text IsReport text.now result }
{
    if is_same(text, b"ok") {
        return Some(Reply::Done);
    }
    if let Some(number) = number_after(text, b"cat #") {
        return Some(Reply::Category(Category(number)));
    }
    if let Some(number) = number_after(text, b"id #") {
        return Some(Reply::Object(ObjectId::new(number)));
    }
    if let Some((entry_point, closure)) = read_entered(text) {
        return Some(Reply::Entered {
            entry_point,
            closure,
        });
    }
    if let Some(bytes) = read_bytes(text) {
        return Some(Reply::Bytes(bytes));
    }
    if let Some(refusal) = read_refused(text) {
        return Some(Reply::Refused(refusal));
    }
    None
}

/// Tells of a number what its type tells.
fn is_wide(number: u64)
    ensures { number < 2 ^ 64 }
{
    // For the proof alone: a number that is read is in its type's range.
    let _ = number;
}

/// Tells of a reply what the types of its parts tell.
fn fits(reply: &Reply)
    ensures { FitsReply reply.now }
{
    match reply {
        Reply::Category(category) => is_wide(category.0),
        Reply::Object(id) => is_wide(id.number()),
        Reply::Entered {
            entry_point,
            closure,
        } => {
            is_wide(*entry_point);
            is_wide(*closure);
        }
        Reply::Bytes(bytes) => are_bytes(bytes.as_slice()),
        _ => (),
    }
}

/// Adds the spelling of the reply, whose parts are in their ranges by their types.
pub fn put_report(out: &mut Vec<u8>, reply: &Reply) -> Result<(), NoMemory>
    ensures text { OnOk result (out.new.items ≡ out.old.items ++ report_text reply.now) }
    ensures fits { OnOk result (FitsReply reply.now) }
{
    fits(reply);
    put_reply(out, reply, &NameList { named: &[] })
}

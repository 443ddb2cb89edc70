//! The words of a request: what a call names, beside labels.
ghost use Rattle.std.specs.Prelude.{◌≡◌, ◌<◌};
ghost use Rattle.call_records.specs.Words.{entry_of, other_of, number_at, index_at, signed_at, kinds_of};
ghost use Rattle.call_records.specs.Words.{rights_of, bytes_of};

use crate::records::Request;
use base::{Data, ObjectId, Rights, TypeSet};
use kernel_rules::Entry;

/// The first entry.
pub(crate) fn entry_of(request: &Request) -> Entry
    ensures { result ≡ entry_of request.now }
{
    Entry {
        container: ObjectId::new(request.container),
        object: ObjectId::new(request.object),
    }
}

/// The second entry.
pub(crate) fn other_of(request: &Request) -> Entry
    ensures { result ≡ other_of request.now }
{
    Entry {
        container: ObjectId::new(request.other_container),
        object: ObjectId::new(request.other_object),
    }
}

/// A number, 0 to 4 by its place, if it has 32 bits.
pub(crate) fn number_at(request: &Request, place: usize) -> Option<u32>
    requires { place < 5 }
    ensures { result ≡ number_at request.now place }
{
    u32::try_from(request.numbers[place]).ok()
}

/// A number, 0 to 4 by its place, if it has 16 bits.
pub(crate) fn index_at(request: &Request, place: usize) -> Option<u16>
    requires { place < 5 }
    ensures { result ≡ index_at request.now place }
{
    u16::try_from(request.numbers[place]).ok()
}

/// A signed number, 0 to 4 by its place: 32 bits in two's complement.
pub(crate) fn signed_at(request: &Request, place: usize) -> Option<i32>
    requires { place < 5 }
    ensures { result ≡ signed_at request.now place }
{
    Some(number_at(request, place)?.cast_signed())
}

/// A set of kinds: six bits, in the order of the kinds.
pub(crate) fn kinds_of(number: u64) -> Option<TypeSet>
    ensures { result ≡ kinds_of number }
{
    if number >= 64 {
        return None;
    }
    Some(TypeSet {
        container: number % 2 == 1,
        segment: number / 2 % 2 == 1,
        address_space: number / 4 % 2 == 1,
        thread: number / 8 % 2 == 1,
        gate: number / 16 % 2 == 1,
        device: number / 32 % 2 == 1,
    })
}

/// Rights: a bit to read, and one to write.
pub(crate) fn rights_of(number: u64) -> Option<Rights>
    ensures { result ≡ rights_of number }
{
    if number >= 4 {
        return None;
    }
    Some(Rights {
        read: number % 2 == 1,
        write: number / 2 % 2 == 1,
    })
}

/// The bytes, if there are at most 64.
pub(crate) fn bytes_of(request: &Request) -> Option<Data>
    ensures { result ≡ bytes_of request.now }
{
    if request.len > 64 {
        return None;
    }
    Some(Data::from_slice(&request.bytes[..request.len as usize]))
}

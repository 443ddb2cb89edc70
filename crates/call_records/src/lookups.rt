//! Look-ups in what a kernel keeps beside its objects, for who tests or audits it. They are made of no thread.
ghost use Rattle.std.specs.Prelude.{◌≡◌};
ghost use Rattle.call_records.specs.Lookups.{lookup_of, TellsFound};

use crate::answers::{bit, put};
use crate::labels::put_label;
use crate::records::{Answer, Request};
use crate::words::{index_at, number_at};
use base::{Meter, ObjectId, Rights};
use label_lattice::Label;

/// What is looked up.
#[derive(Clone, Copy)]
pub enum Lookup {
    /// The id at a place among the live ids, which rise.
    Live {
        /// The place, from 0.
        place: u32,
    },
    /// What an object uses.
    Used {
        /// The object.
        id: ObjectId,
    },
    /// What a slot of a thread's address space shows.
    Shown {
        /// The thread.
        thread: ObjectId,
        /// The slot: 0 to 15.
        slot: u32,
    },
    /// The label of an index.
    Label {
        /// The index, from 0.
        index: u16,
    },
    /// How the labels of two indexes compare.
    Order {
        /// The index of the one.
        first: u16,
        /// The index of the other.
        second: u16,
    },
}

/// What is found.
#[derive(Clone, Copy)]
pub enum Found {
    /// Nothing.
    Nothing,
    /// A live id.
    Live(ObjectId),
    /// A use, in pages of 256 bytes.
    Used(u32),
    /// A segment, with the rights to it.
    Shown(ObjectId, Rights),
    /// A label.
    Label(Label),
    /// The bits of an order, 0 to 7, as `Compared` has them.
    Order(u8),
}

/// The look-up that a record asks for. None where it asks for none: its number is not 35 to 39, or a number is malformed.
pub fn lookup_of(request: &Request) -> Option<Lookup>
    ensures { result ≡ lookup_of request.now }
{
    let object = ObjectId::new(request.object);
    Some(match request.call {
        35 => Lookup::Live {
            place: number_at(request, 0)?,
        },
        36 => Lookup::Used { id: object },
        37 => Lookup::Shown {
            thread: object,
            slot: number_at(request, 0)?,
        },
        38 => Lookup::Label {
            index: index_at(request, 0)?,
        },
        39 => Lookup::Order {
            first: index_at(request, 0)?,
            second: index_at(request, 1)?,
        },
        _ => return None,
    })
}

/// Writes what is found into an answer.
pub fn tell_found(found: &Found, answer: &mut Answer, meter: &mut Meter)
    ensures { TellsFound found.now answer.new }
{
    answer.len = 1;
    match found {
        Found::Nothing => {
            answer.len = 0;
            put(13, &[], answer);
        }
        Found::Live(id) => put(13, &[id.number()], answer),
        Found::Used(pages) => put(13, &[*pages as u64], answer),
        Found::Shown(segment, rights) => {
            let numbers = [segment.number(), bit(rights.read), bit(rights.write)];
            put(13, &numbers, answer);
        }
        Found::Label(label) => {
            put_label(label, &mut answer.label, meter);
            put(13, &[], answer);
        }
        Found::Order(bits) => put(13, &[*bits as u64], answer),
    }
}

//! What stands in the lines of checkpoints that are no object's own.
ghost use Rattle.std.specs.Prelude.{◌≡◌, ◌↔◌, ◌++◌, List, IsTrue, IfSome, IfNone};
ghost use Rattle.kernel_rules.specs.declared.calls.Entry.{Entry as EntryValue};
ghost use Rattle.text_words.specs.declared.spoken_calls.args.Arg.{Arg as ArgValue};
ghost use Rattle.dump_text.specs.Word.{args_of};
ghost use Rattle.dump_text.specs.Making.{Makes};
ghost use Rattle.dump_text.specs.Allowed.{Anything};
ghost use Rattle.dump_text.specs.Head.{plain_entry, IsFull};
ghost use Rattle.dump_text.specs.StateLine.{counters_words, packet_words, row_words, slot_words};
ghost use Rattle.dump_text.specs.StateLine.{next_words, IsRow};

use crate::line_words::Worded;
use crate::state_lines::{Counters, Row};
use base::{Data, ObjectId};
use checkpoints::{FilledSlot, NextNumber};
use kernel_rules::{Entry, Mapping};
use text_words::spoken_calls::Arg;

/// An entry, its ids as plain numbers, and the words after it.
pub fn entry_in(args: &[Arg]) -> Option<(Entry, &[Arg])>
    ensures some { IfSome result (λ r. args.now ≡ args_of (plain_entry r.0) ++ r.1.now) }
    ensures none { IfNone result ((e : EntryValue) (rest : List ArgValue)
        → args.now ≡ args_of (plain_entry e) ++ rest → ⊥) }
{
    let [Arg::Wide(container), Arg::Wide(object), rest @ ..] = args else {
        return None;
    };
    let entry = Entry {
        container: ObjectId::new(*container),
        object: ObjectId::new(*object),
    };
    Some((entry, rest))
}

/// Whether metadata or a line of bytes are whole: 64 bytes.
pub fn is_full(bytes: &Data) -> bool
    ensures { IsTrue result ↔ IsFull bytes.now }
{
    bytes.as_slice().len() == 64
}

/// The next id and the next category.
impl Worded for Counters {
    ghost words = { counters_words };

    ghost Allows = { Anything };

    fn of_args(args: &[Arg]) -> Option<Counters> {
        match args {
            [Arg::Wide(next_id), Arg::Wide(next_category)] => Some(Counters {
                next_id: *next_id,
                next_category: *next_category,
            }),
            _ => None,
        }
    }
}

/// 64 bytes of a segment.
impl Worded for Row {
    ghost words = { row_words };

    ghost Allows = { IsRow };

    fn of_args(args: &[Arg]) -> Option<Row> {
        let [Arg::Data(bytes)] = args else {
            return None;
        };
        if !is_full(bytes) {
            return None;
        }
        Some(Row { bytes: *bytes })
    }
}

/// A packet.
impl Worded for Data {
    ghost words = { packet_words };

    ghost Allows = { Anything };

    fn of_args(args: &[Arg]) -> Option<Data> {
        match args {
            [Arg::Data(bytes)] => Some(*bytes),
            _ => None,
        }
    }
}

/// A filled slot.
impl Worded for FilledSlot {
    ghost words = { slot_words };

    ghost Allows = { Anything };

    fn of_args(args: &[Arg]) -> Option<FilledSlot> {
        let [Arg::Number(slot), Arg::Number(page), more @ ..] = args else {
            return None;
        };
        let Some((entry, last)) = entry_in(more) else {
            return None;
        };
        let [Arg::Number(first), Arg::Number(count), Arg::Rights(rights)] = last else {
            return None;
        };
        Some(FilledSlot {
            slot: *slot,
            mapping: Mapping {
                page: *page,
                entry,
                first: *first,
                count: *count,
                rights: *rights,
            },
        })
    }
}

/// The number of a thread's next event.
impl Worded for NextNumber {
    ghost words = { next_words };

    ghost Allows = { Anything };

    fn of_args(args: &[Arg]) -> Option<NextNumber> {
        match args {
            [Arg::Wide(thread), Arg::Wide(number)] => Some(NextNumber {
                thread: ObjectId::new(*thread),
                number: *number,
            }),
            _ => None,
        }
    }
}

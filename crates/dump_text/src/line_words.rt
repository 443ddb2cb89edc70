//! What stands in the lines of the tables, and in those that head batches.
ghost use Rattle.std.specs.Prelude.{◌≡◌, ◌<◌, ◌++◌, length, IfOk, IfSome, IfNone};
ghost use Rattle.text_words.specs.Reading.{Reads};
ghost use Rattle.base.specs.declared.levels.Level.{Level as LevelValue};
ghost use Rattle.base.specs.declared.levels.Level.TheVariants.{Star};
ghost use Rattle.dump_text.specs.Making.{Makes};
ghost use Rattle.dump_text.specs.Allowed.{AreAllowed, Anything};
ghost use Rattle.dump_text.specs.Word.{words_text};
ghost use Rattle.dump_text.specs.Line.{digit_of, limits_words, use_words, map_words};
ghost use Rattle.dump_text.specs.Line.{batch_words, label_words, order_words};
ghost use Rattle.dump_text.specs.Line.{IsBootable, HasSeveral, HasThreeBits};
ghost use Rattle.dump_text.specs.StateLine.{id_words};

use crate::labels::numbered;
use crate::stripping::after;
use crate::tables::Stored;
use base::{Level, Limits, ObjectId};
use kernel_rules::{Compared, Shown, Used};
use std::alloc::{AllocError, Global};
use text_words::spoken_calls::{Arg, ArgKind, read_arguments};

/// The head of a batch of several calls, whose lines come after it.
#[derive(Clone, Copy)]
pub struct Batch {
    /// The thread that called.
    pub thread: ObjectId,
    /// Which of its thread's events it is, from 1.
    pub number: u64,
    /// How many calls it has: 2 to 16 in a dump.
    pub count: usize,
}

/// The level with the digit. No digit is that of a star.
fn level_of(digit: u32) -> Option<Level>
    ensures some { IfSome result (λ level. digit ≡ digit_of level) }
    ensures none { IfNone result ((level : LevelValue) → digit ≡ digit_of level → level ≡ Star) }
{
    match digit {
        0 => Some(Level::L0),
        1 => Some(Level::L1),
        2 => Some(Level::L2),
        3 => Some(Level::L3),
        _ => None,
    }
}

/// What a line tells by its words, after the first.
pub trait Worded: Sized {
    ghost use Rattle.std.specs.Prelude.{List};
    ghost use Rattle.dump_text.specs.declared.words.Word.{Word};

    /// The words.
    ghost words: { Self → List Word };

    /// Which values a line tells.
    ghost Allows: { Self → Type 0 };

    /// The value that has these words.
    fn of_args(args: &[Arg]) -> Option<Self>
        ensures { Makes words Allows args.now result };
}

/// The value that the text spells by a beginning and words of these kinds after it.
pub fn read_worded<V: Worded>(
    alloc: Global,
    text: &[u8],
    beginning: &[u8],
    kinds: &[ArgKind],
) -> Result<Option<V>, AllocError>
    requires { 0 < length kinds.now }
    ensures { IfOk result (λ found. Reads (λ v. beginning.now ++ words_text (V.words v))
        (AreAllowed kinds.now V.words V.Allows) text.now found) }
{
    let Some(rest) = after(text, beginning) else {
        return Ok(None);
    };
    let Some(args) = read_arguments(alloc, kinds, rest)? else {
        return Ok(None);
    };
    Ok(V::of_args(args.as_slice()))
}

/// Limits that a machine boots with.
impl Worded for Limits {
    ghost words = { limits_words };

    ghost Allows = { IsBootable };

    fn of_args(args: &[Arg]) -> Option<Limits> {
        let [
            Arg::Number(pages),
            Arg::Number(digit),
            Arg::Wide(next_id),
            Arg::Wide(next_category),
        ] = args
        else {
            return None;
        };
        let Some(device) = level_of(*digit) else {
            return None;
        };
        let limits = Limits {
            pages: *pages,
            device,
            next_id: *next_id,
            next_category: *next_category,
        };
        if !limits.is_in_range() {
            return None;
        }
        Some(limits)
    }
}

/// The head of a batch.
impl Worded for Batch {
    ghost words = { batch_words };

    ghost Allows = { HasSeveral };

    fn of_args(args: &[Arg]) -> Option<Batch> {
        match args {
            [Arg::Wide(thread), Arg::Wide(number), Arg::Number(count)]
                if 2 <= *count && *count <= 16 => {
                Some(Batch {
                    thread: ObjectId::new(*thread),
                    number: *number,
                    count: *count as usize,
                })
            }
            _ => None,
        }
    }
}

/// A live id, or one that a container lists.
impl Worded for ObjectId {
    ghost words = { id_words };

    ghost Allows = { Anything };

    fn of_args(args: &[Arg]) -> Option<ObjectId> {
        match args {
            [Arg::Wide(id)] => Some(ObjectId::new(*id)),
            _ => None,
        }
    }
}

/// What an object uses.
impl Worded for Used {
    ghost words = { use_words };

    ghost Allows = { Anything };

    fn of_args(args: &[Arg]) -> Option<Used> {
        match args {
            [Arg::Wide(id), Arg::Number(pages)] => Some(Used {
                id: ObjectId::new(*id),
                pages: *pages,
            }),
            _ => None,
        }
    }
}

/// What a slot shows.
impl Worded for Shown {
    ghost words = { map_words };

    ghost Allows = { Anything };

    fn of_args(args: &[Arg]) -> Option<Shown> {
        match args {
            [
                Arg::Wide(thread),
                Arg::Number(slot),
                Arg::Wide(segment),
                Arg::Rights(rights),
            ] => Some(Shown {
                thread: ObjectId::new(*thread),
                slot: *slot,
                segment: ObjectId::new(*segment),
                rights: *rights,
            }),
            _ => None,
        }
    }
}

/// A label with its place.
impl Worded for Stored {
    ghost words = { label_words };

    ghost Allows = { Anything };

    fn of_args(args: &[Arg]) -> Option<Stored> {
        let [Arg::Number(index), Arg::Label(label)] = args else {
            return None;
        };
        let Some(label) = numbered(label) else {
            return None;
        };
        Some(Stored {
            index: *index as usize,
            label,
        })
    }
}

/// How two labels compare, by three bits.
impl Worded for Compared {
    ghost words = { order_words };

    ghost Allows = { HasThreeBits };

    fn of_args(args: &[Arg]) -> Option<Compared> {
        match args {
            [Arg::Number(first), Arg::Number(second), Arg::Number(bits)] if *bits <= 7 => Some(
                Compared {
                    first: *first as usize,
                    second: *second as usize,
                    bits: *bits as u8,
                },
            ),
            _ => None,
        }
    }
}

//! Writing lines.
ghost use Rattle.std.specs.Prelude.{◌≡◌, ◌++◌, ◌∷◌, [], map, OnOk};
ghost use Rattle.std.specs.List.{AllByRecursion};
ghost use Rattle.call_text.specs.Text.{lines_text};
ghost use Rattle.dump_text.specs.Line.{digit_of, line_text, version_digit};
ghost use Rattle.dump_text.specs.Fits.{FitsLine};

use crate::events::{put_answered, put_single};
use crate::lines::{AsLine, Format, Line};
use crate::reads::put_read;
use crate::state_writing::put_state_words;
use crate::words::{Word, put_words};
use base::{Level, NoMemory};

/// The digit of a level.
fn digit_of(level: Level) -> u32
    ensures { result ≡ digit_of level }
{
    match level {
        Level::L0 => 0,
        Level::L1 => 1,
        Level::L2 => 2,
        Level::L3 => 3,
        Level::Star => 4,
    }
}

/// The digit of a format.
fn version_digit(format: Format) -> u8
    ensures { result ≡ version_digit format }
{
    match format {
        Format::One => b'1',
        Format::Two => b'2',
    }
}

/// Adds the words of the line.
fn put_line_words(out: &mut Vec<u8>, line: &Line) -> Result<(), NoMemory>
    ensures text { OnOk result (out.new.items ≡ out.old.items ++ line_text line.now) }
    ensures fits { OnOk result (FitsLine line.now) }
{
    match *line {
        Line::Version(format) => {
            out.extend_from_slice(b"histar-dump ")?;
            out.push(version_digit(format))?;
        }
        Line::Limits(limits) => {
            let more = [
                Word::Number(digit_of(limits.device)),
                Word::Wide(limits.next_id),
                Word::Wide(limits.next_category),
            ];
            put_words(out, b"limits ", &Word::Number(limits.pages), &more)?;
        }
        Line::State(line) => put_state_words(out, &line)?,
        Line::Event(event) => {
            out.extend_from_slice(b"event ")?;
            put_single(out, &event)?;
        }
        Line::Batch(batch) => {
            let more = [Word::Wide(batch.number), Word::Wide(batch.count as u64)];
            put_words(out, b"batch ", &Word::Wide(batch.thread.number()), &more)?;
        }
        Line::Call(answered) => {
            out.extend_from_slice(b"call ")?;
            put_answered(out, &answered)?;
        }
        Line::Read(read) => {
            out.extend_from_slice(b"read ")?;
            put_read(out, &read)?;
        }
        Line::Live(id) => put_words(out, b"live ", &Word::Wide(id.number()), &[])?,
        Line::Use(used) => {
            let more = [Word::Number(used.pages)];
            put_words(out, b"use ", &Word::Wide(used.id.number()), &more)?;
        }
        Line::Map(shown) => {
            let more = [
                Word::Number(shown.slot),
                Word::Wide(shown.segment.number()),
                Word::Rights(shown.rights),
            ];
            put_words(out, b"map ", &Word::Wide(shown.thread.number()), &more)?;
        }
        Line::Label(stored) => {
            let more = [Word::Label(stored.label)];
            put_words(out, b"label ", &Word::Wide(stored.index as u64), &more)?;
        }
        Line::Order(order) => {
            let more = [
                Word::Wide(order.second as u64),
                Word::Number(u32::from(order.bits)),
            ];
            put_words(out, b"order ", &Word::Wide(order.first as u64), &more)?;
        }
        Line::End => out.extend_from_slice(b"end")?,
    }
    Ok(())
}

/// Adds the line and its end.
pub fn put_line(out: &mut Vec<u8>, line: &Line) -> Result<(), NoMemory>
    ensures text { OnOk result (out.new.items ≡ out.old.items ++ (line_text line.now ++ 10 ∷ [])) }
    ensures fits { OnOk result (FitsLine line.now) }
{
    put_line_words(out, line)?;
    out.push(b'\n')?;
    Ok(())
}

/// Adds the line of each of them.
pub fn put_each<T: AsLine>(out: &mut Vec<u8>, items: &[T]) -> Result<(), NoMemory>
    ensures text { OnOk result (out.new.items
        ≡ out.old.items ++ lines_text line_text (map T.line items.now)) }
    ensures fits { OnOk result (AllByRecursion (λ x. FitsLine (T.line x)) items.now) }
    ensures lines { OnOk result (AllByRecursion FitsLine (map T.line items.now)) }
{
    for item in items {
        put_line(out, &item.as_line())?;
    }
    Ok(())
}

//! The lines that tell replies which hidden threads changed.
ghost use Rattle.std.specs.Prelude.{◌≡◌, ◌++◌, OnOk};
ghost use Rattle.std.specs.List.{flat_map};
ghost use Rattle.histar_audit.specs.Lines.{channel_name, difference_line, place_text, replies_text, where_text};

use base::NoMemory;
use call_text::{Named, Value};
use hidden_replies::{Channel, Difference};
use shown_dumps::states::{put_named, put_value};
use text_words::put_number;

/// The name of a channel.
fn channel_name(channel: Channel) -> &'static [u8]
    ensures { result.now ≡ channel_name channel }
{
    match channel {
        Channel::NextId => b"next id",
        Channel::NextCategory => b"next category",
        Channel::Untold => b"untold",
        Channel::NotOpen => b"not open",
        Channel::Shown => b"shown",
        Channel::Owner => b"owner",
    }
}

/// Adds where a call or a read stands in the dump.
fn put_where(text: &mut Vec<u8>, is_call: bool, event: u64, place: u64) -> Result<(), NoMemory>
    ensures { OnOk result (text.new.items ≡ text.old.items ++ where_text is_call event place) }
{
    let (before, between) = if is_call {
        ("differs at event ", ", call ")
    } else {
        ("differs after event ", ", read ")
    };
    text.extend_from_slice(before.as_bytes())?;
    put_number(text, event)?;
    text.extend_from_slice(between.as_bytes())?;
    put_number(text, place)?;
    Ok(())
}

/// The same, and who asked.
fn put_place(text: &mut Vec<u8>, difference: &Difference, names: &[Named]) -> Result<(), NoMemory>
    ensures { OnOk result (text.new.items ≡ text.old.items ++ place_text names.now difference.now) }
{
    put_where(text, difference.is_call, difference.event, difference.place)?;
    text.extend_from_slice(b", thread ")?;
    put_value(text, &Value::Object(difference.thread), names)
}

/// Adds both replies.
fn put_replies(text: &mut Vec<u8>, difference: &Difference, names: &[Named]) -> Result<(), NoMemory>
    ensures { OnOk result (text.new.items ≡ text.old.items ++ replies_text names.now difference.now) }
{
    text.extend_from_slice(b": ")?;
    put_named(text, &difference.reply, names)?;
    text.extend_from_slice(b", else ")?;
    put_named(text, &difference.otherwise, names)
}

/// Adds the line of a reply that differs.
fn put_difference(
    text: &mut Vec<u8>,
    difference: &Difference,
    names: &[Named],
) -> Result<(), NoMemory>
    ensures { OnOk result (text.new.items ≡ text.old.items ++ difference_line names.now difference.now) }
{
    put_place(text, difference, names)?;
    put_replies(text, difference, names)?;
    text.extend_from_slice(b", by ")?;
    text.extend_from_slice(channel_name(difference.channel))?;
    text.push(b'\n')?;
    Ok(())
}

/// Adds a line for each reply that differs, with what has a name told by it.
pub fn put_differences(
    text: &mut Vec<u8>,
    told: &[Difference],
    names: &[Named],
) -> Result<(), NoMemory>
    ensures { OnOk result (text.new.items ≡ text.old.items ++ flat_map (difference_line names.now) told.now) }
{
    for difference in told {
        put_difference(text, difference, names)?;
    }
    Ok(())
}

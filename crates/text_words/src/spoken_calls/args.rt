//! Arguments of calls.
ghost use Rattle.std.specs.Prelude.{IfOk};
ghost use Rattle.text_words.specs.Arg.{AddsArg};

use crate::{
    Reference, SpokenLabel, read_data, read_label, read_number, read_reference, read_rights,
    read_signed, read_types,
};
use base::{Data, Rights, TypeSet};
use std::alloc::{AllocError, Global};

/// What stands at a place of a call.
#[derive(Clone, Copy, PartialEq, Eq)]
pub enum ArgKind {
    /// An object.
    Object,
    /// A number below 2^32.
    Number,
    /// A number below 2^64.
    Wide,
    /// A number from -2^31, below 2^31.
    Signed,
    /// A label.
    Label,
    /// 0 to 64 bytes.
    Data,
    /// A set of kinds of objects.
    Types,
    /// What a mapping allows.
    Rights,
}

/// A value at a place of a call.
#[derive(Drop)]
pub enum Arg {
    /// An object, by its number or a name.
    Object(Reference),
    /// A number below 2^32.
    Number(u32),
    /// A number below 2^64.
    Wide(u64),
    /// A number from -2^31, below 2^31.
    Signed(i32),
    /// A label, as it is written.
    Label(SpokenLabel),
    /// 0 to 64 bytes.
    Data(Data),
    /// A set of kinds of objects.
    Types(TypeSet),
    /// What a mapping allows.
    Rights(Rights),
}

/// Adds the object that the word spells, and answers whether it spells one; otherwise nothing is added.
fn add_object(args: &mut Vec<Arg>, word: &[u8]) -> Result<bool, AllocError>
    ensures { IfOk result (AddsArg ArgKind.Object word.now args.old.items args.new.items) }
{
    let Some(reference) = read_reference(word) else {
        return Ok(false);
    };
    args.push(Arg::Object(reference))?;
    Ok(true)
}

/// Adds the number below 2^32, as `add_object` adds an object.
fn add_number(args: &mut Vec<Arg>, word: &[u8]) -> Result<bool, AllocError>
    ensures { IfOk result (AddsArg ArgKind.Number word.now args.old.items args.new.items) }
{
    let Some(number) = read_number(word, u32::MAX as u64) else {
        return Ok(false);
    };
    args.push(Arg::Number(number as u32))?;
    Ok(true)
}

/// Adds the number below 2^64, as `add_object` adds an object.
fn add_wide(args: &mut Vec<Arg>, word: &[u8]) -> Result<bool, AllocError>
    ensures { IfOk result (AddsArg ArgKind.Wide word.now args.old.items args.new.items) }
{
    let Some(number) = read_number(word, u64::MAX) else {
        return Ok(false);
    };
    args.push(Arg::Wide(number))?;
    Ok(true)
}

/// Adds the number with a sign, as `add_object` adds an object.
fn add_signed(args: &mut Vec<Arg>, word: &[u8]) -> Result<bool, AllocError>
    ensures { IfOk result (AddsArg ArgKind.Signed word.now args.old.items args.new.items) }
{
    let Some(number) = read_signed(word) else {
        return Ok(false);
    };
    args.push(Arg::Signed(number))?;
    Ok(true)
}

/// Adds the label, as `add_object` adds an object.
fn add_label(alloc: Global, args: &mut Vec<Arg>, word: &[u8]) -> Result<bool, AllocError>
    ensures { IfOk result (AddsArg ArgKind.Label word.now args.old.items args.new.items) }
{
    let Some(label) = read_label(alloc, word)? else {
        return Ok(false);
    };
    args.push(Arg::Label(label))?;
    Ok(true)
}

/// Adds the bytes, as `add_object` adds an object.
fn add_data(args: &mut Vec<Arg>, word: &[u8]) -> Result<bool, AllocError>
    ensures { IfOk result (AddsArg ArgKind.Data word.now args.old.items args.new.items) }
{
    let Some(bytes) = read_data(word) else {
        return Ok(false);
    };
    args.push(Arg::Data(bytes))?;
    Ok(true)
}

/// Adds the set of kinds, as `add_object` adds an object.
fn add_types(args: &mut Vec<Arg>, word: &[u8]) -> Result<bool, AllocError>
    ensures { IfOk result (AddsArg ArgKind.Types word.now args.old.items args.new.items) }
{
    let Some(set) = read_types(word) else {
        return Ok(false);
    };
    args.push(Arg::Types(set))?;
    Ok(true)
}

/// Adds the rights, as `add_object` adds an object.
fn add_rights(args: &mut Vec<Arg>, word: &[u8]) -> Result<bool, AllocError>
    ensures { IfOk result (AddsArg ArgKind.Rights word.now args.old.items args.new.items) }
{
    let Some(rights) = read_rights(word) else {
        return Ok(false);
    };
    args.push(Arg::Rights(rights))?;
    Ok(true)
}

/// Adds the value of the kind that the word spells, and answers whether it spells one; otherwise nothing is added.
pub fn add_arg(
    alloc: Global,
    args: &mut Vec<Arg>,
    kind: ArgKind,
    word: &[u8],
) -> Result<bool, AllocError>
    ensures { IfOk result (AddsArg kind word.now args.old.items args.new.items) }
{
    match kind {
        ArgKind::Object => add_object(args, word),
        ArgKind::Number => add_number(args, word),
        ArgKind::Wide => add_wide(args, word),
        ArgKind::Signed => add_signed(args, word),
        ArgKind::Label => add_label(alloc, args, word),
        ArgKind::Data => add_data(args, word),
        ArgKind::Types => add_types(args, word),
        ArgKind::Rights => add_rights(args, word),
    }
}

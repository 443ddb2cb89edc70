//! The lines of an address space's filled slots.
ghost use Rattle.std.specs.Prelude.{◌≡◌, ◌++◌, ◌+◌, ◌^◌, ◌<◌, OnOk, length};
ghost use Rattle.kernel_rules.specs.State.{slots_of};
ghost use Rattle.shown_dumps.specs.Slots.{slot_line, slot_lines};

use crate::states::put_named;
use crate::tree::objects::put_indent;
use base::NoMemory;
use call_text::Named;
use kernel_rules::{Body, Mapping, Object, Reply};
use text_words::put_number;

/// Adds the line of a slot, nothing where it is empty.
fn put_slot(
    out: &mut Vec<u8>,
    depth: usize,
    slot: u64,
    mapping: &Option<Mapping>,
    names: &[Named],
) -> Result<(), NoMemory>
    ensures { OnOk result (out.new.items ≡ out.old.items ++ slot_line names.now depth slot mapping.now) }
{
    let Some(mapping) = mapping else {
        return Ok(());
    };
    put_indent(out, depth)?;
    out.extend_from_slice(b"slot ")?;
    put_number(out, slot)?;
    out.extend_from_slice(b": ")?;
    put_named(out, &Reply::Mapping(Some(*mapping)), names)?;
    out.push(b'\n')?;
    Ok(())
}

/// Adds the lines of slots, the first of which has this number. The error is want of memory.
pub fn put_slots(
    out: &mut Vec<u8>,
    depth: usize,
    slot: u64,
    slots: &[Option<Mapping>],
    names: &[Named],
) -> Result<(), NoMemory>
    requires { slot + length slots.now < 2 ^ 63 }
    ensures { OnOk result (out.new.items ≡ out.old.items ++ slot_lines names.now depth slot slots.now) }
{
    match slots {
        [] => Ok(()),
        [first, rest @ ..] => {
            put_slot(out, depth, slot, first, names)?;
            put_slots(out, depth, slot + 1, rest, names)
        }
    }
}

/// The slots of an address space, none for any other object.
pub fn slots_of(object: &Object) -> &[Option<Mapping>]
    ensures { result.now ≡ slots_of object.now.body }
{
    match &object.body {
        Body::AddressSpace(slots) => &slots.slots,
        _ => &[],
    }
}

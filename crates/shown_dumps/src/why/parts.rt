//! Conditions in words.
ghost use Rattle.std.specs.Prelude.{◌≡◌, ◌++◌, ◌∷◌, ◌≤◌, [], OnOk, decimal, codes};
ghost use Rattle.std.specs.List.{flat_map};
ghost use Rattle.explained.specs.Parts.{is_against};
ghost use Rattle.shown_dumps.specs.Parts.{after_text, before_text, either, mapping_text, side_text, two_text, comparison_text, more_text, said_text};
ghost use Rattle.shown_dumps.specs.Parts.{shown_text, part_text, finding_text, reason_text, reasons_text, condition_text};

use crate::states::{put_bare, put_named, put_value};
use crate::why::facts::told_text;
use crate::why::failures::put_failing;
use base::{Meter, NoMemory, Refusal};
use call_text::{Named, Value};
use explained::{Comparison, Finding, Part, Role, Side};
use itoa::Buffer;
use kernel_rules::{Mapping, Reply};
use std::alloc::AllocError;
use text_words::put_number;

/// The first words where something stands against the call, and else the others.
fn either(against: bool, bad: &'static str, good: &'static str) -> &'static str
    ensures { result.now ≡ either against bad.now good.now }
{
    if against { bad } else { good }
}

/// What stands before a label, by whose it is.
fn before_text(role: Role) -> &'static str
    ensures { result.now ≡ before_text role }
{
    match role {
        Role::Own => "the thread's ",
        Role::OwnClearance => "the thread's clearance ",
        Role::Object(_) => "",
        Role::Gate(_) => "clearance ",
        Role::Given => "the given ",
        Role::GivenClearance => "the given clearance ",
        Role::Verified => "the shown ",
    }
}

/// Adds what stands after it: the object whose it is, by its name.
fn put_after(out: &mut Vec<u8>, role: Role, names: &[Named]) -> Result<(), NoMemory>
    ensures { OnOk result (out.new.items ≡ out.old.items ++ after_text names.now role) }
{
    match role {
        Role::Object(id) | Role::Gate(id) => {
            out.extend_from_slice(b" of ")?;
            put_value(out, &Value::Object(id), names)
        }
        _ => Ok(()),
    }
}

/// Adds a label, where it is there, and whose it is.
fn put_side(out: &mut Vec<u8>, side: &Side, names: &[Named]) -> Result<(), NoMemory>
    ensures { OnOk result (out.new.items ≡ out.old.items ++ side_text names.now side.now) }
{
    match &side.label {
        None => out.extend_from_slice(b"no label")?,
        Some(label) => {
            out.extend_from_slice(before_text(side.role).as_bytes())?;
            put_named(out, &Reply::Label(*label), names)?;
        }
    }
    put_after(out, side.role, names)
}

/// Adds what a slot maps.
fn put_mapping(out: &mut Vec<u8>, mapping: Option<Mapping>, names: &[Named]) -> Result<(), NoMemory>
    ensures { OnOk result (out.new.items ≡ out.old.items ++ mapping_text names.now mapping) }
{
    put_named(out, &Reply::Mapping(mapping), names)
}

/// Adds a label, some words, and a second label.
fn put_two(
    out: &mut Vec<u8>,
    first: &Side,
    words: &str,
    second: &Side,
    names: &[Named],
) -> Result<(), NoMemory>
    ensures { OnOk result (out.new.items
        ≡ out.old.items ++ (two_text names.now first.now words.now second.now)) }
{
    put_side(out, first, names)?;
    out.extend_from_slice(words.as_bytes())?;
    put_side(out, second, names)
}

/// Adds two labels with words between them, and more words.
fn put_three(
    out: &mut Vec<u8>,
    first: &Side,
    words: &str,
    second: &Side,
    third: &Side,
    names: &[Named],
) -> Result<(), NoMemory>
    ensures { OnOk result (out.new.items ≡ out.old.items
        ++ (two_text names.now first.now words.now second.now ++ codes " and " ++ side_text names.now third.now)) }
{
    put_two(out, first, words, second, names)?;
    out.extend_from_slice(b" and ")?;
    put_side(out, third, names)
}

/// Adds two labels with words between them, and that the second is taken with star raised.
fn put_two_raised(
    out: &mut Vec<u8>,
    first: &Side,
    words: &str,
    second: &Side,
    names: &[Named],
) -> Result<(), NoMemory>
    ensures { OnOk result (out.new.items ≡ out.old.items
        ++ (two_text names.now first.now words.now second.now ++ codes " with star raised")) }
{
    put_two(out, first, words, second, names)?;
    out.extend_from_slice(b" with star raised")?;
    Ok(())
}

/// Adds three labels with words between them, and that the third is taken with star raised.
fn put_three_raised(
    out: &mut Vec<u8>,
    first: &Side,
    words: &str,
    second: &Side,
    third: &Side,
    names: &[Named],
) -> Result<(), NoMemory>
    ensures { OnOk result (out.new.items ≡ out.old.items
        ++ (two_text names.now first.now words.now second.now ++ codes " and " ++ side_text names.now third.now
        ++ codes " with star raised")) }
{
    put_three(out, first, words, second, third, names)?;
    out.extend_from_slice(b" with star raised")?;
    Ok(())
}

/// Adds what is to be so of labels, or that it is not.
fn put_comparison(
    out: &mut Vec<u8>,
    against: bool,
    labels: &Comparison,
    names: &[Named],
) -> Result<(), NoMemory>
    ensures { OnOk result (out.new.items ≡ out.old.items ++ comparison_text names.now against labels.now) }
{
    let at_most = either(against, " is not at most ", " is at most ");
    let maximum = either(
        against,
        " is not at most the maximum of ",
        " is at most the maximum of ",
    );
    match labels {
        Comparison::Below(a, b) => put_two(out, a, at_most, b, names),
        Comparison::Visible(a, b) => put_two_raised(out, a, at_most, b, names),
        Comparison::Shown(a, b) => {
            let raised = either(
                against,
                " with star raised is not at most ",
                " with star raised is at most ",
            );
            put_two_raised(out, a, raised, b, names)
        }
        Comparison::BelowJoin(a, b, c) => put_three(out, a, maximum, b, c, names),
        Comparison::BelowJoinUp(a, b, c) => put_three_raised(out, a, maximum, b, c, names),
        Comparison::AboveFloor(a, b, c) => {
            let floor = either(
                against,
                " is not at least the floor of ",
                " is at least the floor of ",
            );
            put_three(out, c, floor, a, b, names)
        }
    }
}

/// Adds a number that may be larger than others are.
fn put_wide(out: &mut Vec<u8>, number: u128) -> Result<(), AllocError>
    ensures { OnOk result (out.new.items ≡ out.old.items ++ decimal number) }
{
    let mut buffer = Buffer::new();
    out.extend_from_slice(buffer.format(number).as_bytes())
}

/// Adds a number, some words, and a second number.
fn put_numbers(out: &mut Vec<u8>, first: u64, words: &str, second: u64) -> Result<(), NoMemory>
    ensures { OnOk result (out.new.items
        ≡ out.old.items ++ (decimal first ++ words.now ++ decimal second)) }
{
    put_number(out, first)?;
    out.extend_from_slice(words.as_bytes())?;
    put_number(out, second)?;
    Ok(())
}

/// Adds how many pages are to come, and how many there may be.
fn put_more(out: &mut Vec<u8>, against: bool, more: u32, most: u32) -> Result<(), NoMemory>
    ensures { OnOk result (out.new.items ≡ out.old.items ++ more_text against more most) }
{
    let words = either(against, " more are above ", " more are at most ");
    put_numbers(out, u64::from(more), words, u64::from(most))
}

/// Adds what is used and what is to come, in pages of 256 bytes, and how many there may be.
fn put_sum(
    out: &mut Vec<u8>,
    against: bool,
    used: u128,
    more: u32,
    most: u32,
) -> Result<(), NoMemory>
    ensures { OnOk result (out.new.items
        ≡ out.old.items ++ (decimal used ++ codes " pages used and " ++ more_text against more most)) }
{
    put_wide(out, used)?;
    out.extend_from_slice(b" pages used and ")?;
    put_more(out, against, more, most)?;
    Ok(())
}

/// Adds whether a slot is empty, and what it maps.
fn put_empty(
    out: &mut Vec<u8>,
    against: bool,
    slot: u32,
    mapping: Option<Mapping>,
    names: &[Named],
) -> Result<(), NoMemory>
    ensures { OnOk result (out.new.items ≡ out.old.items
        ++ said_text names.now against (Part.Empty slot mapping)) }
{
    out.extend_from_slice(b"slot ")?;
    put_number(out, u64::from(slot))?;
    let words = either(against, " is not empty: it has ", " is empty: it has ");
    out.extend_from_slice(words.as_bytes())?;
    put_mapping(out, mapping, names)?;
    Ok(())
}

/// Adds whether a mapping meets a page of a slot, and what that maps.
fn put_apart(
    out: &mut Vec<u8>,
    against: bool,
    slot: u32,
    given: Mapping,
    mapping: Option<Mapping>,
    names: &[Named],
) -> Result<(), NoMemory>
    ensures { OnOk result (out.new.items ≡ out.old.items
        ++ said_text names.now against (Part.Apart slot given mapping)) }
{
    put_mapping(out, Some(given), names)?;
    let words = either(against, " meets a page of slot ", " meets no page of slot ");
    out.extend_from_slice(words.as_bytes())?;
    put_number(out, u64::from(slot))?;
    out.extend_from_slice(b": it has ")?;
    put_mapping(out, mapping, names)
}

/// Adds what is to be so, or that it is not.
fn put_said(out: &mut Vec<u8>, against: bool, part: &Part, names: &[Named]) -> Result<(), NoMemory>
    ensures { OnOk result (out.new.items ≡ out.old.items ++ said_text names.now against part.now) }
{
    match part {
        Part::Fact(fact, _) => Ok(out.extend_from_slice(told_text(against, *fact).as_bytes())?),
        Part::Compared(labels) => put_comparison(out, against, labels, names),
        Part::AtLeast(number, least) => {
            let words = either(against, " is less than ", " is at least ");
            put_numbers(out, *number, words, *least)
        }
        Part::AtMost(number, most) => {
            let words = either(against, " is more than ", " is at most ");
            put_numbers(out, *number, words, *most)
        }
        Part::Sum(id, used, more, most) => {
            put_sum(out, against, *used, *more, *most)?;
            out.extend_from_slice(b", the quota of ")?;
            put_value(out, &Value::Object(*id), names)
        }
        Part::Empty(slot, mapping) => put_empty(out, against, *slot, *mapping, names),
        Part::Apart(slot, given, mapping) => put_apart(
            out, against, *slot, *given, *mapping, names,
        ),
    }
}

/// Adds what is so of a part that stands against the call or doesn't, and where its comparison fails.
fn put_shown(
    out: &mut Vec<u8>,
    against: bool,
    part: &Part,
    names: &[Named],
    meter: &mut Meter,
) -> Result<(), NoMemory>
    requires { against ≡ is_against part.now }
    ensures { OnOk result (out.new.items ≡ out.old.items ++ shown_text names.now part.now) }
{
    put_said(out, against, part, names)?;
    out.push(b'\n')?;
    put_failing(out, part, names, meter)
}

/// Adds a part, after its mark.
fn put_part(
    out: &mut Vec<u8>,
    part: &Part,
    names: &[Named],
    meter: &mut Meter,
) -> Result<(), NoMemory>
    ensures { OnOk result (out.new.items ≡ out.old.items ++ part_text names.now part.now) }
{
    let against = part.is_against(meter);
    out.extend_from_slice(either(against, "    bad ", "    ok  ").as_bytes())?;
    put_shown(out, against, part, names, meter)
}

/// Adds parts.
fn put_parts(
    out: &mut Vec<u8>,
    parts: &[Part],
    names: &[Named],
    meter: &mut Meter,
) -> Result<(), NoMemory>
    ensures { OnOk result (out.new.items ≡ out.old.items ++ flat_map (part_text names.now) parts.now) }
{
    for part in parts {
        put_part(out, part, names, meter)?;
    }
    Ok(())
}

/// Adds a condition: whether it refuses the call, and its parts.
fn put_finding(
    out: &mut Vec<u8>,
    finding: &Finding,
    names: &[Named],
    meter: &mut Meter,
) -> Result<(), NoMemory>
    ensures { OnOk result (out.new.items ≡ out.old.items ++ finding_text names.now finding.now) }
{
    let holds = finding.holds(meter);
    out.extend_from_slice(either(holds, "yes ", "no  ").as_bytes())?;
    put_bare(out, &Reply::Refused(finding.refusal))?;
    out.push(b'\n')?;
    put_parts(out, finding.parts.as_slice(), names, meter)
}

/// Adds a part that stands against the call, after the refusal that it is the reason of.
fn put_reason(
    out: &mut Vec<u8>,
    refusal: Refusal,
    part: &Part,
    names: &[Named],
    meter: &mut Meter,
) -> Result<(), NoMemory>
    ensures { OnOk result (out.new.items ≡ out.old.items ++ reason_text names.now refusal part.now) }
{
    let against = part.is_against(meter);
    if !against {
        return Ok(());
    }
    put_bare(out, &Reply::Refused(refusal))?;
    out.extend_from_slice(b": ")?;
    put_shown(out, against, part, names, meter)
}

/// Adds the parts of a condition that stand against the call.
fn put_reasons(
    out: &mut Vec<u8>,
    finding: &Finding,
    names: &[Named],
    meter: &mut Meter,
) -> Result<(), NoMemory>
    ensures { OnOk result (out.new.items ≡ out.old.items ++ reasons_text names.now finding.now) }
{
    for part in finding.parts.as_slice() {
        put_reason(out, finding.refusal, part, names, meter)?;
    }
    Ok(())
}

/// Adds a condition, or its reasons alone.
fn put_condition(
    out: &mut Vec<u8>,
    is_whole: bool,
    finding: &Finding,
    names: &[Named],
    meter: &mut Meter,
) -> Result<(), NoMemory>
    ensures { OnOk result (out.new.items ≡ out.old.items ++ condition_text names.now is_whole finding.now) }
{
    if is_whole {
        put_finding(out, finding, names, meter)
    } else {
        put_reasons(out, finding, names, meter)
    }
}

/// Adds the conditions of a call, or, where not all are told, the reasons of those that refuse it, with the names that are known.
/// The error is want of memory.
pub fn put_findings(
    out: &mut Vec<u8>,
    is_whole: bool,
    found: &[Finding],
    names: &[Named],
    meter: &mut Meter,
) -> Result<(), NoMemory>
    ensures { OnOk result (out.new.items ≡ out.old.items ++ flat_map (condition_text names.now is_whole) found.now) }
{
    for finding in found {
        put_condition(out, is_whole, finding, names, meter)?;
    }
    Ok(())
}

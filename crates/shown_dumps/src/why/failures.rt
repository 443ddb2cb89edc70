//! Where comparisons of labels fail, in words.
ghost use Rattle.std.specs.Prelude.{◌≡◌, ◌≤◌, ◌++◌, ◌∷◌, [], OnOk};
ghost use Rattle.std.specs.List.{flat_map};
ghost use Rattle.std.specs.Option.{option_map, option_and_then};
ghost use Rattle.explained.specs.Compared.{sides, named_of, rest_of};
ghost use Rattle.shown_dumps.specs.Parts.{rank_text, ranks_text, failure_text, named_text, rest_text, failing_text};

use crate::states::put_value;
use base::{Meter, NoMemory};
use call_text::{Named, Value};
use explained::{Comparison, Failing, Failure, Part, Rank, Ranks};

/// Adds a rank as a level.
fn put_rank(out: &mut Vec<u8>, rank: Rank) -> Result<(), NoMemory>
    ensures { OnOk result (out.new.items ≡ out.old.items ++ rank_text rank) }
{
    let letter = match rank {
        Rank::Star => b'*',
        Rank::L0 => b'0',
        Rank::L1 => b'1',
        Rank::L2 => b'2',
        Rank::L3 => b'3',
        Rank::J => b'J',
    };
    out.push(letter)?;
    Ok(())
}

/// Adds the level that is too high, and the one that it is to be at most.
fn put_ranks(out: &mut Vec<u8>, ranks: Ranks) -> Result<(), NoMemory>
    ensures { OnOk result (out.new.items ≡ out.old.items ++ ranks_text ranks) }
{
    put_rank(out, ranks.left)?;
    out.extend_from_slice(b" above ")?;
    put_rank(out, ranks.right)?;
    out.push(b'\n')?;
    Ok(())
}

/// Adds a category at which a comparison fails.
fn put_failure(out: &mut Vec<u8>, failure: Failure, names: &[Named]) -> Result<(), NoMemory>
    ensures { OnOk result (out.new.items ≡ out.old.items ++ failure_text names.now failure) }
{
    out.extend_from_slice(b"          ")?;
    put_value(out, &Value::Category(failure.category), names)?;
    out.extend_from_slice(b": ")?;
    put_ranks(out, failure.ranks)
}

/// Adds categories at which a comparison fails.
fn put_failures(out: &mut Vec<u8>, failures: &[Failure], names: &[Named]) -> Result<(), NoMemory>
    ensures { OnOk result (out.new.items ≡ out.old.items ++ flat_map (failure_text names.now) failures.now) }
{
    for failure in failures {
        put_failure(out, *failure, names)?;
    }
    Ok(())
}

/// Adds all other categories, where a comparison fails there.
fn put_rest(out: &mut Vec<u8>, rest: Option<Ranks>) -> Result<(), NoMemory>
    ensures { OnOk result (out.new.items ≡ out.old.items ++ rest_text rest) }
{
    match rest {
        None => Ok(()),
        Some(ranks) => {
            out.extend_from_slice(b"          all others: ")?;
            put_ranks(out, ranks)
        }
    }
}

/// Adds where a comparison fails, of which this was found.
fn put_found(out: &mut Vec<u8>, found: &Option<Failing>, names: &[Named]) -> Result<(), NoMemory>
    ensures { OnOk result (out.new.items ≡ out.old.items
        ++ (named_text names.now (option_map (λ f. f.named.items) found.now)
        ++ rest_text (option_and_then (λ f. f.rest) found.now))) }
{
    match found {
        None => Ok(()),
        Some(failing) => {
            put_failures(out, failing.named.as_slice(), names)?;
            put_rest(out, failing.rest)
        }
    }
}

/// Adds where a comparison of labels fails.
fn put_compared(
    out: &mut Vec<u8>,
    labels: &Comparison,
    names: &[Named],
    meter: &mut Meter,
) -> Result<(), NoMemory>
    ensures { OnOk result (out.new.items ≡ out.old.items
        ++ (named_text names.now (named_of (sides labels.now)) ++ rest_text (rest_of (sides labels.now)))) }
{
    let found = labels.failing(*out.allocator(), meter)?;
    put_found(out, &found, names)
}

/// Adds where a part's comparison fails, if it has one.
pub fn put_failing(
    out: &mut Vec<u8>,
    part: &Part,
    names: &[Named],
    meter: &mut Meter,
) -> Result<(), NoMemory>
    ensures { OnOk result (out.new.items ≡ out.old.items ++ failing_text names.now part.now) }
{
    match part {
        Part::Fact(_, _) => Ok(()),
        Part::Compared(labels) => put_compared(out, labels, names, meter),
        Part::AtLeast(_, _) => Ok(()),
        Part::AtMost(_, _) => Ok(()),
        Part::Sum(_, _, _, _) => Ok(()),
        Part::Empty(_, _) => Ok(()),
        Part::Apart(_, _, _) => Ok(()),
    }
}

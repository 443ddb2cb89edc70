//! Which lines give the names that they bind to which.
ghost use Rattle.std.specs.Prelude.{◌≡◌};
ghost use Rattle.std.specs.Str.{bytes_eq};
ghost use Rattle.call_text.specs.Script.{is_bound, known_names};
ghost use Rattle.check_text.specs.Givers.{ends_batch, is_ended, is_over, gives, is_kind};

use crate::script_checks::outlines::Outline;
use text_words::Name;

/// Whether two names are one.
pub fn is_one(one: &Name, other: &Name) -> bool
    ensures { result ≡ bytes_eq one.now other.now }
{
    one.as_slice() == other.as_slice()
}

/// Whether a line is of the same worker, ends a batch, and stands between.
fn ends_batch(line: &Outline, from: &Outline, to: &Outline) -> bool
    ensures { result ≡ ends_batch from.now to.now line.now }
{
    is_one(&line.worker, &to.worker)
        && !line.more
        && from.number < line.number
        && line.number < to.number
}

/// Whether a line between two lines, of the later one's worker, ends a batch.
fn is_ended(outlines: &[Outline], from: &Outline, to: &Outline) -> bool
    ensures { result ≡ is_ended outlines.now from.now to.now }
{
    for line in outlines {
        if ends_batch(line, from, to) {
            return true;
        }
    }
    false
}

/// Whether the batch of a line is over before another line of the same worker.
fn is_over(outlines: &[Outline], from: &Outline, to: &Outline) -> bool
    ensures { result ≡ is_over outlines.now from.now to.now }
{
    if !from.more {
        return from.number < to.number;
    }
    is_ended(outlines, from, to)
}

/// Whether a line gives the name that it binds to another line.
pub fn gives(outlines: &[Outline], from: &Outline, to: &Outline) -> bool
    ensures { result ≡ gives outlines.now from.now to.now }
{
    from.phase < to.phase
        || (from.phase == to.phase
            && is_one(&from.worker, &to.worker)
            && is_over(outlines, from, to))
}

/// Whether the name is known at the start of each script.
pub fn is_known(name: &Name) -> bool
    ensures { result ≡ is_bound name.now known_names }
{
    let name = name.as_slice();
    name == b"root".as_slice() || name == b"boot".as_slice() || name == b"dev".as_slice()
}

/// Whether a line makes a category, or another object, as is asked.
pub fn is_kind(category: bool, line: &Outline) -> bool
    ensures { result ≡ is_kind category line.now }
{
    if category {
        line.category
    } else {
        !line.category
    }
}

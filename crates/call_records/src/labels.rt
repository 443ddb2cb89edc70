//! Labels in records.
ghost use Rattle.std.specs.Prelude.{◌≡◌, ◌≤◌, Some, length, slice_get};
ghost use Rattle.label_lattice.specs.Raw.{raw_of};
ghost use Rattle.call_records.specs.Labels.{level_of, pairs_of, label_of};

use crate::records::LabelRecord;
use base::{Category, Level, Meter};
use label_lattice::{Label, Pair, Pairs, RawLabel};

/// The level of each number from 0.
pub(crate) const LEVELS: [Level; 5] = [Level::L0, Level::L1, Level::L2, Level::L3, Level::Star];

/// The level of a number: 0 to 3, or 4 for star. None for any other number.
pub fn level_of(number: u8) -> Option<Level>
    ensures { result ≡ level_of number }
{
    LEVELS.get(number as usize).copied()
}

/// The pairs of levels and categories that stand at the same places. None where a number is no level.
fn pairs_of(levels: &[u8], categories: &[u64; 24]) -> Option<Pairs<24>>
    requires { length levels.now ≤ 24 }
    ensures { result ≡ pairs_of levels.now categories.now }
{
    let mut pairs = Pairs::new();
    for place in 0..levels.len() {
        pairs.push(Pair {
            category: Category(categories[place]),
            level: level_of(levels[place])?,
        });
    }
    Some(pairs)
}

/// The raw label of a record. None where a number is no level, or there are over 24 pairs.
pub(crate) fn label_of(from: &LabelRecord) -> Option<RawLabel>
    ensures { result ≡ label_of from.now }
{
    if from.count > 24 {
        return None;
    }
    Some(RawLabel {
        default: level_of(from.default_level)?,
        pairs: pairs_of(&from.levels[..from.count as usize], &from.categories)?,
    })
}

/// The number of a level.
fn number_of(level: Level) -> u8
    ensures { level_of result ≡ Some level }
{
    match level {
        Level::L0 => 0,
        Level::L1 => 1,
        Level::L2 => 2,
        Level::L3 => 3,
        Level::Star => 4,
    }
}

/// Writes a raw label into a record.
pub(crate) fn put_raw(raw: &RawLabel, to: &mut LabelRecord)
    ensures { label_of to.new ≡ Some raw.now }
{
    to.default_level = number_of(raw.default);
    to.count = raw.pairs.len() as u8;
    for place in 0..raw.pairs.len() {
        let pair = raw.pairs.pair_at(place);
        to.categories[place] = pair.category.0;
        to.levels[place] = number_of(pair.level);
    }
}

/// Writes a label into a record. It adds one scan.
pub(crate) fn put_label(label: &Label, to: &mut LabelRecord, meter: &mut Meter)
    ensures { label_of to.new ≡ Some (raw_of label.now) }
{
    put_raw(&label.to_raw(meter), to)
}

//! The merge walks over lists of exceptions, which decide each order test: over two lists for the
//! orders of two labels, each way at once, and over three lists for the rules on three labels.
ghost use Rattle.std.specs.Prelude.{◌≡◌, ◌<◌, ◌≤◌, ◌+◌, ◌^◌, ◌==◌, ◌⊎◌, ◌↔◌, ℕ, IsTrue, if◌then◌else◌};
ghost use Rattle.std.specs.Prelude.{length, drop, slice_index_or};
ghost use Rattle.label_lattice.specs.Columns.{filler};
ghost use Rattle.std.specs.Int.{bit_at};
ghost use Rattle.label_lattice.specs.Levels.{next_of, IsRising};
ghost use Rattle.label_lattice.specs.Rule.{rule_test, up_rank, down_rank};
ghost use Rattle.label_lattice.specs.Walk.{Takes, TakesBoth};
ghost use Rattle.label_lattice.specs.Walk.{HoldsEverywhere};
ghost use Rattle.label_lattice.specs.Ways.{both_test};

use crate::pairings::Pairs;
use crate::ways::compare_levels;
use base::Level;

/// What is asked of three levels at each category. A rule on two labels passes the second one
/// twice.
#[derive(Clone, Copy)]
pub enum Rule {
    LeqJoin,
    LeqJoinUp,
    Floor,
    Same,
}

/// The rank of J.
const TOP: u8 = 5;

fn up(rank: u8) -> u8
    ensures { result ≡ up_rank rank }
{
    if rank == 0 { TOP } else { rank }
}

fn down(rank: u8) -> u8
    ensures { result ≡ down_rank rank }
{
    if rank == TOP { 0 } else { rank }
}

impl Rule {
    /// Whether the rule holds of one category's levels.
    fn holds(self, a: Level, b: Level, c: Level) -> bool
        ensures { result ≡ rule_test self a b c }
    {
        let (a, b, c) = (a.rank(), b.rank(), c.rank());
        match self {
            Rule::LeqJoin => a <= b.max(c),
            Rule::LeqJoinUp => a <= b.max(up(c)),
            Rule::Same => a == b,
            Rule::Floor => down(up(a).max(up(b))) <= c,
        }
    }
}

/// The category at a place, and past the end the largest number.
fn next(pairs: &Pairs<16>, at: usize) -> u64
    ensures { result ≡ next_of (drop at pairs.now) }
{
    if at < pairs.len() {
        pairs.pair_at(at).category.0
    } else {
        u64::MAX
    }
}

/// A level, and the place after it.
#[derive(Clone, Copy)]
struct Taken {
    level: Level,
    place: usize,
}

/// The level of a category that is not above the one at the place, and the place after the
/// category.
fn take_at(default: Level, pairs: &Pairs<16>, place: usize, category: u64) -> Taken
    requires rising { IsRising pairs.now }
    requires within { place ≤ length pairs.now }
    requires least { category ≤ next_of (drop place pairs.now) }
    ensures takes { let left = drop place pairs.now in
        Takes default left category result.level (drop result.place pairs.now) }
    ensures within { result.place ≤ length pairs.now }
    ensures onward { place ≤ result.place }
    ensures moved { place < length pairs.now →
        next_of (drop place pairs.now) ≡ category → place < result.place }
{
    if pairs.has_at(place, category) {
        Taken {
            level: pairs.pair_at(place).level,
            place: place + 1,
        }
    } else {
        Taken {
            level: default,
            place,
        }
    }
}

/// The levels of one category in two lists, and the places after it.
#[derive(Clone, Copy)]
struct Turn {
    a: Level,
    b: Level,
    i: usize,
    j: usize,
}

/// The level at a place and the place after it where the list has the category that is taken, and
/// else its default and the place. (Which list has it no processor foresees, so that is no branch.)
#[inline(always)]
fn taken_where(has: bool, default: Level, pairs: &Pairs<16>, place: usize) -> Taken
    requires { place < length pairs.now }
    ensures level { result.level
        ≡ (if has then (slice_index_or pairs.now place filler).level else default) }
    ensures place { result.place ≡ (if has then place + 1 else place) }
{
    // For the proof alone: that the list is short is known once its length is read.
    let _ = pairs.len();
    let level = pairs.pair_at(place).level;
    Taken {
        level: if has { level } else { default },
        place: place + usize::from(has),
    }
}

/// The levels of the lower of the categories at two places, and the places after it. The list that
/// lacks it has its default there.
#[inline(always)]
fn take_lower(
    a_default: Level,
    a: &Pairs<16>,
    i: usize,
    b_default: Level,
    b: &Pairs<16>,
    j: usize,
) -> Turn
    requires a_rising { IsRising a.now }
    requires b_rising { IsRising b.now }
    requires a_within { i < length a.now }
    requires b_within { j < length b.now }
    ensures takes { TakesBoth a_default (drop i a.now) b_default (drop j b.now)
        result.a result.b (drop result.i a.now) (drop result.j b.now) }
    ensures a_within { result.i ≤ length a.now }
    ensures b_within { result.j ≤ length b.now }
    ensures onward { i + j < result.i + result.j }
{
    let one = a.pair_at(i).category.0;
    let other = b.pair_at(j).category.0;
    let of_a = taken_where(one <= other, a_default, a, i);
    let of_b = taken_where(other <= one, b_default, b, j);
    Turn {
        a: of_a.level,
        b: of_b.level,
        i: of_a.place,
        j: of_b.place,
    }
}

/// The levels of the least category that is left in a list, and the places after it. The other list
/// has it, or its default stands for it.
#[inline(always)]
fn take_least(
    a_default: Level,
    a: &Pairs<16>,
    i: usize,
    b_default: Level,
    b: &Pairs<16>,
    j: usize,
) -> Turn
    requires a_rising { IsRising a.now }
    requires b_rising { IsRising b.now }
    requires a_within { i ≤ length a.now }
    requires b_within { j ≤ length b.now }
    requires some { (i < length a.now) ⊎ (j < length b.now) }
    ensures takes { TakesBoth a_default (drop i a.now) b_default (drop j b.now)
        result.a result.b (drop result.i a.now) (drop result.j b.now) }
    ensures a_within { result.i ≤ length a.now }
    ensures b_within { result.j ≤ length b.now }
    ensures onward { i + j < result.i + result.j }
{
    let (a_len, b_len) = (a.len(), b.len());
    if i >= a_len {
        return Turn {
            a: a_default,
            b: b.pair_at(j).level,
            i,
            j: j + 1,
        };
    }
    if j >= b_len {
        return Turn {
            a: a.pair_at(i).level,
            b: b_default,
            i: i + 1,
            j,
        };
    }
    take_lower(a_default, a, i, b_default, b, j)
}

/// How two labels compare each way, each a default and its exceptions: the sum of those bits of
/// `compare_levels` that are there at each category. Each turn compares the levels of the least category
/// that is left in a list, and the defaults stand for all that are in none. Once no bit is left, that is
/// the answer.
pub fn compare_everywhere(a_default: Level, a: &Pairs<16>, b_default: Level, b: &Pairs<16>) -> u8
    requires a_rising { IsRising a.now }
    requires b_rising { IsRising b.now }
    ensures few { result < 2 ^ 6 }
    ensures bits { (k : ℕ) → IsTrue (bit_at result k == 1) ↔
        HoldsEverywhere (both_test k) a_default a.now b_default b.now b_default b.now }
{
    let mut held = compare_levels(a_default, b_default);
    let mut i = 0;
    let mut j = 0;
    while i < a.len() || j < b.len() {
        let turn = take_least(a_default, a, i, b_default, b, j);
        held &= compare_levels(turn.a, turn.b);
        if held == 0 {
            return 0;
        }
        i = turn.i;
        j = turn.j;
    }
    held
}

/// Whether a rule holds at each category of three labels, each a default and its exceptions. Each
/// turn asks it of the least category that is left in a list, and the defaults stand for all that
/// are in none.
pub fn holds_everywhere(
    rule: Rule,
    a_default: Level,
    a: &Pairs<16>,
    b_default: Level,
    b: &Pairs<16>,
    c_default: Level,
    c: &Pairs<16>,
) -> bool
    requires a_rising { IsRising a.now }
    requires b_rising { IsRising b.now }
    requires c_rising { IsRising c.now }
    ensures { IsTrue result ↔
        HoldsEverywhere (rule_test rule) a_default a.now b_default b.now c_default c.now }
{
    if !rule.holds(a_default, b_default, c_default) {
        return false;
    }
    let mut i = 0;
    let mut j = 0;
    let mut k = 0;
    while i < a.len() || j < b.len() || k < c.len() {
        let category = next(a, i).min(next(b, j)).min(next(c, k));
        let of_a = take_at(a_default, a, i, category);
        let of_b = take_at(b_default, b, j, category);
        let of_c = take_at(c_default, c, k, category);
        if !rule.holds(of_a.level, of_b.level, of_c.level) {
            return false;
        }
        i = of_a.place;
        j = of_b.place;
        k = of_c.place;
    }
    true
}

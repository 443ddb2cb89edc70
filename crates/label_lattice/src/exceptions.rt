//! Lists of exceptions from a default: what they say, and how they are made and changed.
ghost use Rattle.std.specs.Prelude.{◌≡◌, ◌==◌, ◌≤◌, IsTrue, nat_le, if◌then◌else◌, [], length};
ghost use Rattle.std.specs.Prelude.{Some, None};
ghost use Rattle.std.specs.List.{list_any};
ghost use Rattle.base.specs.Level.{rank_of};
ghost use Rattle.label_lattice.specs.Levels.{level_at, IsRising};
ghost use Rattle.label_lattice.specs.Placed.{place_in, placed};
ghost use Rattle.label_lattice.specs.Raw.{collected_all, has_twice};

use crate::pairings::{Pair, Pairs};
use base::{Category, Level};

/// The most exceptions that a label has.
const MOST: usize = 16;

/// The level of a category.
pub fn level_of(default: Level, pairs: &Pairs<16>, category: Category) -> Level
    ensures { result ≡ level_at default pairs.now category.0 }
{
    for place in 0..pairs.len() {
        let pair = pairs.pair_at(place);
        if pair.category.0 == category.0 {
            return pair.level;
        }
    }
    default
}

/// Whether a level is star.
pub fn has_star_in(levels: &[Level]) -> bool
    ensures { result ≡ list_any (λ l. rank_of l == 0) levels.now }
{
    levels.iter().any(|level| level.rank() == 0)
}

/// Whether a category stands in the list.
#[inline(never)]
fn has_category(category: u64, categories: &[Category]) -> bool
    ensures { result ≡ list_any (λ c. c.0 == category) categories.now }
{
    categories.iter().any(|each| each.0 == category)
}

/// Whether a category stands in the list twice. Those that rise are compared with one other each.
fn has_twice(pairs: &Pairs<24>) -> bool
    ensures { result ≡ has_twice pairs.now }
{
    let categories = pairs.categories();
    let mut greatest = 0;
    for (i, category) in categories.iter().enumerate() {
        if greatest < category.0 {
            greatest = category.0;
        } else if has_category(category.0, &categories[..i]) {
            return true;
        }
    }
    false
}

/// How many pairs come before a category. It is looked for from the end, where most are put.
fn place_of(pairs: &Pairs<16>, category: u64) -> usize
    requires { IsRising pairs.now }
    ensures within { result ≤ length pairs.now }
    ensures place { result ≡ place_in category pairs.now }
{
    let mut place = pairs.len();
    while place > 0 && category <= pairs.pair_at(place - 1).category.0 {
        place -= 1;
    }
    place
}

/// Whether a category comes after those of all pairs.
#[inline(always)]
fn is_past(pairs: &Pairs<16>, category: u64) -> bool
    requires { IsRising pairs.now }
    ensures { result ≡ (place_in category pairs.now == length pairs.now) }
{
    let many = pairs.len();
    many == 0 || pairs.pair_at(many - 1).category.0 < category
}

/// What `place` does with a category that comes after all exceptions: no other moves.
#[inline(always)]
fn place_last(exceptions: &mut Pairs<16>, default: Level, pair: Pair) -> bool
    requires { place_in pair.category.0 exceptions.old ≡ length exceptions.old }
    ensures room { result ≡ nat_le (length (placed default pair exceptions.old)) 16 }
    ensures placed { exceptions.new
        ≡ (if result then placed default pair exceptions.old else exceptions.old) }
{
    let many = exceptions.len();
    if pair.level.rank() == default.rank() {
        return true;
    }
    if many == MOST {
        return false;
    }
    exceptions.push(pair);
    true
}

/// What `place` does with any other: it is looked for, and those behind it move.
#[cold]
#[inline(never)]
fn place_among(exceptions: &mut Pairs<16>, default: Level, pair: Pair) -> bool
    requires { IsRising exceptions.old }
    ensures room { result ≡ nat_le (length (placed default pair exceptions.old)) 16 }
    ensures placed { exceptions.new
        ≡ (if result then placed default pair exceptions.old else exceptions.old) }
{
    let many = exceptions.len();
    let place = place_of(exceptions, pair.category.0);
    let differs = pair.level.rank() != default.rank();
    if exceptions.has_at(place, pair.category.0) {
        if differs {
            exceptions.set(place, pair);
        } else {
            exceptions.remove(place);
        }
        return true;
    }
    if differs {
        if many == MOST {
            return false;
        }
        exceptions.insert(place, pair);
    }
    true
}

/// Gives a category of the exceptions a level, where there is room. Otherwise they stay as they
/// are, and the answer is no.
#[inline(always)]
pub fn place(exceptions: &mut Pairs<16>, default: Level, pair: Pair) -> bool
    requires { IsRising exceptions.old }
    ensures room { result ≡ nat_le (length (placed default pair exceptions.old)) 16 }
    ensures placed { exceptions.new
        ≡ (if result then placed default pair exceptions.old else exceptions.old) }
{
    if is_past(exceptions, pair.category.0) {
        place_last(exceptions, default, pair)
    } else {
        place_among(exceptions, default, pair)
    }
}

/// The exceptions of pairs in any order, put into an empty list, unless a category stands there
/// twice or too many differ from the default. Then the answer is no.
#[inline(always)]
pub fn collect(exceptions: &mut Pairs<16>, default: Level, pairs: &Pairs<24>) -> bool
    requires { exceptions.old ≡ [] }
    ensures value { (if result then Some exceptions.new else None) ≡ collected_all default pairs.now }
    ensures few { IsTrue result → length exceptions.new ≤ 16 }
{
    if has_twice(pairs) {
        return false;
    }
    for i in 0..pairs.len() {
        if !place(exceptions, default, pairs.pair_at(i)) {
            return false;
        }
    }
    true
}

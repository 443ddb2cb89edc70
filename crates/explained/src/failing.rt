//! The categories at which a comparison of labels fails.
ghost use Rattle.std.specs.Prelude.{◌≡◌, ◌&&◌, OnOk, IfOk, is_none, map, if◌then◌else◌};
ghost use Rattle.base.specs.Level.{rank_of};
ghost use Rattle.label_lattice.specs.Label.{level};
ghost use Rattle.label_lattice.specs.Order.{Levels};
ghost use Rattle.explained.specs.Sides.{left, right, left_rank, right_rank, compares, is_of_three, exceptions};
ghost use Rattle.explained.specs.Laws.{IsExact, is_nil};
ghost use Rattle.explained.specs.Failing.{failure_at, failing_sides, put, looked, gathered, failing, failing_rest};

use crate::relations::{Rank, Relation};
use base::{Category, Level, Meter, NoMemory};
use label_lattice::{Label, Pairs};
use std::alloc::Global;

/// What either side of a comparison has.
#[derive(Clone, Copy, PartialEq, Eq, Debug)]
pub struct Ranks {
    /// What was to be at most the other.
    pub left: Rank,
    /// The other.
    pub right: Rank,
}

/// A category at which a comparison fails.
#[derive(Clone, Copy, PartialEq, Eq, Debug)]
pub struct Failure {
    /// The category.
    pub category: Category,
    /// What either side has there.
    pub ranks: Ranks,
}

/// Where a comparison fails.
#[derive(Drop)]
pub struct Failing {
    /// The exceptions of the labels at which it fails, by rising categories.
    pub named: Vec<Failure>,
    /// What either side has at each other category, where it fails there too: then it fails for
    /// all categories but finitely many.
    pub rest: Option<Ranks>,
}

/// Puts a failure in its place, unless its category is there.
fn put(found: &mut Vec<Failure>, failure: Failure) -> Result<(), NoMemory>
    ensures { OnOk result (found.new.items ≡ put failure found.old.items) }
{
    for place in 0..found.len() {
        let category = found[place].category.0;
        if failure.category.0 == category {
            return Ok(());
        }
        if failure.category.0 < category {
            found.insert(place, failure)?;
            return Ok(());
        }
    }
    found.push(failure)?;
    Ok(())
}

/// Labels that are compared. The third is read only where the relation asks of three.
#[derive(Clone, Copy)]
struct Compared<'a> {
    relation: Relation,
    first: &'a Label,
    second: &'a Label,
    third: &'a Label,
}

/// The numbers of what either side has at a category.
#[derive(Clone, Copy)]
struct Sides {
    left: u8,
    right: u8,
}

impl Sides {
    /// What either side has, where the left one is above the other.
    fn failing(self) -> Option<Ranks>
        ensures { result ≡ failing_sides self.left self.right }
    {
        if self.right < self.left {
            Some(Ranks {
                left: Rank::at(self.left),
                right: Rank::at(self.right),
            })
        } else {
            None
        }
    }
}

/// What either side has at a category.
fn sides_at(compared: &Compared, category: Category, meter: &mut Meter) -> Sides
    ensures left { result.left ≡ (left compared.now.relation compared.now.first.now
        compared.now.second.now compared.now.third.now).at category.0 }
    ensures right { result.right ≡ (right compared.now.relation compared.now.first.now
        compared.now.second.now compared.now.third.now).at category.0 }
{
    let first = compared.first.level(category, meter).rank();
    let second = compared.second.level(category, meter).rank();
    let third = compared.third.level(category, meter).rank();
    Sides {
        left: compared.relation.left(first, second),
        right: compared.relation.right(second, third),
    }
}

/// One more category is looked at.
fn look(
    compared: &Compared,
    category: Category,
    found: &mut Vec<Failure>,
    meter: &mut Meter,
) -> Result<(), NoMemory>
    ensures { OnOk result (found.new.items ≡ looked
        (left compared.now.relation compared.now.first.now compared.now.second.now
        compared.now.third.now)
        (right compared.now.relation compared.now.first.now compared.now.second.now
        compared.now.third.now)
        category.0 found.old.items) }
{
    if let Some(ranks) = sides_at(compared, category, meter).failing() {
        put(found, Failure { category, ranks })?;
    }
    Ok(())
}

/// The exceptions of one label are looked at.
fn gather(
    compared: &Compared,
    pairs: &Pairs<24>,
    found: &mut Vec<Failure>,
    meter: &mut Meter,
) -> Result<(), NoMemory>
    ensures { OnOk result (found.new.items ≡ gathered
        (left compared.now.relation compared.now.first.now compared.now.second.now
        compared.now.third.now)
        (right compared.now.relation compared.now.first.now compared.now.second.now
        compared.now.third.now)
        (map (λ p. p.category.0) pairs.now) found.old.items) }
{
    for place in 0..pairs.len() {
        look(compared, pairs.pair_at(place).category, found, meter)?;
    }
    Ok(())
}

/// The exceptions of the third label are looked at, where the relation asks of three.
fn gather_third(
    compared: &Compared,
    found: &mut Vec<Failure>,
    meter: &mut Meter,
) -> Result<(), NoMemory>
    ensures { OnOk result (found.new.items ≡ (if is_of_three compared.now.relation then gathered
        (left compared.now.relation compared.now.first.now compared.now.second.now
        compared.now.third.now)
        (right compared.now.relation compared.now.first.now compared.now.second.now
        compared.now.third.now)
        (exceptions compared.now.third.now) found.old.items else found.old.items)) }
{
    if compared.relation.is_of_three() {
        gather(compared, &compared.third.to_raw(meter).pairs, found, meter)?;
    }
    Ok(())
}

/// What either side has at the categories that no label names, by the labels' defaults.
fn default_sides(relation: Relation, a: Level, b: Level, c: Level) -> Sides
    ensures left { result.left ≡ left_rank relation (rank_of a) (rank_of b) }
    ensures right { result.right ≡ right_rank relation (rank_of b) (rank_of c) }
{
    Sides {
        left: relation.left(a.rank(), b.rank()),
        right: relation.right(b.rank(), c.rank()),
    }
}

/// Where the labels' defaults fail the comparison, what either side has.
fn rest_of(compared: &Compared, a: Level, b: Level, c: Level) -> Option<Ranks>
    requires first { a ≡ compared.now.first.now.default_level }
    requires second { b ≡ compared.now.second.now.default_level }
    requires third { c ≡ compared.now.third.now.default_level }
    ensures { result ≡ failing_rest
        (left compared.now.relation compared.now.first.now compared.now.second.now
        compared.now.third.now)
        (right compared.now.relation compared.now.first.now compared.now.second.now
        compared.now.third.now) }
{
    default_sides(compared.relation, a, b, c).failing()
}

/// Where a comparison of labels fails: all categories at which it does and no other. Where the
/// relation asks of two labels, the third says nothing. Want of memory is the only error.
pub fn failing_of(
    alloc: Global,
    relation: Relation,
    first: &Label,
    second: &Label,
    third: &Label,
    meter: &mut Meter,
) -> Result<Failing, NoMemory>
    ensures named { IfOk result (λ told. told.named.items ≡ failing
        (left relation first.now second.now third.now)
        (right relation first.now second.now third.now)) }
    ensures rest { IfOk result (λ told. told.rest ≡ failing_rest
        (left relation first.now second.now third.now)
        (right relation first.now second.now third.now)) }
    ensures exact { IfOk result (λ told. IsExact
        (left relation first.now second.now third.now)
        (right relation first.now second.now third.now) told.named.items told.rest) }
    ensures holds { IfOk result (λ told. compares relation first.now second.now third.now
        ≡ (is_nil told.named.items && is_none told.rest)) }
{
    let compared = Compared {
        relation,
        first,
        second,
        third,
    };
    let (a, b) = (first.to_raw(meter), second.to_raw(meter));
    let c = third.to_raw(meter).default;
    let mut named = Vec::new(alloc);
    gather(&compared, &a.pairs, &mut named, meter)?;
    gather(&compared, &b.pairs, &mut named, meter)?;
    gather_third(&compared, &mut named, meter)?;
    let rest = rest_of(&compared, a.default, b.default, c);
    Ok(Failing { named, rest })
}

//! Labels whose exceptions lie in one block of 64 categories, as bits: two of one block are compared
//! without a walk. The categories of a block have one 64th part, as 64 that were made one after
//! another from a multiple of 64 on.
//!
//! Categories are numbered as they are made, so what one user makes lies in one block or two. Two labels
//! of one block are compared by the 25 pairs of their planes, two of different blocks by the levels that
//! each has beside the other's default. Only where one has no planes are both lists walked. Planes are no
//! part of a label's value. They take 56 bytes.
ghost use Rattle.std.specs.Prelude.{◌≡◌, ◌≢◌, ℕ, ◌<◌, ◌==◌, ◌/◌, ◌↔◌, IsTrue, bit_and, if◌then◌else◌};
ghost use Rattle.std.specs.Int.{bit_at};
ghost use Rattle.std.specs.List.{list_all};
ghost use Rattle.base.specs.declared.levels.Level.{Level};
ghost use Rattle.label_lattice.specs.Levels.{IsRising};
ghost use Rattle.label_lattice.specs.Planes.{bit_of, first_block, planes_of, plane_at};
ghost use Rattle.label_lattice.specs.Ways.{both_bits, both_test};

use crate::pairings::Pairs;
use crate::ways::compare_levels;
use base::{Category, Level};

/// For each level the categories of a block that have it, each as a bit.
#[derive(Clone, Copy)]
pub struct Planes {
    /// The 64th part of each of the block's categories.
    pub block: u64,
    /// By the ranks of levels, from star on.
    having: [u64; 5],
}

/// Whether categories are all of the block of a number.
fn lie_in(block: u64, categories: &[Category]) -> bool
    ensures { result ≡ list_all (λ c. c.0 / 64 == block) categories.now }
{
    categories.iter().all(|category| category.0 / 64 == block)
}

/// The number of the block of the first exception, and 0 where there is none.
fn first_block(exceptions: &Pairs<16>) -> u64
    ensures { result ≡ first_block exceptions.now }
{
    match exceptions.categories().first() {
        Some(category) => category.0 / 64,
        None => 0,
    }
}

/// The bit of a category in its block.
#[inline(always)]
fn bit_of(category: u64) -> u64
    ensures { result ≡ bit_of category }
{
    1 << (category % 64)
}

/// How two levels compare, each way, where some category of a block has the one in one label and the
/// other in the other. Where none has, nothing is left out.
#[inline(always)]
fn compare_at(categories: u64, a: Level, b: Level) -> u8
    ensures { result ≡ (if categories == 0 then 63 else both_bits a b) }
{
    if categories == 0 {
        63
    } else {
        compare_levels(a, b)
    }
}

impl Planes {
    /// The planes of the block that all exceptions lie in, the first block where there are none, and
    /// `None` where they lie in more than one.
    pub fn of(default: Level, exceptions: &Pairs<16>) -> Option<Planes>
        requires { IsRising exceptions.now }
        ensures { result ≡ planes_of default exceptions.now }
    {
        let block = first_block(exceptions);
        if !lie_in(block, exceptions.categories()) {
            return None;
        }
        let mut having = [0; 5];
        having[usize::from(default.rank())] = u64::MAX;
        let mut place = exceptions.len();
        while place > 0 {
            place -= 1;
            let pair = exceptions.pair_at(place);
            let bit = bit_of(pair.category.0);
            having[usize::from(default.rank())] &= !bit;
            having[usize::from(pair.level.rank())] |= bit;
        }
        Some(Planes { block, having })
    }

    /// How the levels of the block's categories compare with the one that all have in another label, each
    /// way: the sum of those bits of `compare_levels` that are there at each category.
    pub fn compare_to(&self, level: Level) -> u8
        ensures { (k : ℕ) → k < 6 → IsTrue (bit_at result k == 1) ↔
            ((l : Level) → plane_at l self.now ≢ 0 → IsTrue (both_test k l level level)) }
    {
        compare_at(self.having[0], Level::Star, level)
            & compare_at(self.having[1], Level::L0, level)
            & compare_at(self.having[2], Level::L1, level)
            & compare_at(self.having[3], Level::L2, level)
            & compare_at(self.having[4], Level::L3, level)
    }

    /// How a level that some categories of the block have in another label compares with those that they
    /// have here, each way.
    #[inline(always)]
    pub fn compare_level(&self, categories: u64, level: Level) -> u8
        ensures { (k : ℕ) → k < 6 → IsTrue (bit_at result k == 1) ↔
            ((l : Level) → bit_and categories (plane_at l self.now) ≢ 0
            → IsTrue (both_test k level l l)) }
    {
        compare_at(categories & self.having[0], level, Level::Star)
            & compare_at(categories & self.having[1], level, Level::L0)
            & compare_at(categories & self.having[2], level, Level::L1)
            & compare_at(categories & self.having[3], level, Level::L2)
            & compare_at(categories & self.having[4], level, Level::L3)
    }

    /// How the levels of the block's categories compare with those in another label, each way: the sum
    /// of those bits of `compare_levels` that are there at each category.
    pub fn compare(&self, other: &Planes) -> u8
        ensures { (k : ℕ) → k < 6 → IsTrue (bit_at result k == 1) ↔
            ((a b : Level) → bit_and (plane_at a self.now) (plane_at b other.now) ≢ 0
            → IsTrue (both_test k a b b)) }
    {
        other.compare_level(self.having[0], Level::Star)
            & other.compare_level(self.having[1], Level::L0)
            & other.compare_level(self.having[2], Level::L1)
            & other.compare_level(self.having[3], Level::L2)
            & other.compare_level(self.having[4], Level::L3)
    }
}

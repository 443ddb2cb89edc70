//! How labels are compared.
ghost use Rattle.std.specs.Prelude.{◌≡◌, ◌≤◌};
ghost use Rattle.label_lattice.specs.Rule.{up_rank, down_rank};
ghost use Rattle.explained.specs.Ranks.{rank_at};
ghost use Rattle.explained.specs.Sides.{left_rank, right_rank, is_of_three};

/// What a side of a comparison has at a category, from the least to the greatest.
#[derive(Clone, Copy, PartialEq, Eq, Debug)]
pub enum Rank {
    /// Ownership, below all levels.
    Star,
    /// Level 0.
    L0,
    /// Level 1.
    L1,
    /// Level 2.
    L2,
    /// Level 3.
    L3,
    /// A star that is raised above all levels (HiStar, OSDI 2006).
    J,
}

impl Rank {
    /// The rank of a number, as comparisons count: 0 for star, 1 to 4 for the levels 0 to 3, 5 for J.
    pub(crate) fn at(number: u8) -> Rank
        ensures { result ≡ rank_at number }
    {
        match number {
            0 => Rank::Star,
            1 => Rank::L0,
            2 => Rank::L1,
            3 => Rank::L2,
            4 => Rank::L3,
            _ => Rank::J,
        }
    }
}

/// What a comparison asks of two or three labels: that one side is at most the other at each
/// category (HiStar, OSDI 2006).
#[derive(Clone, Copy, PartialEq, Eq, Debug)]
pub enum Relation {
    /// The first label is at most the second.
    Below,
    /// The first is at most the second with star raised: so a thread of the second observes.
    Visible,
    /// The first with star raised is at most the second with star raised.
    Shown,
    /// The first is at most the maximum of the second and the third.
    BelowJoin,
    /// The first is at most the maximum of the second and of the third with star raised.
    BelowJoinUp,
    /// The third is at least the floor of the first and the second: star where one of them has
    /// it, and elsewhere their maximum.
    AboveFloor,
}

/// Star raised to J.
fn raised(rank: u8) -> u8
    ensures { result ≡ up_rank rank }
{
    if rank == 0 { 5 } else { rank }
}

/// J lowered to star.
fn lowered(rank: u8) -> u8
    ensures { result ≡ down_rank rank }
{
    if rank == 5 { 0 } else { rank }
}

impl Relation {
    /// Whether it asks of three labels.
    pub fn is_of_three(self) -> bool
        ensures { result ≡ is_of_three self }
    {
        match self {
            Relation::Below | Relation::Visible | Relation::Shown => false,
            Relation::BelowJoin | Relation::BelowJoinUp | Relation::AboveFloor => true,
        }
    }

    /// What is to be at most the other side, at a category to which the labels give these ranks.
    pub(crate) fn left(self, a: u8, b: u8) -> u8
        ensures { result ≡ left_rank self a b }
    {
        match self {
            Relation::Below | Relation::Visible | Relation::BelowJoin | Relation::BelowJoinUp => a,
            Relation::Shown => raised(a),
            Relation::AboveFloor => lowered(raised(a).max(raised(b))),
        }
    }

    /// What it is to be at most.
    pub(crate) fn right(self, b: u8, c: u8) -> u8
        ensures { result ≡ right_rank self b c }
    {
        match self {
            Relation::Below => b,
            Relation::Visible | Relation::Shown => raised(b),
            Relation::BelowJoin => b.max(c),
            Relation::BelowJoinUp => b.max(raised(c)),
            Relation::AboveFloor => c,
        }
    }
}

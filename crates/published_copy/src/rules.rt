//! The rule of the two copies.
use crate::copies::Copied;
use atomic_table::{Join, Split};
use base::Limits;
use crossbeam_utils::rule::{Outcome, Protocol};

/// What a reader or the writer knows: which boot the copies are of. No value of it is made.
pub(crate) struct Tag {
    pub(crate) known: bool,
    pub(crate) number: u64,
    pub(crate) log_name: u64,
    pub(crate) cells_name: u64,
    pub(crate) limits: Limits,
}

/// The published list is legal, the published copy is its state, and each view names its boot.
pub(crate) struct Published;

impl Protocol<Copied, Tag> for Published {
    ghost use Rattle.published_copy.specs.Shares.{Keeps, unknown};

    ghost holds = { Keeps };

    ghost first = { unknown };
}

/// A reader's step, which takes the copy that is published.
pub(crate) struct See;

impl Outcome<Copied, Tag> for See {
    ghost use Rattle.published_copy.specs.Shares.{Sees};

    ghost then = { Sees };
}

/// A step of the writer, which knows the boot from then on.
pub(crate) struct Mark;

impl Outcome<Copied, Tag> for Mark {
    ghost use Rattle.published_copy.specs.Shares.{Marks};

    ghost then = { Marks };
}

/// The writer tells which boot it is.
pub(crate) struct Tell;

impl Split<Tag> for Tell {
    ghost left = { λ v. v };

    ghost right = { λ v. v };
}

impl Join<Tag> for Tell {
    ghost use Rattle.published_copy.specs.Shares.{unknown};

    ghost both = { λ v w. w };

    ghost spent = { unknown };
}

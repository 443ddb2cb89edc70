//! Facts in words.
ghost use Rattle.std.specs.Prelude.{◌≡◌};
ghost use Rattle.shown_dumps.specs.Facts.{kind_words, fact_words, told_text};

use base::Kind;
use explained::Fact;

/// That the object is of a kind, and that it is not.
fn kind_words(kind: Kind) -> (&'static str, &'static str)
    ensures is { result.0.now ≡ (kind_words kind).0 }
    ensures is_not { result.1.now ≡ (kind_words kind).1 }
{
    match kind {
        Kind::Container => ("the object is a container", "the object is not a container"),
        Kind::Segment => ("the object is a segment", "the object is not a segment"),
        Kind::AddressSpace => (
            "the object is an address space",
            "the object is not an address space",
        ),
        Kind::Thread => ("the object is a thread", "the object is not a thread"),
        Kind::Gate => ("the object is a gate", "the object is not a gate"),
        Kind::Device => ("the object is a device", "the object is not a device"),
    }
}

/// What is to be so, and what is so in its place, where the call is refused for it.
fn fact_words(fact: Fact) -> (&'static str, &'static str)
    ensures is { result.0.now ≡ (fact_words fact).0 }
    ensures is_not { result.1.now ≡ (fact_words fact).1 }
{
    match fact {
        Fact::NoThread => (
            "the caller is a live thread",
            "the caller is no live thread",
        ),
        Fact::NoContainer => ("the container is live", "the container is not live"),
        Fact::NoEntry => (
            "the container lists the object, or is it",
            "the container does not list the object, and is not it",
        ),
        Fact::NotListed => (
            "the container lists the object",
            "the container does not list the object",
        ),
        Fact::Listed => (
            "the container does not list the object yet",
            "the container lists the object",
        ),
        Fact::IsRoot => (
            "the entry is not that of the root in itself",
            "the entry is that of the root in itself",
        ),
        Fact::NotOfKind(kind) => kind_words(kind),
        Fact::OfKind(kind) => {
            let (is, is_not) = kind_words(kind);
            (is_not, is)
        }
        Fact::Immutable => (
            "the object is not read-only for good",
            "the object is read-only for good",
        ),
        Fact::NotFixed => (
            "the quota of the object is fixed",
            "the quota of the object is not fixed",
        ),
        Fact::Fixed => (
            "the quota of the object is not fixed",
            "the quota of the object is fixed",
        ),
        Fact::Avoided => (
            "the container takes objects of this kind",
            "the container takes no objects of this kind",
        ),
        Fact::Unstorable => ("the label can be stored", "the label can not be stored"),
        Fact::NotMade => (
            "the categories of the label were made",
            "a category of the label was never made",
        ),
        Fact::HasStar => ("the label has no star", "the label has a star"),
        Fact::LabelFull => (
            "the label of the thread has room for a category",
            "the label of the thread has no room for a category",
        ),
        Fact::ClearanceFull => (
            "the clearance of the thread has room for a category",
            "the clearance of the thread has no room for a category",
        ),
        Fact::IdsSpent => ("an id is left", "no id is left"),
        Fact::CategoriesSpent => ("a category is left", "no category is left"),
        Fact::NoRights => (
            "the mapping allows reads or writes",
            "the mapping allows neither reads nor writes",
        ),
        Fact::SlotEmpty => ("the slot maps something", "the slot maps nothing"),
        Fact::Unmapped => (
            "the address is in a mapping that the thread can use",
            "the address is in no mapping that the thread can use",
        ),
        Fact::RightsLacking => ("the mapping allows it", "the mapping does not allow it"),
        Fact::QueueFull => ("fewer than four packets wait", "four packets wait"),
        Fact::QueueEmpty => ("a packet waits", "no packet waits"),
    }
}

/// What is to be so, or what is so in its place.
pub fn told_text(against: bool, fact: Fact) -> &'static str
    ensures { result.now ≡ told_text against fact }
{
    let (is, is_not) = fact_words(fact);
    if against { is_not } else { is }
}
